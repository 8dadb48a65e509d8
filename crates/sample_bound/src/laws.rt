ghost use Rattle.std.specs.Prelude.{◌≤◌, ◌*◌, ℕ, [], length};
ghost use Rattle.graph_meaning.specs.Answers.{answer};
ghost use Rattle.sample_run.specs.SampleCatalog.{sample_catalog};
ghost use Rattle.sample_run.specs.SampleRun.{sample_rows};
ghost use Rattle.sample_bound.specs.SampleQuery.{sample_checked};

/// Over the tables with n persons the query of the generated run has at most 12 n rows: three edges go out
/// from each person, so there are at most 3 n walks of one edge and 9 n walks of two.
pub fn sample_answer_is_small()
    ensures { (n : ℕ) → length (answer sample_catalog sample_checked [] [] (sample_rows n)) ≤ 12 * n }
{}
