ghost use Rattle.std.specs.Prelude.{◌≡◌, ◌≤◌, true, length, Ok};
ghost use Rattle.pattern_check.specs.Checks.{due};
ghost use Rattle.pattern_check.specs.Served.{is_served};
ghost use Rattle.pattern_parser.specs.Outcomes.{SpellsQuery, IsShallow};
ghost use Rattle.sample_bound.specs.SampleQuery.{sample_checked};
ghost use Rattle.sample_reading.specs.SampleTree.{sample_tokens, sample_tree};
ghost use Rattle.sample_run.specs.SampleCatalog.{sample_catalog};
ghost use Rattle.sample_run.specs.SampleRun.{sample_query};
ghost use Rattle.sql_lexer.specs.Texts.{AreTokens, most_tokens};

/// The query text of the generated run is without faults: it is cut into tokens, these spell a tree, the tree is
/// served, and in the catalog of the run it stands for one query.
pub fn sample_query_read()
    ensures tokens { AreTokens sample_query sample_tokens }
    ensures few { length sample_tokens ≤ most_tokens }
    ensures spelled { SpellsQuery sample_tokens sample_tree }
    ensures shallow { IsShallow sample_tokens }
    ensures served { is_served sample_tree ≡ true }
    ensures checked { due sample_catalog sample_tree ≡ Ok sample_checked }
{}
