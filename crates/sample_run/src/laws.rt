ghost use Rattle.std.specs.Prelude.{◌≤◌, ℕ};
ghost use Rattle.graph_ast.specs.Catalogs.{IsValidCatalog};
ghost use Rattle.graph_ast.specs.Fits.{Fits};
ghost use Rattle.sample_run.specs.SampleCatalog.{sample_catalog};
ghost use Rattle.sample_run.specs.SampleRun.{sample_rows};

use graph_meaning::small_tables_fit;

/// The catalog of the generated run is valid.
pub fn sample_catalog_valid()
    ensures { IsValidCatalog sample_catalog }
{
    small_tables_fit();
}

/// The tables of the generated run fit its schema: the keys differ, and each reference meets a person.
pub fn sample_tables_fit()
    ensures { (n : ℕ) → 1 ≤ n → n ≤ 2000 → Fits sample_catalog (sample_rows n) }
{}
