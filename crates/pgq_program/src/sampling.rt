ghost use Rattle.std.specs.Prelude.{◌≡◌, ◌≤◌, ◌*◌, IfOk, IsErrOf, IsOkUnless, length, map};
ghost use Rattle.csv_tables.specs.Outcomes.{values_of};
ghost use Rattle.graph_meaning.specs.Lists.{distinct};
ghost use Rattle.pgq_base.specs.Instances.{same_values};
ghost use Rattle.query_lowering.specs.Translatable.{IsTranslatable};
ghost use Rattle.sample_bound.specs.SampleQuery.{sample_checked};
ghost use Rattle.sample_run.specs.SampleCatalog.{sample_catalog};
ghost use Rattle.sample_run.specs.SampleRun.{sample_query, sample_rows, sample_summary};
ghost use Rattle.pgq_program.specs.Halts.{halting};
ghost use Rattle.pgq_program.specs.Running.{answer_due, GivesRows};
ghost use Rattle.pgq_program.specs.Steps.{StepGives, StepWrites, Halted, IsSampled};
ghost use Rattle.pgq_program.specs.Queries.{IsQueryRead};

use crate::halt::Halt;
use crate::running::answer_rows;
use crate::steps::query_in;
use distinct_rows::distinct;
use graph_ast::{Catalog, CheckedQuery};
use pgq_base::{List, NoMemory, Row, Rows};
use sample_run::{
    sample_catalog, sample_catalog_valid, sample_query, sample_summary, sample_tables,
};
use std::alloc::Global;

// The query of the generated run in its catalog.
fn sampled_query(alloc: Global, catalog: &Catalog) -> Result<CheckedQuery, Halt>
    requires { catalog.now ≡ sample_catalog }
    ensures due { StepGives (Halted (IsQueryRead sample_catalog sample_query)) result }
    ensures is { IfOk result (λ query. query ≡ sample_checked) }
    ensures whole { IsOkUnless result Halt.NoMemory }
    ensures translatable { IfOk result (λ query. IsTranslatable sample_catalog query) }
    ensures never { IsErrOf result Halt.Usage → ⊥ }
    ensures calm { IsErrOf result Halt.ReadFault → ⊥ }
{
    sample_catalog_valid();
    query_in(alloc, catalog, sample_query())
}

// The answer of a query over the tables of the generated run.
fn sampled_rows(
    alloc: Global,
    catalog: &Catalog,
    query: &CheckedQuery,
    count: u32,
) -> Result<Rows, Halt>
    requires some { 1 ≤ count }
    requires most { count ≤ 2000 }
    requires is { catalog.now ≡ sample_catalog }
    requires translatable { IsTranslatable sample_catalog query.now }
    requires of_run { query.now ≡ sample_checked }
    ensures rows { GivesRows (halting (answer_due sample_catalog query.now (sample_rows count))) result }
    ensures whole { IsOkUnless result Halt.NoMemory }
{
    let instance = sample_tables(alloc, count)?;
    answer_rows(alloc, catalog, query, &instance)
}

// The summary of a run with so many persons and these rows.
fn summary_of(alloc: Global, count: u32, rows: &[Row]) -> Result<List<u8>, NoMemory>
    requires { count ≤ 2000 }
    ensures { IfOk result (λ text. text ≡ sample_summary count (3 * count) (length rows.now) (length (distinct same_values (map values_of rows.now)))) }
{
    let different = distinct(alloc, rows)?;
    let edges = 3 * count as u64;
    sample_summary(alloc, count as u64, edges, rows.len() as u64, different)
}

/// The summary of the generated run with so many persons: four lines that say how many vertices and edges
/// there are, how many rows the answer of its query has, and how many of these are different. There is one unless
/// memory is refused: the query text has no fault, and its answer is small.
pub(crate) fn sample(alloc: Global, count: u32) -> Result<List<u8>, Halt>
    requires some { 1 ≤ count }
    requires most { count ≤ 2000 }
    ensures told { StepWrites (IsSampled count) result }
    ensures whole { IsOkUnless result Halt.NoMemory }
    ensures never { IsErrOf result Halt.Usage → ⊥ }
    ensures calm { IsErrOf result Halt.ReadFault → ⊥ }
{
    let catalog = sample_catalog(alloc)?;
    let query = sampled_query(alloc, &catalog)?;
    let rows = sampled_rows(alloc, &catalog, &query, count)?;
    Ok(summary_of(alloc, count, rows.rows.as_slice())?)
}
