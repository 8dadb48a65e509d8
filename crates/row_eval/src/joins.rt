ghost use Rattle.std.specs.Prelude.{◌≡◌, ◌+◌, ◌<◌, ◌≤◌, ◌++◌, ◌∷◌, [], IfOk, length, List as Seq};
ghost use Rattle.row_eval.specs.declared.access.Access.{Access as Reading};
ghost use Rattle.row_eval.specs.declared.index.Index.{Index as Built};
ghost use Rattle.pgq_base.specs.Instances.{rows_at};
ghost use Rattle.row_eval.specs.Slots.{Stack};
ghost use Rattle.row_eval.specs.Served.{AllServed};
ghost use Rattle.row_eval.specs.Stages.{found, visits, accesses};
ghost use Rattle.row_eval.specs.Joins.{passed_on, tied_rows, narrowed, visits_passed};

use crate::access::Key;
use crate::frame::Condition;
use crate::index::{Index, build_index};
use crate::source::RowSource;
use crate::stage::{Stage, before};
use crate::steps::Steps;
use crate::ties::{access_of, untied_tests};
use pgq_base::{List, NoMemory};
use std::alloc::Global;
use std::sync::ledger::Ledger;

/// Joins the rows of a table at a place that one of the ways gives, followed by tests, to what follows. Behind the stages stands the index of
/// the access, which has this number.
pub fn join_table<'r, R: RowSource, L: Ledger>(
    alloc: Global,
    rows: &'r R,
    table: u32,
    number: usize,
    place: usize,
    tests: List<Condition>,
    ways: &[Key],
    rest: List<Stage>,
    steps: &mut Steps<L>,
) -> Result<(List<Stage>, Index<'r>), NoMemory>
    requires { table < length (R.tables rows.now) }
    ensures found { IfOk result (λ r. (s : Stack) → length s ≡ place → found (R.tables rows.now) r.0 s ≡ passed_on (found (R.tables rows.now) rest) tests s (narrowed ways.now s (rows_at (R.tables rows.now) table))) }
    ensures visits { IfOk result (λ r. (s : Stack) → length s ≡ place → visits (R.tables rows.now) r.0 s ≡ visits_passed (visits (R.tables rows.now) rest) tests s (tied_rows tests s (narrowed ways.now s (rows_at (R.tables rows.now) table)))) }
    ensures served { IfOk result (λ r. (indexes : Seq Built) → number ≡ length indexes → AllServed (R.tables rows.now) indexes (accesses rest) → AllServed (R.tables rows.now) (indexes ++ r.1 ∷ []) (accesses r.0)) }
    ensures steps { steps.new ≤ steps.old + length (rows_at (R.tables rows.now) table) }
{
    let access = access_of(alloc, table, number, place, tests.as_slice(), ways)?;
    let index = build_index(alloc, table, access.keys.as_slice(), rows, steps)?;
    let left = untied_tests(alloc, place, tests)?;
    let kept = before(Stage::Keep(left), rest)?;
    let stages = before(Stage::Join(access), kept)?;
    Ok((stages, index))
}

/// Stages and the indexes that their accesses name by number.
#[derive(Drop)]
pub struct Planned<'r> {
    pub stages: List<Stage>,
    pub indexes: Vec<Index<'r>>,
}

/// Joins the rows of a table at a place that one of the ways gives, followed by tests, to what is planned.
pub fn join_one<'r, R: RowSource, L: Ledger>(
    alloc: Global,
    rows: &'r R,
    planned: Planned<'r>,
    table: u32,
    place: usize,
    tests: List<Condition>,
    ways: &[Key],
    steps: &mut Steps<L>,
) -> Result<Planned<'r>, NoMemory>
    requires { table < length (R.tables rows.now) }
    ensures found { IfOk result (λ p. (s : Stack) → length s ≡ place → found (R.tables rows.now) p.stages s ≡ passed_on (found (R.tables rows.now) planned.entry.stages) tests s (narrowed ways.now s (rows_at (R.tables rows.now) table))) }
    ensures visits { IfOk result (λ p. (s : Stack) → length s ≡ place → visits (R.tables rows.now) p.stages s ≡ visits_passed (visits (R.tables rows.now) planned.entry.stages) tests s (tied_rows tests s (narrowed ways.now s (rows_at (R.tables rows.now) table)))) }
    ensures served { IfOk result (λ p. AllServed (R.tables rows.now) planned.entry.indexes.items (accesses planned.entry.stages) → AllServed (R.tables rows.now) p.indexes.items (accesses p.stages)) }
    ensures kept { IfOk result (λ p. (all : Seq Reading) → AllServed (R.tables rows.now) planned.entry.indexes.items all → AllServed (R.tables rows.now) p.indexes.items all) }
    ensures steps { steps.new ≤ steps.old + length (rows_at (R.tables rows.now) table) }
{
    let Planned { stages, indexes } = planned;
    let mut indexes = indexes;
    let number = indexes.len();
    let joined = join_table(
        alloc, rows, table, number, place, tests, ways, stages, steps,
    )?;
    indexes.push(joined.1)?;
    Ok(Planned {
        stages: joined.0,
        indexes,
    })
}
