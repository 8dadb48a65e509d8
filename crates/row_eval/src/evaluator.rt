ghost use Rattle.std.specs.Prelude.{◌≡◌, ◌+◌, ◌<◌, ◌≤◌, IfOk, OnOk, IsErrOf, length, true, [], map};
ghost use Rattle.std.specs.List.{list_all};
ghost use Rattle.sql_algebra.specs.Meaning.{bag, select_rows};
ghost use Rattle.sql_algebra.specs.RowReads.{read_bound, select_reads, tables_in};
ghost use Rattle.row_eval.specs.Bounds.{rows_in};
ghost use Rattle.sql_algebra.specs.Soundness.{IsSound, select_is_sound, value_is_sound};
ghost use Rattle.row_eval.specs.declared.evaluator.EvalStop.TheVariants.{TooManyRows, NoMemory as OutOfMemory};
ghost use Rattle.row_eval.specs.Scopes.{placed};
ghost use Rattle.row_eval.specs.Stored.{row_values};
ghost use Rattle.row_eval.specs.Typed.{MeetsTypes};
ghost use Rattle.row_eval.specs.Answered.{AreOutputsOf, Answers};
ghost use Rattle.row_eval.specs.Plans.{items_in};

use crate::branch::Search;
use crate::collect::{Aim, run};
use crate::frame::Output;
use crate::planner::{Planner, plan};
use crate::reach::reach_of;
use crate::scope::{Reached, resolve_output};
use crate::source::RowSource;
use crate::steps::Steps;
use graph_ast::Catalog;
use pgq_base::{List, NoMemory, Row, Rows};
use sql_algebra::{Select, SelectColumn, SqlQuery};
use std::alloc::Global;
use std::sync::ledger::Ledger;

/// Why an evaluation stops.
#[derive(Clone, Copy, Debug, PartialEq, Eq)]
pub enum EvalStop {
    /// There are more rows than an answer may have.
    TooManyRows,
    /// Memory ran out.
    NoMemory,
}

impl From<NoMemory> for EvalStop {
    ghost from_gives = { λ _ e. e ≡ OutOfMemory };

    fn from(_error: NoMemory) -> EvalStop {
        EvalStop::NoMemory
    }
}

/// How many rows an answer has at most.
pub const MOST_ROWS: usize = 1_000_000;

/// The rows that a query means, in the order of its definition. `TooManyRows` comes exactly where there are
/// more than a million. Whatever is answered, no more rows are read than the bound says.
pub fn evaluate<R: RowSource, L: Ledger>(
    alloc: Global,
    query: &SqlQuery,
    catalog: &Catalog,
    rows: &R,
    steps: &mut Steps<L>,
) -> Result<Rows, EvalStop>
    requires sound { IsSound query.now catalog.now }
    requires meets { MeetsTypes catalog.now (R.tables rows.now) }
    ensures rows { IfOk result (λ r. row_values r.rows ≡ bag catalog.now query.now (R.tables rows.now)) }
    ensures few { IfOk result (λ r. length (bag catalog.now query.now (R.tables rows.now)) ≤ 1000000) }
    ensures steps { steps.new ≤ steps.old + read_bound catalog.now query.now (R.tables rows.now) }
    ensures too_many { IsErrOf result TooManyRows → 1000000 < length (bag catalog.now query.now (R.tables rows.now)) }
{
    let planner = Planner {
        alloc,
        catalog,
        rows,
    };
    let mut out = List::new(alloc);
    for select in query.selects.as_slice() {
        if !run_select(&planner, select, &mut out, steps)? {
            return Err(EvalStop::TooManyRows);
        }
    }
    Ok(Rows { rows: out })
}

// The columns of a select, resolved.
fn outputs_of(
    alloc: Global,
    catalog: &Catalog,
    columns: &[SelectColumn],
    reach: &[Reached<'_>],
) -> Result<List<Output>, NoMemory>
    requires { list_all (λ column. value_is_sound catalog.now (items_in (placed reach.now)) column.value) columns.now ≡ true }
    ensures { IfOk result (AreOutputsOf catalog.now (placed reach.now) columns.now) }
{
    let mut outputs = List::new(alloc);
    for column in columns {
        outputs.push(resolve_output(alloc, catalog, reach, &column.value)?)?;
    }
    Ok(outputs)
}

// Puts out the rows of a select, if there are not too many.
fn run_select<R: RowSource, L: Ledger>(
    planner: &Planner<'_, '_, R>,
    select: &Select,
    out: &mut List<Row>,
    steps: &mut Steps<L>,
) -> Result<bool, NoMemory>
    requires sound { select_is_sound planner.now.catalog.now select.now [] ≡ true }
    requires meets { MeetsTypes planner.now.catalog.now (R.tables planner.now.rows.now) }
    ensures steps { steps.new ≤ steps.old + (rows_in planner.now.catalog.now (R.tables planner.now.rows.now) (tables_in select.now) + select_reads planner.now.catalog.now (R.tables planner.now.rows.now) select.now []) }
    ensures rows { IfOk result (Answers 1000000 out.old out.new (select_rows planner.now.catalog.now (R.tables planner.now.rows.now) select.now [])) }
{
    let reach = reach_of(planner.alloc, select.from.as_slice(), &[])?;
    let columns = select.columns.as_slice();
    let outputs = outputs_of(planner.alloc, planner.catalog, columns, reach.as_slice())?;
    let planned = plan(select, planner, &[], Vec::new(planner.alloc), steps)?;
    let search = Search {
        alloc: planner.alloc,
        rows: planner.rows,
        indexes: planned.indexes.as_slice(),
    };
    let aim = Aim {
        outputs: outputs.as_slice(),
        limit: MOST_ROWS,
    };
    let mut stack = Vec::new(planner.alloc);
    run(
        planned.stages.as_slice(),
        &search,
        &aim,
        &mut stack,
        out,
        steps,
    )
}
