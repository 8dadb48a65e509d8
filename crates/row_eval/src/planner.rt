ghost use Rattle.std.specs.Prelude.{◌≡◌, ◌+◌, ◌≤◌, ◌∷◌, [], IfOk, length, map, true, cond, List as Seq};
ghost use Rattle.std.specs.List.{list_all};
ghost use Rattle.sql_algebra.specs.Soundness.{select_is_sound};
ghost use Rattle.sql_algebra.specs.Reaches.{conjunct_is_sound};
ghost use Rattle.row_eval.specs.declared.access.Access.{Access as Reading};
ghost use Rattle.row_eval.specs.Scopes.{placed, reach_under, AreBelow};
ghost use Rattle.row_eval.specs.Served.{AllServed};
ghost use Rattle.row_eval.specs.Stages.{accesses};
ghost use Rattle.row_eval.specs.Typed.{MeetsTypes};
ghost use Rattle.sql_algebra.specs.RowReads.{tables_in};
ghost use Rattle.row_eval.specs.Plans.{items_in, IsEndOf, IsPlanOf};
ghost use Rattle.row_eval.specs.Bounds.{IsEndWithin, IsWithin, rows_in, inner_tables, item_tables};

use crate::chains::join_all;
use crate::index::Index;
use crate::joins::Planned;
use crate::reach::reach_of;
use crate::scope::Reached;
use crate::sorting::{Sorted, sort_conditions};
use crate::source::RowSource;
use crate::stage::{Stage, before};
use crate::steps::Steps;
use graph_ast::Catalog;
use pgq_base::{List, NoMemory};
use sql_algebra::{Conjunct, Select};
use std::alloc::Global;
use std::sync::ledger::Ledger;

/// What selects are planned over.
#[derive(Drop)]
pub struct Planner<'a, 'r, R: RowSource> {
    pub alloc: Global,
    pub catalog: &'a Catalog,
    pub rows: &'r R,
}

// The joins of a select with its conditions, before what is planned for their end.
fn plan_joins<'r, R: RowSource, L: Ledger>(
    select: &Select,
    planner: &Planner<'_, 'r, R>,
    outer: &[Reached<'_>],
    reach: &[Reached<'_>],
    end: Planned<'r>,
    steps: &mut Steps<L>,
) -> Result<Planned<'r>, NoMemory>
    requires sound { select_is_sound planner.now.catalog.now select.now (items_in (placed outer.now)) ≡ true }
    requires below { AreBelow (length outer.now) (placed outer.now) }
    requires meets { MeetsTypes planner.now.catalog.now (R.tables planner.now.rows.now) }
    requires reach { placed reach.now ≡ reach_under select.now.from (placed outer.now) }
    requires end { IsEndOf planner.now.catalog.now (R.tables planner.now.rows.now) select.now.conjuncts (placed reach.now) end.stages }
    requires within { IsEndWithin planner.now.catalog.now (R.tables planner.now.rows.now) select.now.conjuncts (placed reach.now) end.stages }
    requires served { AllServed (R.tables planner.now.rows.now) end.indexes.items (accesses end.stages) }
    ensures found { IfOk result (λ p. IsPlanOf planner.now.catalog.now (R.tables planner.now.rows.now) select.now (placed outer.now) p.stages) }
    ensures within { IfOk result (λ p. IsWithin planner.now.catalog.now (R.tables planner.now.rows.now) select.now (placed outer.now) p.stages) }
    ensures steps { steps.new ≤ steps.old + rows_in planner.now.catalog.now (R.tables planner.now.rows.now) (item_tables select.now.from) }
    ensures served { IfOk result (λ p. AllServed (R.tables planner.now.rows.now) p.indexes.items (accesses p.stages)) }
    ensures kept { IfOk result (λ p. (all : Seq Reading) → AllServed (R.tables planner.now.rows.now) end.entry.indexes.items all → AllServed (R.tables planner.now.rows.now) p.indexes.items all) }
{
    let sorted = sort_conditions(planner.alloc, planner.catalog, reach, outer.len(), select)?;
    let Sorted { first, legs } = sorted;
    let joined = join_all(planner.alloc, planner.rows, end, legs, outer.len(), steps)?;
    let Planned { stages, indexes } = joined;
    let stages = before(Stage::Keep(first), stages)?;
    Ok(Planned { stages, indexes })
}

/// The stages of a select within the reach of the selects around it, and the indexes of its accesses behind those that are there.
#[cycle(plan)]
pub fn plan<'q, 'r, R: RowSource, L: Ledger>(
    select: &'q Select,
    planner: &Planner<'_, 'r, R>,
    outer: &[Reached<'q>],
    indexes: Vec<Index<'r>>,
    steps: &mut Steps<L>,
) -> Result<Planned<'r>, NoMemory>
    requires sound { select_is_sound planner.now.catalog.now select.now (items_in (placed outer.now)) ≡ true }
    requires below { AreBelow (length outer.now) (placed outer.now) }
    requires meets { MeetsTypes planner.now.catalog.now (R.tables planner.now.rows.now) }
    ensures found { IfOk result (λ p. IsPlanOf planner.now.catalog.now (R.tables planner.now.rows.now) select.now (placed outer.now) p.stages) }
    ensures within { IfOk result (λ p. IsWithin planner.now.catalog.now (R.tables planner.now.rows.now) select.now (placed outer.now) p.stages) }
    ensures steps { steps.new ≤ steps.old + rows_in planner.now.catalog.now (R.tables planner.now.rows.now) (tables_in select.now) }
    ensures served { IfOk result (λ p. AllServed (R.tables planner.now.rows.now) p.indexes.items (accesses p.stages)) }
    ensures kept { IfOk result (λ p. (all : Seq Reading) → AllServed (R.tables planner.now.rows.now) indexes.entry.items all → AllServed (R.tables planner.now.rows.now) p.indexes.items all) }
{
    let reach = reach_of(planner.alloc, select.from.as_slice(), outer)?;
    let conjuncts = select.conjuncts.as_slice();
    let end = plan_absent(conjuncts, planner, reach.as_slice(), indexes, steps)?;
    plan_joins(select, planner, outer, reach.as_slice(), end, steps)
}

// The end of a select: it goes on where each inner select of a NOT EXISTS finds nothing.
#[cycle(plan)]
fn plan_absent<'q, 'r, R: RowSource, L: Ledger>(
    conjuncts: &'q [Conjunct],
    planner: &Planner<'_, 'r, R>,
    reach: &[Reached<'q>],
    indexes: Vec<Index<'r>>,
    steps: &mut Steps<L>,
) -> Result<Planned<'r>, NoMemory>
    requires sound { list_all (λ conjunct. conjunct (items_in (placed reach.now))) (map (conjunct_is_sound planner.now.catalog.now) conjuncts.now) ≡ true }
    requires below { AreBelow (length reach.now) (placed reach.now) }
    requires meets { MeetsTypes planner.now.catalog.now (R.tables planner.now.rows.now) }
    ensures end { IfOk result (λ p. IsEndOf planner.now.catalog.now (R.tables planner.now.rows.now) conjuncts.now (placed reach.now) p.stages) }
    ensures within { IfOk result (λ p. IsEndWithin planner.now.catalog.now (R.tables planner.now.rows.now) conjuncts.now (placed reach.now) p.stages) }
    ensures steps { steps.new ≤ steps.old + rows_in planner.now.catalog.now (R.tables planner.now.rows.now) (inner_tables conjuncts.now) }
    ensures served { IfOk result (λ p. AllServed (R.tables planner.now.rows.now) p.indexes.items (accesses p.stages)) }
    ensures kept { IfOk result (λ p. (all : Seq Reading) → AllServed (R.tables planner.now.rows.now) indexes.entry.items all → AllServed (R.tables planner.now.rows.now) p.indexes.items all) }
{
    let mut end = List::new(planner.alloc);
    let mut indexes = indexes;
    for conjunct in conjuncts {
        match conjunct {
            Conjunct::Plain(_) => {}
            Conjunct::NotExists(select) => {
                let inner = plan(select.get(), planner, reach, indexes, steps)?;
                indexes = inner.indexes;
                end = before(Stage::Absent(inner.stages), end)?;
            }
        }
    }
    Ok(Planned {
        stages: end,
        indexes,
    })
}
