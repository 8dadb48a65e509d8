ghost use Rattle.std.specs.Prelude.{◌≡◌, IfOk, ◌++◌, [], map, flat_map, None};
ghost use Rattle.first_faults.specs.Faults.{first_of};
ghost use Rattle.sql_reader.specs.Reaches.{placed, items_placed, reach_within};
ghost use Rattle.sql_reader.specs.Levels.{reach_of};
ghost use Rattle.sql_reader.specs.Phases.{value_faults, condition_faults, given_faults, chain_to, members_of, on_faults, select_faults, conjunct_faults, column_class, column_classes, differing_items, later_faults, united_faults, union_faults, faults_in, or_then, first_fault};

use crate::names::{repeated_aliases, repeated_columns, unknown_tables, value_names};
use crate::reach::{Items, Scope, alone};
use crate::tables::Tables;
use crate::types::{condition_types, value_types};
use crate::unions::united_faults;
use condition_grammar::Spanned;
use first_faults::Fault;
use pgq_base::NoMemory;
use sql_algebra::{ColumnRef, ColumnText, ConjunctText, ItemText, SelectText, SqlText};
use std::alloc::Global;

/// The phases in which a text is judged: the first that has a fault decides.
#[derive(Clone, Copy, Debug)]
pub(crate) enum Phase {
    Names,
    Types,
}

fn value_faults(
    found: Option<Fault>,
    phase: Phase,
    scope: &Scope<'_, '_, '_>,
    value: &Spanned<ColumnRef>,
) -> Option<Fault>
    ensures { result ≡ first_of found (value_faults phase (reach_of scope.now) value.now) }
{
    match phase {
        Phase::Names => value_names(&value.tree, scope, found),
        Phase::Types => value_types(found, scope, value),
    }
}

fn condition_faults(
    found: Option<Fault>,
    phase: Phase,
    scope: &Scope<'_, '_, '_>,
    condition: &Spanned<ColumnRef>,
) -> Option<Fault>
    ensures { result ≡ first_of found (condition_faults phase (reach_of scope.now) condition.now) }
{
    match phase {
        Phase::Names => value_names(&condition.tree, scope, found),
        Phase::Types => condition_types(found, scope, condition),
    }
}

// What is wrong with the names that a select gives, and with those of its tables.
#[tactic(auto, using(crate::proofs::PhaseSteps::three_parts))]
fn given_faults<'t, 'c>(
    alloc: Global,
    found: Option<Fault>,
    phase: Phase,
    tables: &'t Tables<'c>,
    outer: &Scope<'_, 't, 'c>,
    select: &'t SelectText,
) -> Result<Option<Fault>, NoMemory>
    ensures { IfOk result (λ all. all ≡ first_of found (given_faults phase tables.now (reach_of outer.now) select.now.columns select.now.from)) }
{
    match phase {
        Phase::Names => {
            let items = select.from.as_slice();
            let found = repeated_columns(alloc, found, select.columns.as_slice())?;
            let found = unknown_tables(found, tables, items);
            repeated_aliases(alloc, found, tables, outer, items)
        }
        Phase::Types => Ok(found),
    }
}

/// The items of a FROM.
pub(crate) fn items_placed<'t, 'c>(
    alloc: Global,
    tables: &'t Tables<'c>,
    items: &'t [ItemText],
) -> Result<Items<'t, 'c>, NoMemory>
    ensures { IfOk result (λ all. all ≡ items_placed tables.entry.now items.entry.now) }
{
    let mut placed = Items::new(alloc);
    for item in items {
        placed = placed.with(tables, item)?;
    }
    Ok(placed)
}

/// The items of the chain up to this one, where those before it are given.
pub(crate) fn chain_to<'t, 'c>(
    alloc: Global,
    tables: &'t Tables<'c>,
    before: Items<'t, 'c>,
    item: &'t ItemText,
) -> Result<Items<'t, 'c>, NoMemory>
    ensures { IfOk result (λ chain. chain ≡ chain_to tables.entry.now before.entry item.entry.now item.entry.now.on) }
{
    match &item.on {
        None => Items::new(alloc).with(tables, item),
        Some(_) => before.with(tables, item),
    }
}

fn conditions_faults(
    found: Option<Fault>,
    phase: Phase,
    scope: &Scope<'_, '_, '_>,
    conditions: &[Spanned<ColumnRef>],
) -> Option<Fault>
    ensures { result ≡ first_of found (flat_map (condition_faults phase (reach_of scope.now)) conditions.now) }
{
    let mut found = found;
    for condition in conditions {
        found = condition_faults(found, phase, scope, condition);
    }
    found
}

// What is wrong with the members of an item's ON, where its chain is given.
fn members_faults<'t, 'c>(
    found: Option<Fault>,
    phase: Phase,
    chain: &Items<'t, 'c>,
    outer: &Scope<'_, 't, 'c>,
    item: &ItemText,
) -> Option<Fault>
    ensures { result ≡ first_of found (flat_map (condition_faults phase (chain.now ++ reach_of outer.now)) (members_of item.now.on)) }
{
    let scope = Scope {
        own: chain,
        outer: Some(outer),
    };
    match &item.on {
        None => found,
        Some(members) => conditions_faults(found, phase, &scope, members.as_slice()),
    }
}

#[tactic(auto, using(crate::proofs::PhaseSteps::on_step))]
fn on_faults<'t, 'c>(
    alloc: Global,
    found: Option<Fault>,
    phase: Phase,
    tables: &'t Tables<'c>,
    outer: &Scope<'_, 't, 'c>,
    items: &'t [ItemText],
) -> Result<Option<Fault>, NoMemory>
    ensures { IfOk result (λ all. all ≡ first_of found (on_faults phase tables.now (reach_of outer.now) [] items.now)) }
{
    let mut found = found;
    let mut chain = Items::new(alloc);
    for item in items {
        chain = chain_to(alloc, tables, chain, item)?;
        found = members_faults(found, phase, &chain, outer, item);
    }
    Ok(found)
}

fn columns_faults(
    found: Option<Fault>,
    phase: Phase,
    scope: &Scope<'_, '_, '_>,
    columns: &[ColumnText],
) -> Option<Fault>
    ensures { result ≡ first_of found (flat_map (λ column. value_faults phase (reach_of scope.now) column.value) columns.now) }
{
    let mut found = found;
    for column in columns {
        found = value_faults(found, phase, scope, &column.value);
    }
    found
}

#[cycle(selects)]
fn select_faults<'t, 'c>(
    alloc: Global,
    select: &'t SelectText,
    phase: Phase,
    tables: &'t Tables<'c>,
    outer: &Scope<'_, 't, 'c>,
    found: Option<Fault>,
) -> Result<Option<Fault>, NoMemory>
    ensures { IfOk result (λ all. all ≡ first_of found (select_faults phase tables.now select.now (reach_of outer.now))) }
{
    let from = select.from.as_slice();
    let items = items_placed(alloc, tables, from)?;
    let scope = Scope {
        own: &items,
        outer: Some(outer),
    };
    let found = given_faults(alloc, found, phase, tables, outer, select)?;
    let found = columns_faults(found, phase, &scope, select.columns.as_slice());
    let found = on_faults(alloc, found, phase, tables, outer, from)?;
    let conjuncts = select.conjuncts.as_slice();
    conjuncts_faults(alloc, conjuncts, phase, tables, &scope, found)
}

#[cycle(selects)]
fn conjuncts_faults<'t, 'c>(
    alloc: Global,
    conjuncts: &'t [ConjunctText],
    phase: Phase,
    tables: &'t Tables<'c>,
    scope: &Scope<'_, 't, 'c>,
    found: Option<Fault>,
) -> Result<Option<Fault>, NoMemory>
    ensures { IfOk result (λ all. all ≡ first_of found (flat_map (λ conjunct. conjunct (reach_of scope.now)) (map (conjunct_faults phase tables.now) conjuncts.now))) }
{
    let mut found = found;
    for conjunct in conjuncts {
        found = conjunct_faults(alloc, conjunct, phase, tables, scope, found)?;
    }
    Ok(found)
}

#[cycle(selects)]
fn conjunct_faults<'t, 'c>(
    alloc: Global,
    conjunct: &'t ConjunctText,
    phase: Phase,
    tables: &'t Tables<'c>,
    scope: &Scope<'_, 't, 'c>,
    found: Option<Fault>,
) -> Result<Option<Fault>, NoMemory>
    ensures { IfOk result (λ all. all ≡ first_of found (conjunct_faults phase tables.now conjunct.now (reach_of scope.now))) }
{
    match conjunct {
        ConjunctText::Plain(condition) => Ok(condition_faults(found, phase, scope, condition)),
        ConjunctText::NotExists(select) => {
            select_faults(alloc, select.get(), phase, tables, scope, found)
        }
    }
}

fn selects_faults<'t, 'c>(
    alloc: Global,
    selects: &'t [SelectText],
    phase: Phase,
    tables: &'t Tables<'c>,
    outer: &Scope<'_, 't, 'c>,
    found: Option<Fault>,
) -> Result<Option<Fault>, NoMemory>
    ensures { IfOk result (λ all. all ≡ first_of found (flat_map (λ select. select_faults phase tables.now select (reach_of outer.now)) selects.now)) }
{
    let mut found = found;
    for select in selects {
        found = select_faults(alloc, select, phase, tables, outer, found)?;
    }
    Ok(found)
}

fn union_faults<'t, 'c>(
    alloc: Global,
    found: Option<Fault>,
    phase: Phase,
    tables: &'t Tables<'c>,
    selects: &'t [SelectText],
) -> Result<Option<Fault>, NoMemory>
    ensures { IfOk result (λ all. all ≡ first_of found (union_faults phase tables.now selects.now)) }
{
    match phase {
        Phase::Names => Ok(found),
        Phase::Types => united_faults(alloc, found, tables, selects),
    }
}

// The first fault of a phase.
fn phase_fault<'t, 'c>(
    alloc: Global,
    phase: Phase,
    tables: &'t Tables<'c>,
    text: &'t SqlText,
) -> Result<Option<Fault>, NoMemory>
    ensures { IfOk result (λ found. found ≡ first_of None (faults_in phase tables.now text.now)) }
{
    let selects = text.selects.as_slice();
    let nothing = Items::new(alloc);
    let outer = alone(&nothing);
    let found = selects_faults(alloc, selects, phase, tables, &outer, None)?;
    union_faults(alloc, found, phase, tables, selects)
}

/// The first fault of the first phase that has one.
pub(crate) fn first_fault<'t, 'c>(
    alloc: Global,
    tables: &'t Tables<'c>,
    text: &'t SqlText,
) -> Result<Option<Fault>, NoMemory>
    ensures { IfOk result (λ first. first ≡ first_fault tables.now text.now) }
{
    match phase_fault(alloc, Phase::Names, tables, text)? {
        Some(fault) => Ok(Some(fault)),
        None => phase_fault(alloc, Phase::Types, tables, text),
    }
}
