ghost use Rattle.std.specs.Prelude.{◌≡◌, ◌+◌, ◌<◌, ◌≤◌, ◌^◌, ◌∷◌, [], IfOk, length, map, true, is_some, flat_map};
ghost use Rattle.std.specs.List.{list_all};
ghost use Rattle.expr_tree.specs.declared.tree.Expr.{Expr as Tree};
ghost use Rattle.sql_algebra.specs.declared.tree.Conjunct.{out-Conjunct};
ghost use Rattle.sql_algebra.specs.Catalogs.{table_named};
ghost use Rattle.sql_algebra.specs.Soundness.{condition_is_sound};
ghost use Rattle.sql_algebra.specs.Tuples.{members_of, all_members};
ghost use Rattle.row_eval.specs.Levels.{level_in};
ghost use Rattle.row_eval.specs.Scopes.{placed, AreBelow};
ghost use Rattle.row_eval.specs.Sorted.{all_pass, IsSorted, IsNarrow, Adds, AddsTest, SortsAll, bare_leg, table_place_of, leg_tables, leg_ways};
ghost use Rattle.row_eval.specs.Plans.{items_in, plain_at, conditions_in};

use crate::frame::Condition;
use crate::legs::Leg;
use crate::levels::level;
use crate::narrowing::narrow;
use crate::scope::{Reached, place_of_table, resolve_condition};
use expr_tree::Expr;
use graph_ast::Catalog;
use pgq_base::{List, NoMemory};
use sql_algebra::{ColumnLeaf, Conjunct, FromItem, Select};
use std::alloc::Global;

/// The conditions of a select, each at the row that decides it.
#[derive(Debug, Drop)]
pub struct Sorted {
    pub first: List<Condition>,
    pub legs: Vec<Leg>,
}

// The place of the table of an item.
fn table_of(catalog: &Catalog, item: &FromItem) -> u32
    requires known { is_some (table_named catalog.now item.now.table) ≡ true }
    requires few { length catalog.now.tables < 2 ^ 32 }
    ensures { result ≡ table_place_of catalog.now item.now }
{
    place_of_table(catalog.tables.as_slice(), &item.table) as u32
}

fn legs_of(alloc: Global, catalog: &Catalog, items: &[FromItem]) -> Result<Vec<Leg>, NoMemory>
    requires known { list_all (λ item. is_some (table_named catalog.now item.table)) items.now ≡ true }
    requires few { length catalog.now.tables < 2 ^ 32 }
    ensures { IfOk result (λ legs. legs.items ≡ map (bare_leg catalog.now) items.now) }
{
    let mut legs = Vec::new(alloc);
    for item in items {
        let table = table_of(catalog, item);
        legs.push(Leg {
            table,
            tests: List::new(alloc),
            ways: List::new(alloc),
        })?;
    }
    Ok(legs)
}

// Puts a condition to the row that decides it.
fn put_in(sorted: Sorted, condition: Condition, depth: usize) -> Result<Sorted, NoMemory>
    requires decided { level_in condition.expr ≤ depth + length sorted.legs.items }
    requires sorted { IsSorted depth sorted.first sorted.legs.items }
    ensures all { IfOk result (AddsTest condition.expr sorted) }
    ensures sorted { IfOk result (λ r. IsSorted depth r.first r.legs.items) }
    ensures tables { IfOk result (λ r. leg_tables r.legs.items ≡ leg_tables sorted.legs.items) }
    ensures ways { IfOk result (λ r. leg_ways r.legs.items ≡ leg_ways sorted.legs.items) }
{
    let Sorted { first, legs } = sorted;
    let number = level(&condition.expr).saturating_sub(depth);
    if number == 0 {
        let mut first = first;
        first.push(condition)?;
        return Ok(Sorted { first, legs });
    }
    let mut legs = legs;
    legs[number - 1].tests.push(condition)?;
    Ok(Sorted { first, legs })
}

// Sorts a condition in.
fn sort_in(
    alloc: Global,
    catalog: &Catalog,
    reach: &[Reached<'_>],
    depth: usize,
    condition: &Expr<ColumnLeaf>,
    sorted: Sorted,
) -> Result<Sorted, NoMemory>
    requires sound { condition_is_sound catalog.now (items_in (placed reach.now)) condition.now ≡ true }
    requires below { AreBelow (depth + length sorted.legs.items) (placed reach.now) }
    requires sorted { IsSorted depth sorted.first sorted.legs.items }
    ensures { IfOk result (Adds catalog.now (placed reach.now) depth (condition.now ∷ []) sorted) }
{
    let resolved = resolve_condition(alloc, catalog, reach, condition)?;
    let narrowed = narrow(alloc, sorted, &resolved.expr, depth)?;
    let done = put_in(narrowed, resolved, depth)?;
    Ok(done)
}

fn sort_list(
    alloc: Global,
    catalog: &Catalog,
    reach: &[Reached<'_>],
    depth: usize,
    conditions: &[Expr<ColumnLeaf>],
    sorted: Sorted,
) -> Result<Sorted, NoMemory>
    requires sound { list_all (condition_is_sound catalog.now (items_in (placed reach.now))) conditions.now ≡ true }
    requires below { AreBelow (depth + length sorted.legs.items) (placed reach.now) }
    requires sorted { IsSorted depth sorted.first sorted.legs.items }
    ensures { IfOk result (Adds catalog.now (placed reach.now) depth conditions.now sorted) }
{
    let mut sorted = sorted;
    for condition in conditions {
        sorted = sort_in(alloc, catalog, reach, depth, condition, sorted)?;
    }
    Ok(sorted)
}

fn sort_on(
    alloc: Global,
    catalog: &Catalog,
    reach: &[Reached<'_>],
    depth: usize,
    item: &FromItem,
    sorted: Sorted,
) -> Result<Sorted, NoMemory>
    requires sound { list_all (condition_is_sound catalog.now (items_in (placed reach.now))) (members_of item.now.on) ≡ true }
    requires below { AreBelow (depth + length sorted.legs.items) (placed reach.now) }
    requires sorted { IsSorted depth sorted.first sorted.legs.items }
    ensures { IfOk result (Adds catalog.now (placed reach.now) depth (members_of item.now.on) sorted) }
{
    match &item.on {
        Some(members) => sort_list(alloc, catalog, reach, depth, members.as_slice(), sorted),
        None => Ok(sorted),
    }
}

fn sort_ons(
    alloc: Global,
    catalog: &Catalog,
    reach: &[Reached<'_>],
    depth: usize,
    items: &[FromItem],
    sorted: Sorted,
) -> Result<Sorted, NoMemory>
    requires sound { list_all (condition_is_sound catalog.now (items_in (placed reach.now))) (all_members items.now) ≡ true }
    requires below { AreBelow (depth + length sorted.legs.items) (placed reach.now) }
    requires sorted { IsSorted depth sorted.first sorted.legs.items }
    ensures { IfOk result (Adds catalog.now (placed reach.now) depth (all_members items.now) sorted) }
{
    let mut sorted = sorted;
    for item in items {
        sorted = sort_on(alloc, catalog, reach, depth, item, sorted)?;
    }
    Ok(sorted)
}

fn sort_conjunct(
    alloc: Global,
    catalog: &Catalog,
    reach: &[Reached<'_>],
    depth: usize,
    conjunct: &Conjunct,
    sorted: Sorted,
) -> Result<Sorted, NoMemory>
    requires sound { list_all (condition_is_sound catalog.now (items_in (placed reach.now))) (plain_at (out-Conjunct conjunct.now)) ≡ true }
    requires below { AreBelow (depth + length sorted.legs.items) (placed reach.now) }
    requires sorted { IsSorted depth sorted.first sorted.legs.items }
    ensures { IfOk result (Adds catalog.now (placed reach.now) depth (plain_at (out-Conjunct conjunct.now)) sorted) }
{
    match conjunct {
        Conjunct::Plain(condition) => sort_in(alloc, catalog, reach, depth, condition, sorted),
        Conjunct::NotExists(_) => Ok(sorted),
    }
}

fn sort_plain(
    alloc: Global,
    catalog: &Catalog,
    reach: &[Reached<'_>],
    depth: usize,
    conjuncts: &[Conjunct],
    sorted: Sorted,
) -> Result<Sorted, NoMemory>
    requires sound { list_all (condition_is_sound catalog.now (items_in (placed reach.now))) (flat_map (λ conjunct. plain_at (out-Conjunct conjunct)) conjuncts.now) ≡ true }
    requires below { AreBelow (depth + length sorted.legs.items) (placed reach.now) }
    requires sorted { IsSorted depth sorted.first sorted.legs.items }
    ensures { IfOk result (Adds catalog.now (placed reach.now) depth (flat_map (λ conjunct. plain_at (out-Conjunct conjunct)) conjuncts.now) sorted) }
{
    let mut sorted = sorted;
    for conjunct in conjuncts {
        sorted = sort_conjunct(alloc, catalog, reach, depth, conjunct, sorted)?;
    }
    Ok(sorted)
}

/// Sorts the conditions of a select by the rows that decide them, where so many rows are there before its own.
pub fn sort_conditions(
    alloc: Global,
    catalog: &Catalog,
    reach: &[Reached<'_>],
    depth: usize,
    select: &Select,
) -> Result<Sorted, NoMemory>
    requires known { list_all (λ item. is_some (table_named catalog.now item.table)) select.now.from ≡ true }
    requires few { length catalog.now.tables < 2 ^ 32 }
    requires sound { list_all (condition_is_sound catalog.now (items_in (placed reach.now))) (conditions_in select.now.from select.now.conjuncts) ≡ true }
    requires below { AreBelow (depth + length select.now.from) (placed reach.now) }
    ensures all { IfOk result (SortsAll catalog.now (placed reach.now) (conditions_in select.now.from select.now.conjuncts)) }
    ensures sorted { IfOk result (λ r. IsSorted depth r.first r.legs.items) }
    ensures narrow { IfOk result (IsNarrow depth) }
    ensures tables { IfOk result (λ r. leg_tables r.legs.items ≡ map (table_place_of catalog.now) select.now.from) }
{
    let items = select.from.as_slice();
    let conjuncts = select.conjuncts.as_slice();
    let bare = Sorted {
        first: List::new(alloc),
        legs: legs_of(alloc, catalog, items)?,
    };
    let half = sort_ons(alloc, catalog, reach, depth, items, bare)?;
    sort_plain(alloc, catalog, reach, depth, conjuncts, half)
}
