ghost use Rattle.std.specs.Prelude.{◌≡◌, IfOk, ◌++◌, [], flat_map, map, option_copied, is_some};
ghost use Rattle.expr_tree.specs.Leaves.{leaves_in, joined};
ghost use Rattle.first_faults.specs.Faults.{first_of, when};
ghost use Rattle.sql_reader.specs.Levels.{reach_of};
ghost use Rattle.sql_reader.specs.Reaches.{item_of};
ghost use Rattle.pgq_base.specs.declared.code.Code.TheVariants.{DuplicateColumnName};
ghost use Rattle.sql_reader.specs.Names.{leaf_names, unknown_column, unknown_table, repeated_aliases, repeated_columns};

use crate::reach::{Items, Scope, item_in};
use crate::tables::{NamedTable, Tables};
use expr_tree::Expr;
use first_faults::{Fault, Index, note};
use pgq_base::{Code, NoMemory};
use sql_algebra::{ColumnRef, ColumnText, ItemText};
use std::alloc::Global;

// The column is not in the table.
fn unknown_column(
    found: Option<Fault>,
    table: Option<&NamedTable<'_>>,
    leaf: &ColumnRef,
) -> Option<Fault>
    ensures { result ≡ first_of found (unknown_column leaf.now (option_copied table.entry)) }
{
    match table {
        None => found,
        Some(table) => {
            let known = table.column(&leaf.column.name).is_some();
            note(found, !known, Code::UnknownColumn, leaf.column.span)
        }
    }
}

// No FROM in reach has the alias, or its table has not the column.
fn leaf_names(found: Option<Fault>, scope: &Scope<'_, '_, '_>, leaf: &ColumnRef) -> Option<Fault>
    ensures { result ≡ first_of found (leaf_names (reach_of scope.now) leaf.now) }
{
    match item_in(scope, &leaf.alias.name) {
        None => note(found, true, Code::UnknownColumn, leaf.alias.span),
        Some(item) => unknown_column(found, item.table, leaf),
    }
}

/// The faults of the names in an expression.
#[cycle(names)]
#[tactic(auto, using(crate::proofs::FaultSteps::flat_append, crate::proofs::FaultSteps::joined_step))]
pub(crate) fn value_names(
    value: &Expr<ColumnRef>,
    scope: &Scope<'_, '_, '_>,
    found: Option<Fault>,
) -> Option<Fault>
    ensures { result ≡ first_of found (flat_map (leaf_names (reach_of scope.now)) (leaves_in value.now)) }
{
    match value {
        Expr::Lit(_) => found,
        Expr::Null(_) => found,
        Expr::Leaf(leaf) => leaf_names(found, scope, leaf),
        Expr::Compare(_, a, b) => {
            let found = value_names(a.get(), scope, found);
            value_names(b.get(), scope, found)
        }
        Expr::All(list) => list_names(list.as_slice(), scope, found),
        Expr::Any(list) => list_names(list.as_slice(), scope, found),
        Expr::Not(a) => value_names(a.get(), scope, found),
        Expr::Is(a, _, _) => value_names(a.get(), scope, found),
        Expr::InList(a, list, _) => {
            let found = value_names(a.get(), scope, found);
            list_names(list.as_slice(), scope, found)
        }
        Expr::Between(a, b, c, _) => {
            let found = value_names(a.get(), scope, found);
            let found = value_names(b.get(), scope, found);
            value_names(c.get(), scope, found)
        }
        Expr::Coalesce(list) => list_names(list.as_slice(), scope, found),
    }
}

#[cycle(names)]
#[tactic(auto, using(crate::proofs::FaultSteps::flat_append, crate::proofs::FaultSteps::joined_step))]
fn list_names(
    list: &[Expr<ColumnRef>],
    scope: &Scope<'_, '_, '_>,
    found: Option<Fault>,
) -> Option<Fault>
    ensures { result ≡ first_of found (flat_map (leaf_names (reach_of scope.now)) (joined (map leaves_in list.now))) }
{
    let mut found = found;
    for value in list {
        found = value_names(value, scope, found);
    }
    found
}

// A FROM names no table.
fn unknown_table(found: Option<Fault>, tables: &Tables<'_>, item: &ItemText) -> Option<Fault>
    ensures { result ≡ first_of found (unknown_table tables.now item.now) }
{
    let known = tables.table(&item.table.name).is_some();
    note(found, !known, Code::UnknownTable, item.table.span)
}

/// The items of a FROM that name no table.
pub(crate) fn unknown_tables(
    found: Option<Fault>,
    tables: &Tables<'_>,
    items: &[ItemText],
) -> Option<Fault>
    ensures { result ≡ first_of found (flat_map (unknown_table tables.now) items.now) }
{
    let mut found = found;
    for item in items {
        found = unknown_table(found, tables, item);
    }
    found
}

// The alias stands already on an item before, or around the select.
fn repeated_alias<'t, 'c>(
    found: Option<Fault>,
    before: &Items<'t, 'c>,
    outer: &Scope<'_, 't, 'c>,
    item: &ItemText,
) -> Option<Fault>
    ensures { result ≡ first_of found (when (is_some (item_of (before.now ++ reach_of outer.now) item.now.alias.name)) DuplicateColumnName item.now.alias.span) }
{
    let scope = Scope {
        own: before,
        outer: Some(outer),
    };
    let known = item_in(&scope, &item.alias.name).is_some();
    note(found, known, Code::DuplicateColumnName, item.alias.span)
}

/// The aliases that stand already in their FROM or in that of a select around it.
pub(crate) fn repeated_aliases<'t, 'c>(
    alloc: Global,
    found: Option<Fault>,
    tables: &'t Tables<'c>,
    outer: &Scope<'_, 't, 'c>,
    items: &'t [ItemText],
) -> Result<Option<Fault>, NoMemory>
    ensures { IfOk result (λ all. all ≡ first_of found (repeated_aliases tables.now (reach_of outer.now) [] items.now)) }
{
    let mut found = found;
    let mut before = Items::new(alloc);
    for item in items {
        found = repeated_alias(found, &before, outer, item);
        before = before.with(tables, item)?;
    }
    Ok(found)
}

/// The names of columns that stand already on a column of their select.
pub(crate) fn repeated_columns(
    alloc: Global,
    found: Option<Fault>,
    columns: &[ColumnText],
) -> Result<Option<Fault>, NoMemory>
    ensures { IfOk result (λ all. all ≡ first_of found (repeated_columns [] columns.now)) }
{
    let mut found = found;
    let mut seen = Index::new(alloc);
    for column in columns {
        let known = seen.place(column.name.name.as_bytes()).is_some();
        found = note(found, known, Code::DuplicateColumnName, column.name.span);
        seen = seen.with(column.name.name.as_bytes())?;
    }
    Ok(found)
}
