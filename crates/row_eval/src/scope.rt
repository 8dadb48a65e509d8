ghost use Rattle.std.specs.Prelude.{◌≡◌, IfOk, map, find, bytes_eq};
ghost use Rattle.std.specs.Option.{option_copied};
ghost use Rattle.pgq_base.specs.Tables.{place_of};
ghost use Rattle.expr_tree.specs.Mapping.{mapped};
ghost use Rattle.expr_tree.specs.Classes.{IsWellClassed, class_in};
ghost use Rattle.pgq_base.specs.declared.value.Class.TheVariants.{Truth as TruthClass};
ghost use Rattle.sql_algebra.specs.Soundness.{leaf_class};
ghost use Rattle.sql_algebra.specs.Catalogs.{column_place};
ghost use Rattle.row_eval.specs.Scopes.{placed, slot_in_reach, leaf_expr_of};

use crate::frame::{Condition, Output, Slot};
use expr_tree::{Expr, map_leaves};
use graph_ast::{Catalog, Column, Table};
use pgq_base::{Name, NoMemory};
use sql_algebra::{ColumnLeaf, FromItem};
use std::alloc::Global;

/// A FROM item in reach, and which row of the stack is its row.
#[derive(Clone, Copy)]
pub struct Reached<'q> {
    pub item: &'q FromItem,
    pub place: usize,
}

/// The place of the first table of that name; how many there are where none is.
pub fn place_of_table(tables: &[Table], name: &Name) -> usize
    ensures { result ≡ place_of name.now (map (λ t. t.name) tables.now) }
{
    for (place, table) in tables.iter().enumerate() {
        if table.name.as_bytes() == name.as_bytes() {
            return place;
        }
    }
    tables.len()
}

fn table_of_name<'a>(tables: &'a [Table], name: &Name) -> Option<&'a Table>
    ensures { option_copied result ≡ find (λ t. bytes_eq t.name name.now) tables.now }
{
    for table in tables {
        if table.name.as_bytes() == name.as_bytes() {
            return Some(table);
        }
    }
    None
}

fn column_place_in(columns: &[Column], name: &Name) -> usize
    ensures { result ≡ place_of name.now (map (λ c. c.name) columns.now) }
{
    for (place, column) in columns.iter().enumerate() {
        if column.name.as_bytes() == name.as_bytes() {
            return place;
        }
    }
    columns.len()
}

fn place_of_column(catalog: &Catalog, table: &Name, column: &Name) -> usize
    ensures { result ≡ column_place catalog.now table.now column.now }
{
    match table_of_name(catalog.tables.as_slice(), table) {
        Some(table) => column_place_in(table.columns.as_slice(), column),
        None => 0,
    }
}

/// The slot of a leaf: the first item in reach that has its alias counts.
pub fn slot_of(catalog: &Catalog, reach: &[Reached<'_>], leaf: &ColumnLeaf) -> Option<Slot>
    ensures { result ≡ slot_in_reach catalog.now (placed reach.now) leaf.now }
{
    for reached in reach {
        if reached.item.alias.as_bytes() == leaf.alias.as_bytes() {
            return Some(Slot {
                item: reached.place,
                column: place_of_column(catalog, &reached.item.table, &leaf.column),
                class: leaf.class,
            });
        }
    }
    None
}

fn leaf_expr(catalog: &Catalog, reach: &[Reached<'_>], leaf: &ColumnLeaf) -> Expr<Slot>
    ensures { result ≡ leaf_expr_of catalog.now (placed reach.now) leaf.now }
{
    match slot_of(catalog, reach, leaf) {
        Some(slot) => Expr::Leaf(slot),
        None => Expr::Null(leaf.class),
    }
}

/// The expression with a slot in place of each leaf.
pub fn resolve(
    alloc: Global,
    catalog: &Catalog,
    reach: &[Reached<'_>],
    expr: &Expr<ColumnLeaf>,
) -> Result<Expr<Slot>, NoMemory>
    ensures { IfOk result (λ e. e ≡ mapped (leaf_expr_of catalog.now (placed reach.now)) expr.now) }
{
    map_leaves(
        alloc,
        expr,
        |leaf: &ColumnLeaf| -> Result<Expr<Slot>, NoMemory>
            ensures { result ≡ Ok (leaf_expr_of catalog.entry.now (placed reach.entry.now) leaf.entry.now) }
        { Ok(leaf_expr(catalog, reach, leaf)) },
    )
}

/// The condition with a slot in place of each leaf.
pub fn resolve_condition(
    alloc: Global,
    catalog: &Catalog,
    reach: &[Reached<'_>],
    expr: &Expr<ColumnLeaf>,
) -> Result<Condition, NoMemory>
    requires well_classed { IsWellClassed leaf_class expr.now }
    requires truth { class_in leaf_class expr.now ≡ TruthClass }
    ensures { IfOk result (λ c. c.expr ≡ mapped (leaf_expr_of catalog.now (placed reach.now)) expr.now) }
{
    let expr = resolve(alloc, catalog, reach, expr)?;
    Ok(Condition { expr })
}

/// The expression of a column with a slot in place of each leaf.
pub fn resolve_output(
    alloc: Global,
    catalog: &Catalog,
    reach: &[Reached<'_>],
    expr: &Expr<ColumnLeaf>,
) -> Result<Output, NoMemory>
    requires { IsWellClassed leaf_class expr.now }
    ensures { IfOk result (λ o. o.expr ≡ mapped (leaf_expr_of catalog.now (placed reach.now)) expr.now) }
{
    let expr = resolve(alloc, catalog, reach, expr)?;
    Ok(Output { expr })
}
