ghost use Rattle.std.specs.Prelude.{◌≡◌, IfOk};
ghost use Rattle.expr_tree.specs.declared.tree.Expr.TheVariants.{Leaf};
ghost use Rattle.shortest_lowering.specs.NoShorter.{ArePlain};

use expr_tree::{Expr, map_leaves};
use pgq_base::{List, NoMemory};
use sql_algebra::{ColumnLeaf, Conjunct, FromItem, Select, SelectColumn};
use std::alloc::Global;

pub(crate) fn copy_leaf(alloc: Global, leaf: &ColumnLeaf) -> Result<ColumnLeaf, NoMemory>
    ensures { IfOk result (λ copy. copy ≡ leaf.now) }
{
    Ok(ColumnLeaf {
        alias: leaf.alias.copy(alloc)?,
        column: leaf.column.copy(alloc)?,
        class: leaf.class,
    })
}

fn copy_value(alloc: Global, value: &Expr<ColumnLeaf>) -> Result<Expr<ColumnLeaf>, NoMemory>
    ensures { IfOk result (λ copy. copy ≡ value.now) }
{
    map_leaves(
        alloc,
        value,
        |leaf: &ColumnLeaf| -> Result<Expr<ColumnLeaf>, NoMemory>
            ensures { IfOk result (λ copy. copy ≡ Leaf leaf.now) }
        { Ok(Expr::Leaf(copy_leaf(alloc, leaf)?)) },
    )
}

fn copy_values(
    alloc: Global,
    values: &[Expr<ColumnLeaf>],
) -> Result<List<Expr<ColumnLeaf>>, NoMemory>
    ensures { IfOk result (λ all. all ≡ values.now) }
{
    let mut all = List::new(alloc);
    for value in values {
        all.push(copy_value(alloc, value)?)?;
    }
    Ok(all)
}

fn copy_column(alloc: Global, column: &SelectColumn) -> Result<SelectColumn, NoMemory>
    ensures { IfOk result (λ copy. copy ≡ column.now) }
{
    Ok(SelectColumn {
        value: copy_value(alloc, &column.value)?,
        name: column.name.copy(alloc)?,
    })
}

fn copy_columns(alloc: Global, columns: &[SelectColumn]) -> Result<List<SelectColumn>, NoMemory>
    ensures { IfOk result (λ all. all ≡ columns.now) }
{
    let mut all = List::new(alloc);
    for column in columns {
        all.push(copy_column(alloc, column)?)?;
    }
    Ok(all)
}

fn copy_members(
    alloc: Global,
    on: &Option<List<Expr<ColumnLeaf>>>,
) -> Result<Option<List<Expr<ColumnLeaf>>>, NoMemory>
    ensures { IfOk result (λ copy. copy ≡ on.now) }
{
    match on {
        None => Ok(None),
        Some(members) => Ok(Some(copy_values(alloc, members.as_slice())?)),
    }
}

fn copy_item(alloc: Global, item: &FromItem) -> Result<FromItem, NoMemory>
    ensures { IfOk result (λ copy. copy ≡ item.now) }
{
    Ok(FromItem {
        table: item.table.copy(alloc)?,
        alias: item.alias.copy(alloc)?,
        on: copy_members(alloc, &item.on)?,
    })
}

fn copy_items(alloc: Global, items: &[FromItem]) -> Result<List<FromItem>, NoMemory>
    ensures { IfOk result (λ all. all ≡ items.now) }
{
    let mut all = List::new(alloc);
    for item in items {
        all.push(copy_item(alloc, item)?)?;
    }
    Ok(all)
}

/// Conjuncts, none of which is NOT EXISTS.
fn copy_plain(alloc: Global, conjuncts: &[Conjunct]) -> Result<List<Conjunct>, NoMemory>
    requires { ArePlain conjuncts.now }
    ensures { IfOk result (λ all. all ≡ conjuncts.now) }
{
    let mut all = List::new(alloc);
    for conjunct in conjuncts {
        if let Conjunct::Plain(condition) = conjunct {
            all.push(Conjunct::Plain(copy_value(alloc, condition)?))?;
        }
    }
    Ok(all)
}

/// A SELECT without NOT EXISTS.
pub(crate) fn copy_select(alloc: Global, select: &Select) -> Result<Select, NoMemory>
    requires { ArePlain select.now.conjuncts }
    ensures { IfOk result (λ copy. copy ≡ select.now) }
{
    Ok(Select {
        columns: copy_columns(alloc, select.columns.as_slice())?,
        from: copy_items(alloc, select.from.as_slice())?,
        conjuncts: copy_plain(alloc, select.conjuncts.as_slice())?,
    })
}
