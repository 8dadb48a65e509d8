ghost use Rattle.std.specs.Prelude.{◌≡◌, IfOk, ◌++◌, [], map, option_map};
ghost use Rattle.expr_tree.specs.Mapping.{mapped};
ghost use Rattle.sql_reader.specs.Levels.{reach_of};
ghost use Rattle.sql_reader.specs.Queries.{leaf_made, value_made, column_made, item_made, items_made, conjunct_made, select_made, query_of};

use crate::phases::{chain_to, items_placed};
use crate::reach::{Items, Scope, alone};
use crate::tables::Tables;
use crate::types::leaf_class;
use condition_grammar::Spanned;
use expr_tree::{Expr, map_leaves};
use pgq_base::{List, NoMemory};
use sql_algebra::{
    ColumnLeaf, ColumnRef, ColumnText, Conjunct, ConjunctText, FromItem, ItemText, Select,
    SelectColumn, SelectText, SqlQuery, SqlText,
};
use sqlite_items::Boxed;
use std::alloc::Global;

// A leaf with the class that its column has in the catalog.
fn leaf_made(
    alloc: Global,
    scope: &Scope<'_, '_, '_>,
    leaf: &ColumnRef,
) -> Result<Expr<ColumnLeaf>, NoMemory>
    ensures { IfOk result (λ made. made ≡ leaf_made (reach_of scope.now) leaf.now) }
{
    let alias = leaf.alias.name.copy(alloc)?;
    let column = leaf.column.name.copy(alloc)?;
    Ok(Expr::Leaf(ColumnLeaf {
        alias,
        column,
        class: leaf_class(scope, leaf),
    }))
}

fn value_made(
    alloc: Global,
    scope: &Scope<'_, '_, '_>,
    value: &Spanned<ColumnRef>,
) -> Result<Expr<ColumnLeaf>, NoMemory>
    ensures { IfOk result (λ made. made ≡ value_made (reach_of scope.now) value.now) }
{
    map_leaves(alloc, &value.tree, |leaf| leaf_made(alloc, scope, leaf))
}

fn columns_made(
    alloc: Global,
    scope: &Scope<'_, '_, '_>,
    columns: &[ColumnText],
) -> Result<List<SelectColumn>, NoMemory>
    ensures { IfOk result (λ made. made ≡ map (column_made (reach_of scope.now)) columns.now) }
{
    let mut made = List::new(alloc);
    for column in columns {
        let value = value_made(alloc, scope, &column.value)?;
        let name = column.name.name.copy(alloc)?;
        made.push(SelectColumn { value, name })?;
    }
    Ok(made)
}

fn members_made(
    alloc: Global,
    scope: &Scope<'_, '_, '_>,
    members: &[Spanned<ColumnRef>],
) -> Result<List<Expr<ColumnLeaf>>, NoMemory>
    ensures { IfOk result (λ made. made ≡ map (value_made (reach_of scope.now)) members.now) }
{
    let mut made = List::new(alloc);
    for member in members {
        made.push(value_made(alloc, scope, member)?)?;
    }
    Ok(made)
}

fn on_made(
    alloc: Global,
    scope: &Scope<'_, '_, '_>,
    item: &ItemText,
) -> Result<Option<List<Expr<ColumnLeaf>>>, NoMemory>
    ensures { IfOk result (λ made. made ≡ option_map (map (value_made (reach_of scope.now))) item.now.on) }
{
    match &item.on {
        None => Ok(None),
        Some(members) => Ok(Some(members_made(alloc, scope, members.as_slice())?)),
    }
}

// An item, where its chain up to it is given.
fn item_made<'t, 'c>(
    alloc: Global,
    chain: &Items<'t, 'c>,
    outer: &Scope<'_, 't, 'c>,
    item: &ItemText,
) -> Result<FromItem, NoMemory>
    ensures { IfOk result (λ made. made ≡ item_made (chain.now ++ reach_of outer.now) item.now) }
{
    let scope = Scope {
        own: chain,
        outer: Some(outer),
    };
    let on = on_made(alloc, &scope, item)?;
    let table = item.table.name.copy(alloc)?;
    let alias = item.alias.name.copy(alloc)?;
    Ok(FromItem { table, alias, on })
}

fn items_made<'t, 'c>(
    alloc: Global,
    tables: &'t Tables<'c>,
    outer: &Scope<'_, 't, 'c>,
    items: &'t [ItemText],
) -> Result<List<FromItem>, NoMemory>
    ensures { IfOk result (λ made. made ≡ items_made tables.now (reach_of outer.now) [] items.now) }
{
    let mut made = List::new(alloc);
    let mut chain = Items::new(alloc);
    for item in items {
        chain = chain_to(alloc, tables, chain, item)?;
        let item = item_made(alloc, &chain, outer, item)?;
        made.push(item)?;
    }
    Ok(made)
}

#[cycle(selects)]
fn select_made<'t, 'c>(
    alloc: Global,
    select: &'t SelectText,
    tables: &'t Tables<'c>,
    outer: &Scope<'_, 't, 'c>,
) -> Result<Select, NoMemory>
    ensures { IfOk result (λ made. made ≡ select_made tables.now select.now (reach_of outer.now)) }
{
    let from = select.from.as_slice();
    let items = items_placed(alloc, tables, from)?;
    let scope = Scope {
        own: &items,
        outer: Some(outer),
    };
    let columns = columns_made(alloc, &scope, select.columns.as_slice())?;
    let from = items_made(alloc, tables, outer, from)?;
    let conjuncts = conjuncts_made(alloc, select.conjuncts.as_slice(), tables, &scope)?;
    Ok(Select {
        columns,
        from,
        conjuncts,
    })
}

#[cycle(selects)]
fn conjuncts_made<'t, 'c>(
    alloc: Global,
    conjuncts: &'t [ConjunctText],
    tables: &'t Tables<'c>,
    scope: &Scope<'_, 't, 'c>,
) -> Result<List<Conjunct>, NoMemory>
    ensures { IfOk result (λ made. made ≡ map (λ conjunct. conjunct (reach_of scope.now)) (map (conjunct_made tables.now) conjuncts.now)) }
{
    let mut made = List::new(alloc);
    for conjunct in conjuncts {
        let conjunct = conjunct_made(alloc, conjunct, tables, scope)?;
        made.push(conjunct)?;
    }
    Ok(made)
}

#[cycle(selects)]
fn conjunct_made<'t, 'c>(
    alloc: Global,
    conjunct: &'t ConjunctText,
    tables: &'t Tables<'c>,
    scope: &Scope<'_, 't, 'c>,
) -> Result<Conjunct, NoMemory>
    ensures { IfOk result (λ made. made ≡ conjunct_made tables.now conjunct.now (reach_of scope.now)) }
{
    match conjunct {
        ConjunctText::Plain(condition) => {
            Ok(Conjunct::Plain(value_made(alloc, scope, condition)?))
        }
        ConjunctText::NotExists(select) => {
            let select = select_made(alloc, select.get(), tables, scope)?;
            Ok(Conjunct::NotExists(Boxed::new(alloc, select)?))
        }
    }
}

fn selects_made<'t, 'c>(
    alloc: Global,
    selects: &'t [SelectText],
    tables: &'t Tables<'c>,
    outer: &Scope<'_, 't, 'c>,
) -> Result<List<Select>, NoMemory>
    ensures { IfOk result (λ made. made ≡ map (λ select. select_made tables.now select (reach_of outer.now)) selects.now) }
{
    let mut made = List::new(alloc);
    for select in selects {
        let select = select_made(alloc, select, tables, outer)?;
        made.push(select)?;
    }
    Ok(made)
}

/// The query that a text writes down.
pub(crate) fn query_of<'t, 'c>(
    alloc: Global,
    tables: &'t Tables<'c>,
    text: &'t SqlText,
) -> Result<SqlQuery, NoMemory>
    ensures { IfOk result (λ made. made ≡ query_of tables.now text.now) }
{
    let nothing = Items::new(alloc);
    let outer = alone(&nothing);
    let selects = selects_made(alloc, text.selects.as_slice(), tables, &outer)?;
    Ok(SqlQuery { selects })
}
