ghost use Rattle.std.specs.Prelude.{◌≡◌, ◌++◌, ◌&&◌, [], take, drop, find, option_map, bytes_eq, map, is_some};
ghost use Rattle.std.specs.List.{list_all};
ghost use Rattle.pgq_base.specs.declared.value.Class.TheVariants.{Truth as TruthClass};
ghost use Rattle.expr_tree.specs.Leaves.{leaves_in, joined};
ghost use Rattle.expr_tree.specs.Classes.{same_class, well_classed, class_in};
ghost use Rattle.sql_algebra.specs.Catalogs.{table_named, column_named};
ghost use Rattle.sql_algebra.specs.Reaches.{reach_of};
ghost use Rattle.sql_algebra.specs.Soundness.{has_class, has_column, item_has, leaf_is_sound, leaf_class, value_is_sound, condition_is_sound, is_in, differ_from, same_classes, classes_of, ons_are_sound, select_is_sound, conjunct_step, select_step, selects_agree, query_is_sound};
ghost use Rattle.sql_algebra.specs.Reaches.{conjunct_is_sound};
ghost use Rattle.sql_algebra.specs.declared.tree.Select.{fold-Select};

use crate::tree::{ColumnLeaf, Conjunct, FromItem, Select, SelectColumn, SqlQuery};
use expr_tree::{Expr, class_of, is_well_classed};
use graph_ast::{Catalog, Column, Table};
use pgq_base::{Class, Name};

/// The items in reach: those of a select, and those of the select around it.
#[derive(Drop)]
pub struct Reach<'a> {
    pub own: &'a [FromItem],
    pub outer: Option<&'a Reach<'a>>,
}

fn same_name(a: &Name, b: &Name) -> bool
    ensures { result ≡ bytes_eq a.now b.now }
{
    a.as_bytes() == b.as_bytes()
}

fn same_class(a: Class, b: Class) -> bool
    ensures { result ≡ same_class a b }
{
    a == b
}

fn item_among<'a>(items: &'a [FromItem], alias: &Name) -> Option<&'a FromItem>
    ensures { option_map (λ item. item.now) result ≡ find (λ item. bytes_eq item.alias alias.now) items.now }
{
    for item in items {
        if same_name(&item.alias, alias) {
            return Some(item);
        }
    }
    None
}

// The item of an alias: the first one of the innermost select that has one.
fn item_in<'a>(reach: &'a Reach<'a>, alias: &Name) -> Option<&'a FromItem>
    ensures { option_map (λ item. item.now) result ≡ find (λ item. bytes_eq item.alias alias.now) (reach_of reach.now) }
{
    match item_among(reach.own, alias) {
        Some(item) => Some(item),
        None => match reach.outer {
            Some(outer) => item_in(outer, alias),
            None => None,
        },
    }
}

fn table_among<'a>(tables: &'a [Table], name: &Name) -> Option<&'a Table>
    ensures { option_map (λ t. t.now) result ≡ find (λ t. bytes_eq t.name name.now) tables.now }
{
    for table in tables {
        if same_name(&table.name, name) {
            return Some(table);
        }
    }
    None
}

fn column_among<'a>(columns: &'a [Column], name: &Name) -> Option<&'a Column>
    ensures { option_map (λ c. c.now) result ≡ find (λ c. bytes_eq c.name name.now) columns.now }
{
    for column in columns {
        if same_name(&column.name, name) {
            return Some(column);
        }
    }
    None
}

fn table_has(table: &Table, leaf: &ColumnLeaf) -> bool
    ensures { result ≡ has_class leaf.now.class (column_named table.now leaf.now.column) }
{
    match column_among(table.columns.as_slice(), &leaf.column) {
        Some(column) => same_class(leaf.class, column.kind.class()),
        None => false,
    }
}

fn item_has(catalog: &Catalog, item: &FromItem, leaf: &ColumnLeaf) -> bool
    ensures { result ≡ has_column leaf.now (table_named catalog.now item.now.table) }
{
    match table_among(catalog.tables.as_slice(), &item.table) {
        Some(table) => table_has(table, leaf),
        None => false,
    }
}

fn leaf_is_sound(catalog: &Catalog, reach: &Reach<'_>, leaf: &ColumnLeaf) -> bool
    ensures { result ≡ leaf_is_sound catalog.now (reach_of reach.now) leaf.now }
{
    match item_in(reach, &leaf.alias) {
        Some(item) => item_has(catalog, item, leaf),
        None => false,
    }
}

// Whether each leaf of the expression is sound.
#[cycle(leaves)]
#[tactic(auto, using(crate::proofs::ReachLemmas::all_append))]
fn leaves_are_sound(value: &Expr<ColumnLeaf>, catalog: &Catalog, reach: &Reach<'_>) -> bool
    ensures { result ≡ list_all (leaf_is_sound catalog.now (reach_of reach.now)) (leaves_in value.now) }
{
    match value {
        Expr::Lit(_) => true,
        Expr::Null(_) => true,
        Expr::Leaf(leaf) => leaf_is_sound(catalog, reach, leaf),
        Expr::Compare(_, a, b) => {
            leaves_are_sound(a.get(), catalog, reach) && leaves_are_sound(b.get(), catalog, reach)
        }
        Expr::All(list) => lists_are_sound(list.as_slice(), catalog, reach),
        Expr::Any(list) => lists_are_sound(list.as_slice(), catalog, reach),
        Expr::Not(a) => leaves_are_sound(a.get(), catalog, reach),
        Expr::Is(a, _, _) => leaves_are_sound(a.get(), catalog, reach),
        Expr::InList(a, list, _) => {
            leaves_are_sound(a.get(), catalog, reach)
                && lists_are_sound(list.as_slice(), catalog, reach)
        }
        Expr::Between(a, b, c, _) => {
            leaves_are_sound(a.get(), catalog, reach)
                && leaves_are_sound(b.get(), catalog, reach)
                && leaves_are_sound(c.get(), catalog, reach)
        }
        Expr::Coalesce(list) => lists_are_sound(list.as_slice(), catalog, reach),
    }
}

#[cycle(leaves)]
#[tactic(auto, using(crate::proofs::ReachLemmas::all_append))]
fn lists_are_sound(list: &[Expr<ColumnLeaf>], catalog: &Catalog, reach: &Reach<'_>) -> bool
    ensures { result ≡ list_all (leaf_is_sound catalog.now (reach_of reach.now)) (joined (map leaves_in list.now)) }
{
    for value in list {
        if !leaves_are_sound(value, catalog, reach) {
            return false;
        }
    }
    true
}

fn is_classed(value: &Expr<ColumnLeaf>) -> bool
    ensures { result ≡ well_classed leaf_class value.now }
{
    is_well_classed(value)
}

/// Whether the expression is sound within reach.
pub fn value_is_sound(value: &Expr<ColumnLeaf>, catalog: &Catalog, reach: &Reach<'_>) -> bool
    ensures { result ≡ value_is_sound catalog.now (reach_of reach.now) value.now }
{
    leaves_are_sound(value, catalog, reach) && is_classed(value)
}

/// Whether the condition is sound within reach.
pub fn condition_is_sound(
    condition: &Expr<ColumnLeaf>,
    catalog: &Catalog,
    reach: &Reach<'_>,
) -> bool
    ensures { result ≡ condition_is_sound catalog.now (reach_of reach.now) condition.now }
{
    value_is_sound(condition, catalog, reach) && same_class(Class::Truth, class_of(condition))
}

fn is_table(catalog: &Catalog, name: &Name) -> bool
    ensures { result ≡ is_some (table_named catalog.now name.now) }
{
    match table_among(catalog.tables.as_slice(), name) {
        Some(_) => true,
        None => false,
    }
}

fn tables_are_known(items: &[FromItem], catalog: &Catalog) -> bool
    ensures { result ≡ list_all (λ item. is_some (table_named catalog.now item.table)) items.now }
{
    for item in items {
        if !is_table(catalog, &item.table) {
            return false;
        }
    }
    true
}

fn columns_are_sound(columns: &[SelectColumn], catalog: &Catalog, reach: &Reach<'_>) -> bool
    ensures { result ≡ list_all (λ column. value_is_sound catalog.now (reach_of reach.now) column.value) columns.now }
{
    for column in columns {
        if !value_is_sound(&column.value, catalog, reach) {
            return false;
        }
    }
    true
}

fn members_are_sound(members: &[Expr<ColumnLeaf>], catalog: &Catalog, reach: &Reach<'_>) -> bool
    ensures { result ≡ list_all (condition_is_sound catalog.now (reach_of reach.now)) members.now }
{
    for member in members {
        if !condition_is_sound(member, catalog, reach) {
            return false;
        }
    }
    true
}

fn is_column(columns: &[SelectColumn], name: &Name) -> bool
    ensures { result ≡ is_in name.now (map (λ column. column.name) columns.now) }
{
    for column in columns {
        if same_name(&column.name, name) {
            return true;
        }
    }
    false
}

fn columns_differ(columns: &[SelectColumn]) -> bool
    ensures { result ≡ differ_from [] (map (λ column. column.name) columns.now) }
{
    let mut rest = columns;
    while let Some((column, others)) = rest.split_first() {
        if is_column(others, &column.name) {
            return false;
        }
        rest = others;
    }
    true
}

fn same_classes(first: &[SelectColumn], later: &[SelectColumn]) -> bool
    ensures { result ≡ same_classes (classes_of first.now) (classes_of later.now) }
{
    let mut a = first;
    let mut b = later;
    loop {
        let Some((x, xs)) = a.split_first() else {
            return b.is_empty();
        };
        let Some((y, ys)) = b.split_first() else {
            return false;
        };
        if !same_class(class_of(&x.value), class_of(&y.value)) {
            return false;
        }
        a = xs;
        b = ys;
    }
}

fn is_alias(items: &[FromItem], name: &Name) -> bool
    ensures { result ≡ is_in name.now (map (λ item. item.alias) items.now) }
{
    for item in items {
        if same_name(&item.alias, name) {
            return true;
        }
    }
    false
}

fn is_reached(reach: &Reach<'_>, name: &Name) -> bool
    ensures { result ≡ is_in name.now (map (λ item. item.alias) (reach_of reach.now)) }
{
    match item_in(reach, name) {
        Some(_) => true,
        None => false,
    }
}

fn aliases_differ(items: &[FromItem], outer: &Reach<'_>) -> bool
    ensures { result ≡ differ_from (map (λ item. item.alias) (reach_of outer.now)) (map (λ item. item.alias) items.now) }
{
    let mut rest = items;
    while let Some((item, others)) = rest.split_first() {
        if is_reached(outer, &item.alias) {
            return false;
        }
        if is_alias(others, &item.alias) {
            return false;
        }
        rest = others;
    }
    true
}

// Whether the members of an ON are sound, where its chain and the outer items are in reach.
fn on_is_sound(
    members: &[Expr<ColumnLeaf>],
    chain: &[FromItem],
    catalog: &Catalog,
    outer: &Reach<'_>,
) -> bool
    ensures { result ≡ list_all (condition_is_sound catalog.now (chain.now ++ reach_of outer.now)) members.now }
{
    let reach = Reach {
        own: chain,
        outer: Some(outer),
    };
    members_are_sound(members, catalog, &reach)
}

fn ons_are_sound(items: &[FromItem], catalog: &Catalog, outer: &Reach<'_>) -> bool
    ensures { result ≡ ons_are_sound catalog.now (reach_of outer.now) [] items.now }
{
    let mut start = items;
    let mut count = 0;
    while count < start.len() {
        match &start[count].on {
            None => {
                start = &start[count..];
                count = 1;
                continue;
            }
            Some(members) => {
                count += 1;
                if !on_is_sound(members.as_slice(), &start[..count], catalog, outer) {
                    return false;
                }
            }
        }
    }
    true
}

#[cycle(selects)]
fn select_is_sound(select: &Select, catalog: &Catalog, outer: &Reach<'_>) -> bool
    ensures { result ≡ select_is_sound catalog.now select.now (reach_of outer.now) }
{
    let items = select.from.as_slice();
    let columns = select.columns.as_slice();
    let reach = Reach {
        own: items,
        outer: Some(outer),
    };
    tables_are_known(items, catalog)
        && aliases_differ(items, outer)
        && columns_differ(columns)
        && columns_are_sound(columns, catalog, &reach)
        && ons_are_sound(items, catalog, outer)
        && conjuncts_are_sound(select.conjuncts.as_slice(), catalog, &reach)
}

#[cycle(selects)]
fn conjunct_is_sound(conjunct: &Conjunct, catalog: &Catalog, reach: &Reach<'_>) -> bool
    ensures { result ≡ conjunct_is_sound catalog.now conjunct.now (reach_of reach.now) }
{
    match conjunct {
        Conjunct::Plain(condition) => condition_is_sound(condition, catalog, reach),
        Conjunct::NotExists(select) => select_is_sound(select.get(), catalog, reach),
    }
}

#[cycle(selects)]
fn conjuncts_are_sound(conjuncts: &[Conjunct], catalog: &Catalog, reach: &Reach<'_>) -> bool
    ensures { result ≡ list_all (λ conjunct. conjunct (reach_of reach.now)) (map (conjunct_is_sound catalog.now) conjuncts.now) }
{
    for conjunct in conjuncts {
        if !conjunct_is_sound(conjunct, catalog, reach) {
            return false;
        }
    }
    true
}

fn later_agree(first: &Select, later: &[Select]) -> bool
    ensures { result ≡ list_all (λ select. same_classes (classes_of first.now.columns) (classes_of select.columns)) later.now }
{
    for select in later {
        if !same_classes(first.columns.as_slice(), select.columns.as_slice()) {
            return false;
        }
    }
    true
}

fn selects_agree(selects: &[Select]) -> bool
    ensures { result ≡ selects_agree selects.now }
{
    match selects.split_first() {
        Some((first, later)) => later_agree(first, later),
        None => true,
    }
}

fn selects_are_sound(selects: &[Select], catalog: &Catalog) -> bool
    ensures { result ≡ list_all (λ select. select_is_sound catalog.now select []) selects.now }
{
    let outer = Reach {
        own: &[],
        outer: None,
    };
    for select in selects {
        if !select_is_sound(select, catalog, &outer) {
            return false;
        }
    }
    true
}

/// Whether the query is sound in the catalog: its names are known and its operands have the classes that SQL asks for.
pub fn sound(query: &SqlQuery, catalog: &Catalog) -> bool
    ensures { result ≡ query_is_sound catalog.now query.now }
{
    let selects = query.selects.as_slice();
    selects_are_sound(selects, catalog) && selects_agree(selects)
}
