ghost use Rattle.std.specs.Prelude.{◌≡◌, ◌≤◌, ◌<◌, ◌++◌, ◌&&◌, [], length, map, IfOk};
ghost use Rattle.sql_algebra.specs.declared.tree.Conjunct.TheVariants.{Plain};
ghost use Rattle.std.specs.List.{list_all};
ghost use Rattle.pgq_base.specs.Instances.{InstanceRows};
ghost use Rattle.graph_ast.specs.declared.catalog.Catalog.{Catalog};
ghost use Rattle.sql_algebra.specs.Tuples.{Tuple, holds, all_members};
ghost use Rattle.sql_algebra.specs.Meaning.{conjunct_holds};
ghost use Rattle.graph_meaning.specs.Choices.{greatest};
ghost use Rattle.path_lowering.specs.Placed.{item_of as item_in, latest_in, aliases_of, put_into, opened, or_true as or_true_of, slots_from, slots_where, from_of, where_of};

use crate::columns::list_of;
use expr_tree::Expr;
use pgq_base::{List, Name, NoMemory, Value};
use sql_algebra::{ColumnLeaf, Conjunct, FromItem};
use std::alloc::Global;

/// A table and the alias under which it stands.
#[derive(Debug, Drop)]
pub struct Source {
    pub table: Name,
    pub alias: Name,
}

/// A FROM and the conjuncts of its WHERE.
#[derive(Debug, Drop)]
pub struct JoinedItems {
    pub from: List<FromItem>,
    pub conjuncts: List<Conjunct>,
}

/// An item of a FROM and the conditions that stand by it.
#[derive(Debug, Drop)]
pub struct Slot {
    pub source: Source,
    pub members: List<Expr<ColumnLeaf>>,
}

/// A chain of the sources in which each condition stands in the ON of the first item by which all its leaves stand,
/// or in WHERE where that is the first item.
pub fn joined(
    alloc: Global,
    sources: Vec<Source>,
    conditions: Vec<Expr<ColumnLeaf>>,
) -> Result<JoinedItems, NoMemory>
    requires { 1 ≤ length sources.items }
    ensures from { IfOk result (λ made. made.from ≡ from_of sources.items conditions.items) }
    ensures conjuncts { IfOk result (λ made. made.conjuncts ≡ where_of sources.items conditions.items) }
    ensures means { IfOk result (λ made. (catalog : Catalog) (instance : InstanceRows) (tuple : Tuple)
        → (list_all (holds catalog tuple) (all_members made.from) && list_all (λ conjunct. conjunct_holds catalog instance conjunct tuple) made.conjuncts)
        ≡ list_all (holds catalog tuple) conditions.items) }
{
    let slots = filled(open_slots(alloc, sources)?, conditions)?;
    chained(alloc, slots)
}

fn open_slots(alloc: Global, sources: Vec<Source>) -> Result<Vec<Slot>, NoMemory>
    ensures { IfOk result (λ slots. slots.items ≡ map opened sources.items) }
{
    let mut slots = Vec::new(alloc);
    for source in sources {
        let members = List::new(alloc);
        slots.push(Slot { source, members })?;
    }
    Ok(slots)
}

fn filled(slots: Vec<Slot>, conditions: Vec<Expr<ColumnLeaf>>) -> Result<Vec<Slot>, NoMemory>
    requires { 1 ≤ length slots.items }
    ensures { IfOk result (λ filled. filled.items ≡ put_into (aliases_of slots.items) conditions.items 0 slots.items) }
{
    let mut slots = slots;
    for condition in conditions {
        let number = latest_of(slots.as_slice(), &condition);
        slots[number].members.push(condition)?;
    }
    Ok(slots)
}

fn chained(alloc: Global, slots: Vec<Slot>) -> Result<JoinedItems, NoMemory>
    ensures from { IfOk result (λ made. made.from ≡ slots_from slots.items) }
    ensures conjuncts { IfOk result (λ made. made.conjuncts ≡ slots_where slots.items) }
{
    let mut from = List::new(alloc);
    let mut conjuncts = List::new(alloc);
    for slot in slots {
        let Slot {
            source: Source { table, alias },
            members,
        } = slot;
        if from.as_slice().is_empty() {
            conjuncts = plain(alloc, members)?;
            from.push(FromItem {
                table,
                alias,
                on: None,
            })?;
        } else {
            let on = Some(or_true(alloc, members)?);
            from.push(FromItem { table, alias, on })?;
        }
    }
    Ok(JoinedItems { from, conjuncts })
}

fn plain(alloc: Global, members: List<Expr<ColumnLeaf>>) -> Result<List<Conjunct>, NoMemory>
    ensures { IfOk result (λ made. made ≡ map Plain members) }
{
    let mut made = List::new(alloc);
    for member in members.into_vec() {
        made.push(Conjunct::Plain(member))?;
    }
    Ok(made)
}

fn or_true(
    alloc: Global,
    members: List<Expr<ColumnLeaf>>,
) -> Result<List<Expr<ColumnLeaf>>, NoMemory>
    ensures { IfOk result (λ made. made ≡ or_true_of members) }
{
    let mut members = members;
    if members.as_slice().is_empty() {
        members.push(Expr::Lit(Value::Truth(true)))?;
    }
    Ok(members)
}

/// The number of the first item by which all leaves of the condition stand.
#[cycle(latest)]
fn latest_of(slots: &[Slot], condition: &Expr<ColumnLeaf>) -> usize
    ensures { result ≡ latest_in (aliases_of slots.now) condition.now }
{
    match condition {
        Expr::Lit(_) => 0,
        Expr::Null(_) => 0,
        Expr::Leaf(leaf) => item_of(slots, leaf),
        Expr::Compare(_, a, b) => latest_of(slots, a.get()).max(latest_of(slots, b.get())),
        Expr::All(list) => latest_of_all(slots, list.as_slice()),
        Expr::Any(list) => latest_of_all(slots, list.as_slice()),
        Expr::Not(a) => latest_of(slots, a.get()),
        Expr::Is(a, _, _) => latest_of(slots, a.get()),
        Expr::InList(a, list, _) => {
            latest_of(slots, a.get()).max(latest_of_all(slots, list.as_slice()))
        }
        Expr::Between(a, b, c, _) => latest_of(slots, a.get()).max(latest_of(slots, b.get()).max(
            latest_of(slots, c.get()),
        )),
        Expr::Coalesce(list) => latest_of_all(slots, list.as_slice()),
    }
}

#[cycle(latest)]
fn latest_of_all(slots: &[Slot], list: &[Expr<ColumnLeaf>]) -> usize
    ensures { result ≡ greatest (map (latest_in (aliases_of slots.now)) list.now) }
{
    let mut latest = 0;
    for condition in list {
        latest = latest.max(latest_of(slots, condition));
    }
    latest
}

/// The number of the item of a leaf's alias; a leaf of a select around this one asks for no item.
fn item_of(slots: &[Slot], leaf: &ColumnLeaf) -> usize
    ensures { result ≡ item_in (aliases_of slots.now) leaf.now }
{
    for (i, slot) in slots.iter().enumerate() {
        if slot.source.alias.as_bytes() == leaf.alias.as_bytes() {
            return i;
        }
    }
    0
}
