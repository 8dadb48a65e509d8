ghost use Rattle.std.specs.Prelude.{◌≡◌, ◌&&◌, ◌++◌, OnOk, IfOk, length, true};
ghost use Rattle.expr_tree.specs.declared.tree.Expr.{out-Expr};
ghost use Rattle.pgq_base.specs.Instances.{RowValues};
ghost use Rattle.row_eval.specs.Slots.{Stack};
ghost use Rattle.row_eval.specs.Access.{matches_row, ties_agree, ways_agree, some_agree};
ghost use Rattle.row_eval.specs.Ties.{slot_at, both_slots, slots_of, tied_sides, are_tied, pair_holds, tie_holds, ties_hold, untied, own_of, side_of, equalities_hold};

use crate::access::{Access, Key, Own, Pair, Tied};
use crate::frame::{Condition, Slot};
use expr_tree::{Comparison, Expr};
use pgq_base::{List, NoMemory};
use std::alloc::Global;

/// What ties a row: columns that equal those of rows before it, and columns of it that are equal.
#[derive(Debug, Drop)]
pub struct Equalities {
    pub tied: List<Tied>,
    pub pairs: List<Pair>,
}

/// Whose column a slot is: of the row at a place, of a row before it or of one behind it.
#[derive(Clone, Copy, Debug, PartialEq, Eq)]
pub enum Side {
    Own,
    Earlier,
    Later,
}

pub fn side_at(slot: Slot, place: usize) -> Side
    ensures { result ≡ side_of place slot }
{
    if slot.item == place {
        Side::Own
    } else if slot.item < place {
        Side::Earlier
    } else {
        Side::Later
    }
}

fn slot_alone(expr: &Expr<Slot>) -> Option<Slot>
    ensures { result ≡ slot_at (out-Expr Slot expr.now) }
{
    match expr {
        Expr::Leaf(slot) => Some(*slot),
        _ => None,
    }
}

/// The columns that a condition says are equal.
pub fn equal_slots(condition: &Expr<Slot>) -> Option<(Slot, Slot)>
    ensures { result ≡ slots_of condition.now }
{
    match condition {
        Expr::Compare(Comparison::Equal, a, b) => both(slot_alone(a.get()), slot_alone(b.get())),
        _ => None,
    }
}

fn both(a: Option<Slot>, b: Option<Slot>) -> Option<(Slot, Slot)>
    ensures { result ≡ both_slots true a b }
{
    match (a, b) {
        (Some(a), Some(b)) => Some((a, b)),
        _ => None,
    }
}

pub fn own(slot: Slot) -> Own
    ensures { result ≡ own_of slot }
{
    Own {
        column: slot.column,
        class: slot.class,
    }
}

fn are_sides_tied(a: Side, b: Side) -> bool
    ensures { result ≡ tied_sides a b }
{
    match (a, b) {
        (Side::Own, Side::Own) => true,
        (Side::Own, Side::Earlier) => true,
        (Side::Earlier, Side::Own) => true,
        _ => false,
    }
}

// Whether a condition ties the row at a place.
fn is_tie(condition: &Expr<Slot>, place: usize) -> bool
    ensures { result ≡ are_tied place (slots_of condition.now) }
{
    match equal_slots(condition) {
        Some((a, b)) => are_sides_tied(side_at(a, place), side_at(b, place)),
        None => false,
    }
}

/// The tests that tie nothing of the row at a place. The others hold of each row that an access by them gives.
pub fn untied_tests(
    alloc: Global,
    place: usize,
    tests: List<Condition>,
) -> Result<List<Condition>, NoMemory>
    ensures { IfOk result (λ left. left ≡ untied place tests) }
{
    let mut left = List::new(alloc);
    for test in tests.into_vec() {
        if !is_tie(&test.expr, place) {
            left.push(test)?;
        }
    }
    Ok(left)
}

// Ties the row at a place by a condition, if it is an equality of two columns.
fn tie(condition: &Expr<Slot>, place: usize, made: &mut Equalities) -> Result<(), NoMemory>
    ensures { OnOk result ((s : Stack) (row : RowValues) → length s ≡ place
        → equalities_hold made.new s row ≡ (equalities_hold made.old s row && tie_holds place s row condition.now)) }
{
    match equal_slots(condition) {
        None => Ok(()),
        Some((a, b)) => tie_pair(a, b, place, made),
    }
}

fn tie_pair(a: Slot, b: Slot, place: usize, made: &mut Equalities) -> Result<(), NoMemory>
    ensures { OnOk result ((s : Stack) (row : RowValues) → length s ≡ place
        → equalities_hold made.new s row ≡ (equalities_hold made.old s row && pair_holds place s row a b)) }
{
    match (side_at(a, place), side_at(b, place)) {
        (Side::Own, Side::Own) => made.pairs.push(Pair {
            left: own(a),
            right: own(b),
        }),
        (Side::Own, Side::Earlier) => made.tied.push(Tied {
            own: own(a),
            other: b,
        }),
        (Side::Earlier, Side::Own) => made.tied.push(Tied {
            own: own(b),
            other: a,
        }),
        _ => Ok(()),
    }
}

// What the tests tie of the row at a place.
fn equalities_of(alloc: Global, place: usize, tests: &[Condition]) -> Result<Equalities, NoMemory>
    ensures { IfOk result (λ e. (s : Stack) (row : RowValues) → length s ≡ place → equalities_hold e s row ≡ ties_hold place s row tests.now) }
{
    let mut made = Equalities {
        tied: List::new(alloc),
        pairs: List::new(alloc),
    };
    for test in tests {
        tie(&test.expr, place, &mut made)?;
    }
    Ok(made)
}

fn joined_key(alloc: Global, tied: &[Tied], more: &[Tied]) -> Result<Key, NoMemory>
    ensures { IfOk result (λ k. k.tied ≡ tied.now ++ more.now) }
{
    let mut all = List::new(alloc);
    all.extend(tied)?;
    all.extend(more)?;
    Ok(Key { tied: all })
}

// A key of each way, each with the ties that hold by every way.
fn joined_keys(alloc: Global, tied: &[Tied], ways: &[Key]) -> Result<List<Key>, NoMemory>
    ensures { IfOk result (λ keys. (s : Stack) (row : RowValues) → some_agree s row keys ≡ (ties_agree s row tied.now && some_agree s row ways.now)) }
{
    let mut keys = List::new(alloc);
    for way in ways {
        keys.push(joined_key(alloc, tied, way.tied.as_slice())?)?;
    }
    Ok(keys)
}

fn keys_of(alloc: Global, tied: List<Tied>, ways: &[Key]) -> Result<List<Key>, NoMemory>
    ensures { IfOk result (λ keys. (s : Stack) (row : RowValues) → some_agree s row keys ≡ (ties_agree s row tied && ways_agree s row ways.now)) }
{
    if ways.is_empty() {
        let mut keys = List::new(alloc);
        keys.push(Key { tied })?;
        return Ok(keys);
    }
    joined_keys(alloc, tied.as_slice(), ways)
}

/// The access to a table's rows at a place that the tests tie, each row by one of the ways where there are some.
pub fn access_of(
    alloc: Global,
    table: u32,
    index: usize,
    place: usize,
    tests: &[Condition],
    ways: &[Key],
) -> Result<Access, NoMemory>
    ensures table { IfOk result (λ a. a.table ≡ table) }
    ensures index { IfOk result (λ a. a.index ≡ index) }
    ensures matches { IfOk result (λ a. (s : Stack) (row : RowValues) → length s ≡ place
        → matches_row a s row ≡ (ties_hold place s row tests.now && ways_agree s row ways.now)) }
{
    let Equalities { tied, pairs } = equalities_of(alloc, place, tests)?;
    let keys = keys_of(alloc, tied, ways)?;
    Ok(Access {
        table,
        index,
        keys,
        pairs,
    })
}
