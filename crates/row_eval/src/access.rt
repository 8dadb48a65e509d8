ghost use Rattle.std.specs.Prelude.{◌≡◌};
ghost use Rattle.pgq_base.specs.Values.{owned};
ghost use Rattle.pgq_base.specs.declared.value.Value.TheVariants.{Text as TextValue};
ghost use Rattle.row_eval.specs.Slots.{lent_rows};
ghost use Rattle.row_eval.specs.Access.{column_value, agree, matches_row, ties_agree, some_agree, pairs_agree};

use crate::frame::{Slot, fitting, slot_in, value_in_row};
use pgq_base::{Class, List, Row, ValueRef, compare_sizes};
use std::cmp::Ordering;

/// A column of the row that is read.
#[derive(Clone, Copy, Debug, PartialEq, Eq)]
pub struct Own {
    pub column: usize,
    pub class: Class,
}

/// A column of the row that equals one of the rows before it.
#[derive(Clone, Copy, Debug, PartialEq, Eq)]
pub struct Tied {
    pub own: Own,
    pub other: Slot,
}

/// Two columns of the row that are equal.
#[derive(Clone, Copy, Debug, PartialEq, Eq)]
pub struct Pair {
    pub left: Own,
    pub right: Own,
}

/// Ties that hold together.
#[derive(Debug, Drop)]
pub struct Key {
    pub tied: List<Tied>,
}

/// Which rows of a table are read: those that agree with the rows before them by one of the keys. The index is found by
/// number, and has groups for each key.
#[derive(Debug, Drop)]
pub struct Access {
    pub table: u32,
    pub index: usize,
    pub keys: List<Key>,
    pub pairs: List<Pair>,
}

/// The value of a column of the row.
pub fn value_of_own(row: &Row, own: Own) -> ValueRef<'_>
    ensures { owned result ≡ column_value row.now.values own }
{
    fitting(own.class, value_in_row(row, own.column))
}

// Equality of texts compares their lengths first.
fn are_same(a: &str, b: &str) -> bool
    ensures { result ≡ agree (TextValue a.now) (TextValue b.now) }
{
    a == b
}

// Whether two values are known and equal.
fn agreeing(a: ValueRef<'_>, b: ValueRef<'_>) -> bool
    ensures { result ≡ agree (owned a.entry) (owned b.entry) }
{
    match (a, b) {
        (ValueRef::Truth(a), ValueRef::Truth(b)) => a.cmp(&b) == Ordering::Equal,
        (ValueRef::Number(a), ValueRef::Number(b)) => a.cmp(&b) == Ordering::Equal,
        (ValueRef::Number(a), ValueRef::Decimal(b)) => {
            compare_sizes(a, 0, b.unscaled, b.scale) == Ordering::Equal
        }
        (ValueRef::Decimal(a), ValueRef::Number(b)) => {
            compare_sizes(a.unscaled, a.scale, b, 0) == Ordering::Equal
        }
        (ValueRef::Decimal(a), ValueRef::Decimal(b)) => {
            compare_sizes(a.unscaled, a.scale, b.unscaled, b.scale) == Ordering::Equal
        }
        (ValueRef::Date(a), ValueRef::Date(b)) => a.day.cmp(&b.day) == Ordering::Equal,
        (ValueRef::Text(a), ValueRef::Text(b)) => are_same(a, b),
        _ => false,
    }
}

/// Whether the row agrees with the rows before it.
pub fn matches(access: &Access, row: &Row, stack: &[&Row]) -> bool
    ensures { result ≡ matches_row access.now (lent_rows stack.now) row.now.values }
{
    keys_match(access.keys.as_slice(), row, stack) && pairs_match(access.pairs.as_slice(), row)
}

fn keys_match(keys: &[Key], row: &Row, stack: &[&Row]) -> bool
    ensures { result ≡ some_agree (lent_rows stack.now) row.now.values keys.now }
{
    for key in keys {
        if ties_match(key.tied.as_slice(), row, stack) {
            return true;
        }
    }
    false
}

fn ties_match(tied: &[Tied], row: &Row, stack: &[&Row]) -> bool
    ensures { result ≡ ties_agree (lent_rows stack.now) row.now.values tied.now }
{
    for tie in tied {
        if !agreeing(value_of_own(row, tie.own), slot_in(stack, tie.other)) {
            return false;
        }
    }
    true
}

fn pairs_match(pairs: &[Pair], row: &Row) -> bool
    ensures { result ≡ pairs_agree row.now.values pairs.now }
{
    for pair in pairs {
        if !agreeing(value_of_own(row, pair.left), value_of_own(row, pair.right)) {
            return false;
        }
    }
    true
}
