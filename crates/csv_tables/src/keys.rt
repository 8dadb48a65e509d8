ghost use Rattle.std.specs.Prelude.{◌≡◌, ◌||◌, List as Sequence, refl, IfOk, OnOk, fold, slice_index_or};
ghost use Rattle.std.specs.Cmp.{partial_equiv_from_equiv};
ghost use Rattle.pgq_base.specs.declared.value.Value.{Value as Content};
ghost use Rattle.pgq_base.specs.Values.{owned, value_order};
ghost use Rattle.pgq_base.specs.Instances.{value_at};
ghost use Rattle.csv_tables.specs.Writing.{row_order};
ghost use Rattle.csv_tables.specs.KeyHashes.{key_alike, key_equal, key_equivalence, key_writes, values_in, writes};

use pgq_base::{Value, ValueRef, compare_sizes};
use std::cmp::Ordering;
use std::hash::{Hash, Hasher};

/// The values of a row in some columns, as they stand in a set. A place past the row's end holds Null.
#[derive(Clone, Copy, Debug)]
pub struct KeyOf<'a> {
    pub row: &'a [Value],
    pub columns: &'a [u32],
}

pub fn value_at(row: &[Value], place: u32) -> ValueRef<'_>
    ensures { owned result ≡ value_at row.now place }
{
    match row.get(place as usize) {
        Some(value) => value.as_ref(),
        None => ValueRef::Null,
    }
}

// The order of two values in a table text.
fn order_of(a: ValueRef<'_>, b: ValueRef<'_>) -> Ordering
    ensures { result ≡ value_order (owned a.entry) (owned b.entry) }
{
    match (a, b) {
        (ValueRef::Null, ValueRef::Null) => Ordering::Equal,
        (ValueRef::Null, _) => Ordering::Less,
        (_, ValueRef::Null) => Ordering::Greater,
        (ValueRef::Truth(a), ValueRef::Truth(b)) => a.cmp(&b),
        (ValueRef::Truth(_), _) => Ordering::Less,
        (_, ValueRef::Truth(_)) => Ordering::Greater,
        (ValueRef::Number(a), ValueRef::Number(b)) => a.cmp(&b),
        (ValueRef::Number(a), ValueRef::Decimal(b)) => compare_sizes(a, 0, b.unscaled, b.scale),
        (ValueRef::Decimal(a), ValueRef::Number(b)) => compare_sizes(a.unscaled, a.scale, b, 0),
        (ValueRef::Decimal(a), ValueRef::Decimal(b)) => {
            compare_sizes(a.unscaled, a.scale, b.unscaled, b.scale)
        }
        (ValueRef::Number(_) | ValueRef::Decimal(_), _) => Ordering::Less,
        (_, ValueRef::Number(_) | ValueRef::Decimal(_)) => Ordering::Greater,
        (ValueRef::Date(a), ValueRef::Date(b)) => a.day.cmp(&b.day),
        (ValueRef::Date(_), _) => Ordering::Less,
        (_, ValueRef::Date(_)) => Ordering::Greater,
        (ValueRef::Text(a), ValueRef::Text(b)) => a.as_bytes().cmp(b.as_bytes()),
    }
}

/// The order of two keys: value by value.
pub fn compare(a: &KeyOf<'_>, b: &KeyOf<'_>) -> Ordering
    ensures { result ≡ row_order (values_in a.now) (values_in b.now) }
{
    for i in 0..a.columns.len() {
        if i >= b.columns.len() {
            return Ordering::Greater;
        }
        let order = order_of(value_at(a.row, a.columns[i]), value_at(b.row, b.columns[i]));
        if order != Ordering::Equal {
            return order;
        }
    }
    if a.columns.len() < b.columns.len() {
        Ordering::Less
    } else {
        Ordering::Equal
    }
}

// Feeds a value to a hasher. Null feeds nothing.
fn feed<H: Hasher>(value: ValueRef<'_>, hasher: &mut H)
    ensures { hasher.new ≡ fold H.write hasher.old (writes (owned value.entry)) }
{
    match value {
        ValueRef::Null => {}
        ValueRef::Truth(truth) => truth.hash(hasher),
        ValueRef::Number(number) => number.hash(hasher),
        ValueRef::Decimal(decimal) => {
            decimal.unscaled.hash(hasher);
            decimal.scale.hash(hasher);
        }
        ValueRef::Date(date) => date.day.hash(hasher),
        ValueRef::Text(text) => hasher.write(text.as_bytes()),
    }
}

fn feed_values<H: Hasher>(key: &KeyOf<'_>, hasher: &mut H)
    ensures { hasher.new ≡ fold H.write hasher.old (key_writes key.now) }
{
    for place in key.columns {
        feed(value_at(key.row, *place), hasher);
    }
}

impl PartialEq for KeyOf<'_> {
    ghost eq = { key_equal };

    ghost laws = { partial_equiv_from_equiv key_equivalence };

    fn eq(&self, other: &KeyOf<'_>) -> bool {
        compare(self, other) == Ordering::Equal
    }
}

impl Eq for KeyOf<'_> {
    ghost laws = { key_equivalence };
}

impl Hash for KeyOf<'_> {
    ghost hash_input = { key_writes };

    ghost respects_eq = { key_alike };

    fn hash<H: Hasher>(&self, state: &mut H) {
        feed_values(self, state);
    }
}
