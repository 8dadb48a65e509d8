ghost use Rattle.std.specs.Prelude.{◌≡◌, ◌↔◌, IsTrue, IfOk, map};
ghost use Rattle.expr_tree.specs.Meaning.{value_in};
ghost use Rattle.pgq_base.specs.Instances.{value_at};
ghost use Rattle.pgq_base.specs.Values.{owned, IsOf};
ghost use Rattle.expr_tree.specs.Classes.{IsWellClassed, class_in};
ghost use Rattle.std.specs.List.{list_all};
ghost use Rattle.pgq_base.specs.declared.value.Class.TheVariants.{Truth as TruthClass};
ghost use Rattle.row_eval.specs.Slots.{slot_value, slot_class, fitted, lent_rows, is_kept};

use expr_tree::{Env, Expr, Leaf, truth_of, value_of};
use pgq_base::{Class, List, NoMemory, Row, Text, Truth3, Value, ValueRef};
use std::alloc::Global;

/// A column by place: of which row of a stack of rows, and where in the row.
#[derive(Clone, Copy, Debug, PartialEq, Eq)]
pub struct Slot {
    pub item: usize,
    pub column: usize,
    pub class: Class,
}

impl Leaf for Slot {
    ghost class_is = { λ slot. slot.class };

    fn class(&self) -> Class {
        self.class
    }

    fn same(&self, other: &Slot) -> bool {
        *self == *other
    }
}

/// A condition: an expression that is well classed and of class Truth.
#[derive(Debug, Drop)]
pub struct Condition {
    pub expr: Expr<Slot>,
    ghost well_classed: { IsWellClassed slot_class expr },
    ghost truth: { class_in slot_class expr ≡ TruthClass },
}

/// An output column: an expression that is well classed.
#[derive(Debug, Drop)]
pub struct Output {
    pub expr: Expr<Slot>,
    ghost well_classed: { IsWellClassed slot_class expr },
}

/// Rows that give each slot its value.
#[derive(Drop)]
struct Frame<'a, 'r> {
    rows: &'a [&'r Row],
}

impl Env<Slot> for Frame<'_, '_> {
    ghost value_at = { λ frame. slot_value (lent_rows frame.rows.now) };

    fn get(&self, slot: &Slot) -> ValueRef<'_> {
        slot_in(self.rows, *slot)
    }
}

/// The value of a slot.
pub fn slot_in<'r>(rows: &[&'r Row], slot: Slot) -> ValueRef<'r>
    ensures value { owned result ≡ slot_value (lent_rows rows.now) slot }
    ensures fits { IsOf slot.class (owned result) }
{
    if slot.item >= rows.len() {
        return ValueRef::Null;
    }
    fitting(slot.class, value_in_row(rows[slot.item], slot.column))
}

/// The value of a column of a row.
pub fn value_in_row(row: &Row, column: usize) -> ValueRef<'_>
    ensures { owned result ≡ value_at row.now.values column }
{
    let values = row.values.as_slice();
    if column < values.len() {
        values[column].as_ref()
    } else {
        ValueRef::Null
    }
}

/// The value, and Null where it is not of the class.
pub fn fitting(class: Class, value: ValueRef<'_>) -> ValueRef<'_>
    ensures value { owned result ≡ fitted class (owned value.entry) }
    ensures fits { IsOf class (owned result) }
{
    match (class, value) {
        (Class::Truth, ValueRef::Truth(truth)) => ValueRef::Truth(truth),
        (Class::Number, ValueRef::Number(number)) => ValueRef::Number(number),
        (Class::Number, ValueRef::Decimal(decimal)) => ValueRef::Decimal(decimal),
        (Class::Text, ValueRef::Text(text)) => ValueRef::Text(text),
        (Class::Date, ValueRef::Date(date)) => ValueRef::Date(date),
        _ => ValueRef::Null,
    }
}

/// Whether a condition is True of the rows.
pub fn holds(condition: &Condition, rows: &[&Row]) -> bool
    ensures { result ≡ is_kept (lent_rows rows.now) condition.now.expr }
{
    match truth_of(&condition.expr, &Frame { rows }) {
        Truth3::True => true,
        _ => false,
    }
}

/// Whether each of the conditions is True of the rows.
pub fn all_hold(conditions: &[Condition], rows: &[&Row]) -> bool
    ensures { result ≡ list_all (λ c. is_kept (lent_rows rows.now) c.expr) conditions.now }
{
    for condition in conditions {
        if !holds(condition, rows) {
            return false;
        }
    }
    true
}

/// The row of the outputs' values.
pub fn output_row_of(alloc: Global, outputs: &[Output], rows: &[&Row]) -> Result<Row, NoMemory>
    ensures { IfOk result (λ r. r.values ≡ map (λ o. value_in (slot_value (lent_rows rows.now)) o.expr) outputs.now) }
{
    let mut values = Vec::with_capacity(alloc, outputs.len())?;
    for output in outputs {
        values.push(owned_value(alloc, value_of(&output.expr, &Frame { rows }))?)?;
    }
    Ok(Row {
        values: List::from_vec(values),
    })
}

fn owned_value(alloc: Global, value: ValueRef<'_>) -> Result<Value, NoMemory>
    ensures { IfOk result (λ v. v ≡ owned value.entry) }
{
    match value {
        ValueRef::Null => Ok(Value::Null),
        ValueRef::Truth(truth) => Ok(Value::Truth(truth)),
        ValueRef::Number(number) => Ok(Value::Number(number)),
        ValueRef::Decimal(decimal) => Ok(Value::Decimal(decimal)),
        ValueRef::Date(date) => Ok(Value::Date(date)),
        ValueRef::Text(text) => Ok(Value::Text(Text::from_text(alloc, text)?)),
    }
}
