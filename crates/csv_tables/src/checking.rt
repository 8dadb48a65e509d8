ghost use Rattle.std.specs.Prelude.{◌≡◌, ◌||◌, ◌&&◌, not, ◌+◌, ◌++◌, [], List as Sequence, ℕ, All, IfOk, IfSome, IsTrue, None, OnOk, Some, map, option_map, slice_index};
ghost use Rattle.pgq_base.specs.declared.value.Value.{Value as Content};
ghost use Rattle.pgq_base.specs.Instances.{TableRows, rows_at, same_values, values_at};
ghost use Rattle.pgq_base.specs.Values.{owned};
ghost use Rattle.pgq_base.specs.Answers.{Gives};
ghost use Rattle.graph_ast.specs.Fits.{has_null, is_null};
ghost use Rattle.csv_tables.specs.Constraints.{Constraint, HasNumbers, IsNumbered, constraints_of, dangles, has_values, instance_refusal, instance_rows, key_constraint, reference_constraint, repeats, rows_fault, verdict};
ghost use Rattle.csv_tables.specs.Steps.{AreKeysIn, IsFor, earlier_of, first_break};
ghost use Rattle.csv_tables.specs.KeyHashes.{holds, values_in};
ghost use Rattle.csv_tables.specs.Outcomes.{values_of};
ghost use Rattle.csv_tables.specs.Writing.{row_order};
ghost use Rattle.std.specs.declared.cmp.Ordering.TheVariants.{Less};

use crate::faults::{TableFault, refuse};
use crate::keys::{KeyOf, compare, value_at};
use graph_ast::{Catalog, Key, Reference, Table};
use pgq_base::{Code, Instance, NoMemory, Row, Stop, ValueRef};
use std::alloc::Global;
use std::cmp::Ordering;
use std::collections::HashSet;

fn is_null(value: ValueRef<'_>) -> bool
    ensures { result ≡ is_null (owned value.entry) }
{
    match value {
        ValueRef::Null => true,
        _ => false,
    }
}

fn has_null(key: KeyOf<'_>) -> bool
    ensures { result ≡ has_null (values_in key.entry) }
{
    for place in key.columns {
        if is_null(value_at(key.row, *place)) {
            return true;
        }
    }
    false
}

// Puts a key into the set, and whether one with its values was there.
fn add<'a>(set: &mut HashSet<KeyOf<'a>>, key: KeyOf<'a>) -> Result<bool, NoMemory>
    ensures there { IfOk result (λ there. there ≡ holds set.old (values_in key.entry)) }
    ensures grown { OnOk result ((values : Sequence Content) → holds set.new values ≡ (same_values values (values_in key.entry) || holds set.old values)) }
{
    let added = set.insert(key)?;
    Ok(!added)
}

// The keys of the rows in the columns.
fn keys_of<'a>(
    alloc: Global,
    rows: &'a [Row],
    columns: &'a [u32],
) -> Result<HashSet<KeyOf<'a>>, NoMemory>
    ensures { IfOk result (λ set. (values : Sequence Content) → holds set values ≡ has_values columns.now (map values_of rows.now) values) }
{
    let mut keys = HashSet::with_capacity(alloc, rows.len())?;
    for row in rows {
        let key = KeyOf {
            row: row.values.as_slice(),
            columns,
        };
        add(&mut keys, key)?;
    }
    Ok(keys)
}

// Puts a key into the set, and whether it is without Null and one with its values was there.
fn repeats<'a>(seen: &mut HashSet<KeyOf<'a>>, key: KeyOf<'a>) -> Result<bool, NoMemory>
    ensures test { IfOk result (λ test. test ≡ (not (has_null (values_in key.entry)) && holds seen.old (values_in key.entry))) }
    ensures grown { OnOk result ((values : Sequence Content) → holds seen.new values ≡ (same_values values (values_in key.entry) || holds seen.old values)) }
{
    let there = add(seen, key)?;
    Ok(!has_null(key) && there)
}

fn dangles<'a>(targets: &HashSet<KeyOf<'a>>, key: KeyOf<'a>) -> bool
    ensures { result ≡ (not (has_null (values_in key.entry)) && not (holds targets.now (values_in key.entry))) }
{
    !has_null(key) && !targets.contains(&key)
}

// Whether a key stands above the last one, if there is one.
fn is_next(last: Option<KeyOf<'_>>, key: &KeyOf<'_>) -> bool
    ensures { IsTrue result → IfSome last.entry (λ last. row_order (values_in last) (values_in key.now) ≡ Less) }
{
    match last {
        Some(last) => compare(&last, key) == Ordering::Less,
        None => true,
    }
}

// Whether the keys of the rows ascend, as they mostly do in a file, so that none repeats.
fn are_ascending(rows: &[Row], columns: &[u32]) -> bool
    ensures { IsTrue result → first_break (repeats columns.now) [] (map values_of rows.now) ≡ None }
{
    let mut last = None;
    for row in rows {
        let key = KeyOf {
            row: row.values.as_slice(),
            columns,
        };
        if !is_next(last, &key) {
            return false;
        }
        last = Some(key);
    }
    true
}

// The number of the first row that has the values of an earlier one in the columns, none of them Null.
fn first_repeat(alloc: Global, rows: &[Row], columns: &[u32]) -> Result<Option<u64>, NoMemory>
    ensures { IfOk result (λ number. number ≡ first_break (repeats columns.now) [] (map values_of rows.now)) }
{
    if are_ascending(rows, columns) {
        return Ok(None);
    }
    let mut seen = HashSet::with_capacity(alloc, rows.len())?;
    for i in 0..rows.len() {
        let row = rows[i].values.as_slice();
        if repeats(&mut seen, KeyOf { row, columns })? {
            return Ok(Some(i as u64 + 1));
        }
    }
    Ok(None)
}

// The number of the first row whose reference has no Null and meets none of the keys.
fn first_dangling<'a>(
    rows: &'a [Row],
    columns: &'a [u32],
    targets: &HashSet<KeyOf<'a>>,
) -> Option<u64>
    ensures { (places : Sequence ℕ) (target : TableRows) → ((values : Sequence Content) → holds targets.now values ≡ has_values places target values)
        → result ≡ first_break (dangles columns.now places target) [] (map values_of rows.now) }
{
    for i in 0..rows.len() {
        let row = rows[i].values.as_slice();
        if dangles(targets, KeyOf { row, columns }) {
            return Some(i as u64 + 1);
        }
    }
    None
}

// The rows of the table at a place.
fn rows_at(instance: &Instance, place: usize) -> &[Row]
    ensures { map values_of result.now ≡ rows_at (instance_rows instance.now) place }
{
    match instance.tables.as_slice().get(place) {
        Some(table) => table.rows.as_slice(),
        None => &[],
    }
}

// The fault of a constraint at a row.
fn fault_at(number: Option<u64>, code: Code, columns: &[u32]) -> Option<TableFault>
    requires { IsNumbered columns.now }
    ensures { result ≡ option_map (λ row. record { code = code; row = row; column = slice_index columns.now 0 + 1 }) number }
{
    let first = match columns.first() {
        Some(column) => *column,
        None => 0,
    };
    match number {
        Some(row) => Some(TableFault {
            code,
            row,
            column: first + 1,
        }),
        None => None,
    }
}

fn earlier_of(fault: Option<TableFault>, other: Option<TableFault>) -> Option<TableFault>
    ensures { result ≡ earlier_of fault other }
{
    match (fault, other) {
        (None, other) => other,
        (Some(fault), None) => Some(fault),
        (Some(fault), Some(other)) => {
            if other.row < fault.row {
                Some(other)
            } else {
                Some(fault)
            }
        }
    }
}

// The first fault of the keys.
fn keys_fault(alloc: Global, keys: &[Key], rows: &[Row]) -> Result<Option<TableFault>, NoMemory>
    requires { All (λ key. IsNumbered key.columns) keys.now }
    ensures { IfOk result (λ fault. fault ≡ rows_fault (map key_constraint keys.now) [] (map values_of rows.now)) }
{
    let mut first = None;
    for key in keys {
        let columns = key.columns.as_slice();
        let number = first_repeat(alloc, rows, columns)?;
        first = earlier_of(first, fault_at(number, Code::RepeatedKey, columns));
    }
    Ok(first)
}

// The keys of a table's rows in some columns. References often come in pairs with the same ones, as the two
// ends of an edge table do, so that the set serves both.
#[derive(Drop)]
struct TargetKeys<'a> {
    table: u32,
    columns: &'a [u32],
    keys: HashSet<KeyOf<'a>>,
}

fn is_for(targets: &TargetKeys<'_>, reference: &Reference) -> bool
    ensures { IsTrue result → IsFor reference.now targets.now }
{
    targets.table == reference.table && targets.columns == reference.targets.as_slice()
}

// The last keys, where they are those for the reference. Else they are dropped.
fn kept_for<'a>(last: Option<TargetKeys<'a>>, reference: &Reference) -> Option<TargetKeys<'a>>
    ensures last { IfSome result (λ targets. last.entry ≡ Some targets) }
    ensures met { IfSome result (λ targets. IsFor reference.now targets) }
{
    match last {
        Some(targets) if is_for(&targets, reference) => Some(targets),
        _ => None,
    }
}

// The keys that the reference has for targets, which are the last ones or new ones.
fn targets_of<'a>(
    alloc: Global,
    instance: &'a Instance,
    reference: &'a Reference,
    last: Option<TargetKeys<'a>>,
) -> Result<TargetKeys<'a>, NoMemory>
    requires { IfSome last (AreKeysIn (instance_rows instance.now)) }
    ensures keys { IfOk result (AreKeysIn (instance_rows instance.now)) }
    ensures met { IfOk result (IsFor reference.now) }
{
    if let Some(targets) = kept_for(last, reference) {
        return Ok(targets);
    }
    let columns = reference.targets.as_slice();
    let rows = rows_at(instance, reference.table as usize);
    Ok(TargetKeys {
        table: reference.table,
        columns,
        keys: keys_of(alloc, rows, columns)?,
    })
}

// The first fault of the references, or of the constraints before them, which have the fault `before`.
fn references_fault(
    alloc: Global,
    instance: &Instance,
    references: &[Reference],
    rows: &[Row],
    before: Option<TableFault>,
) -> Result<Option<TableFault>, NoMemory>
    requires { All (λ reference. IsNumbered reference.columns) references.now }
    ensures { (others : Sequence Constraint) → before ≡ rows_fault others [] (map values_of rows.now)
        → IfOk result (λ fault. fault ≡ rows_fault (others ++ map (reference_constraint (instance_rows instance.now)) references.now) [] (map values_of rows.now)) }
{
    let mut first = before;
    let mut last = None;
    for reference in references {
        let targets = targets_of(alloc, instance, reference, last)?;
        let columns = reference.columns.as_slice();
        let number = first_dangling(rows, columns, &targets.keys);
        first = earlier_of(first, fault_at(number, Code::BrokenReference, columns));
        last = Some(targets);
    }
    Ok(first)
}

fn table_fault(
    alloc: Global,
    instance: &Instance,
    table: &Table,
    rows: &[Row],
) -> Result<Option<TableFault>, NoMemory>
    requires { HasNumbers table.now }
    ensures { IfOk result (λ fault. fault ≡ rows_fault (constraints_of (instance_rows instance.now) table.now) [] (map values_of rows.now)) }
{
    let first = keys_fault(alloc, table.keys.as_slice(), rows)?;
    references_fault(alloc, instance, table.references.as_slice(), rows, first)
}

/// Whether the rows of an instance keep the keys and the references of the catalog's tables.
///
/// The first row that breaks one is refused: with 905 where it has the values of an earlier row of its
/// table in all columns of a primary key or a UNIQUE list, none of them Null, and with 906 where a
/// foreign key without a Null meets no row. Tables come in their order, rows in theirs, keys before
/// references and those in the order in which they are declared. Want of memory may be answered at any
/// time. The order of refusals is this project's own.
pub fn check_instance(alloc: Global, catalog: &Catalog, instance: &Instance) -> Result<(), Stop>
    requires { All HasNumbers catalog.now.tables }
    ensures { Gives (verdict (instance_refusal catalog.now (instance_rows instance.now))) result }
{
    let tables = catalog.tables.as_slice();
    for place in 0..tables.len() {
        let table = &tables[place];
        if let Some(fault) = table_fault(alloc, instance, table, rows_at(instance, place))? {
            return Err(refuse(alloc, &table.name, fault));
        }
    }
    Ok(())
}
