ghost use Rattle.std.specs.Prelude.{◌≡◌, ◌≤◌, ◌∷◌, ◌++◌, [], ℕ, List as Sequence, All, IfOk, OnOk, map, flat_map, length};
ghost use Rattle.multisets.specs.Bags.{IsSameMultiset};
ghost use Rattle.pgq_base.specs.Instances.{TableRows};
ghost use Rattle.csv.specs.Records.{fields_of, partial_of};
ghost use Rattle.pgq_base.specs.declared.value.Value.TheVariants as values;
ghost use Rattle.csv_tables.specs.Fields.{field_of};
ghost use Rattle.csv_tables.specs.Outcomes.{values_of};
ghost use Rattle.csv_tables.specs.Writing.{record_text, row_line, table_text};
ghost use Rattle.csv_tables.specs.Steps.{HasWritten};

use crate::sorting::{Line, sorted};
use civil_dates::text_of_date;
use csv::{ByteRecord, Writer};
use itoa::Buffer;
use pgq_base::{List, Name, NoMemory, Row, Value, text_of_decimal};
use std::alloc::Global;
use std::io::Write;

// A text that begins with a backslash is written with one more.
fn push_text(alloc: Global, fields: &mut ByteRecord, text: &[u8]) -> Result<(), NoMemory>
    requires { partial_of fields.old ≡ [] }
    ensures fields { OnOk result (fields_of fields.new ≡ fields_of fields.old ++ field_of (values.Text text.now) ∷ []) }
    ensures partial { OnOk result (partial_of fields.new ≡ []) }
{
    match text {
        [b'\\', ..] => {
            let mut escaped = Vec::with_capacity(alloc, text.len() + 1)?;
            escaped.push(b'\\')?;
            escaped.extend_from_slice(text)?;
            fields.push_field(escaped.as_slice())?;
        }
        _ => fields.push_field(text)?,
    }
    Ok(())
}

// Appends the field of a value.
fn push_value(alloc: Global, fields: &mut ByteRecord, value: &Value) -> Result<(), NoMemory>
    requires { partial_of fields.old ≡ [] }
    ensures fields { OnOk result (fields_of fields.new ≡ fields_of fields.old ++ field_of value.now ∷ []) }
    ensures partial { OnOk result (partial_of fields.new ≡ []) }
{
    match value {
        Value::Null => fields.push_field(b"\\N")?,
        Value::Truth(true) => fields.push_field(b"true")?,
        Value::Truth(false) => fields.push_field(b"false")?,
        Value::Number(n) => fields.push_field(Buffer::new().format(*n).as_bytes())?,
        Value::Decimal(decimal) => {
            fields.push_field(text_of_decimal(alloc, *decimal)?.as_slice())?;
        }
        Value::Date(date) => fields.push_field(&text_of_date(*date))?,
        Value::Text(text) => push_text(alloc, fields, text.as_text().as_bytes())?,
    }
    Ok(())
}

// Makes the record of a row.
fn fill(alloc: Global, fields: &mut ByteRecord, row: &Row) -> Result<(), NoMemory>
    ensures { OnOk result (fields_of fields.new ≡ map field_of row.now.values) }
{
    fields.clear();
    for value in row.values.as_slice() {
        push_value(alloc, fields, value)?;
    }
    Ok(())
}

// Writes a record behind what is written.
fn put<W: Write + Drop>(writer: &mut Writer<W>, fields: &ByteRecord) -> Result<(), NoMemory>
    ensures { (text : Sequence ℕ) → HasWritten W.contents writer.old text → OnOk result (HasWritten W.contents writer.new (text ++ record_text (fields_of fields.now))) }
{
    if let Ok(()) = writer.write_byte_record(fields) {
        return Ok(());
    }
    Err(NoMemory)
}

fn fill_names(fields: &mut ByteRecord, names: &[Name]) -> Result<(), NoMemory>
    ensures { OnOk result (fields_of fields.new ≡ names.now) }
{
    fields.clear();
    for name in names {
        fields.push_field(name.as_bytes())?;
    }
    Ok(())
}

// Writes the header: the names as a record.
fn put_names<W: Write + Drop>(
    writer: &mut Writer<W>,
    fields: &mut ByteRecord,
    names: &[Name],
) -> Result<(), NoMemory>
    ensures { (text : Sequence ℕ) → HasWritten W.contents writer.old text → OnOk result (HasWritten W.contents writer.new (text ++ record_text names.now)) }
{
    fill_names(fields, names)?;
    put(writer, fields)
}

// Writes the rows of the lines, each as a record.
fn put_rows<W: Write + Drop>(
    alloc: Global,
    writer: &mut Writer<W>,
    fields: &mut ByteRecord,
    lines: &[Line<'_>],
) -> Result<(), NoMemory>
    ensures { (text : Sequence ℕ) → HasWritten W.contents writer.old text
        → OnOk result (HasWritten W.contents writer.new (text ++ flat_map row_line (map (λ line. line.row.now.values) lines.now))) }
{
    for line in lines {
        fill(alloc, fields, line.row)?;
        put(writer, fields)?;
    }
    Ok(())
}

// The names and then the rows, each as a record. An error of a writer into memory can only be want of memory.
fn write_lines(alloc: Global, names: &[Name], lines: &[Line<'_>]) -> Result<Vec<u8>, NoMemory>
    ensures { IfOk result (λ text. text.items ≡ record_text names.now ++ flat_map row_line (map (λ line. line.row.now.values) lines.now)) }
{
    let mut writer = Writer::from_writer(Vec::new(alloc));
    let mut fields = ByteRecord::new(alloc);
    put_names(&mut writer, &mut fields, names)?;
    put_rows(alloc, &mut writer, &mut fields, lines)?;
    if let Ok(text) = writer.into_inner() {
        return Ok(text);
    }
    Err(NoMemory)
}

/// The text of a table with these columns and rows: the header and then the rows in ascending order, as CSV.
///
/// Null is written `\N`, truth values are `true` and `false`, decimals have a point and as many digits behind
/// it as their scale says, dates are ten bytes, and a text that begins with a backslash is written with one
/// more in front. A column's name is written as it is. The conventions are this project's own.
pub fn write_rows(alloc: Global, names: &[Name], rows: &[Row]) -> Result<List<u8>, NoMemory>
    requires some { 1 ≤ length names.now }
    requires fit { All (λ row. length row.values ≡ length names.now) rows.now }
    ensures { IfOk result (λ text. text ≡ table_text names.now (map values_of rows.now)) }
{
    let lines = sorted(alloc, rows)?;
    let text = write_lines(alloc, names, lines.as_slice())?;
    Ok(List::from_vec(text))
}

/// Two lists of rows that are the same multiset have the same text.
pub fn one_table_text()
    ensures { (names : Sequence (Sequence ℕ)) (xs ys : TableRows) → IsSameMultiset xs ys → table_text names xs ≡ table_text names ys }
{}
