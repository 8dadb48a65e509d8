ghost use Rattle.std.specs.Prelude.{◌≡◌, ◌<◌, ◌^◌, IfOk, ℕ, List as Sequence, length, slice_index_or, []};
ghost use Rattle.csv.specs.Records.{fields_of};
ghost use Rattle.csv_tables.specs.Fields.{field_value};
ghost use Rattle.csv_tables.specs.Outcomes.{collected, rows_of, seen, values_of};
ghost use Rattle.pgq_base.specs.Answers.{Gives};
ghost use Rattle.csv_tables.specs.Reading.{record_row, record_rows, rows_of_records, table_rows, taken};
ghost use Rattle.csv_tables.specs.Records.{file_records};
ghost use Rattle.csv_tables.specs.Steps.{HasLeft};

use crate::faults::{TableFault, refuse};
use crate::fields::read_field;
use crate::header::{bad_header, field_at, header_places};
use crate::records::{reader_of, take_record};
use csv::{ByteRecord, Reader};
use graph_ast::{Column, Table};
use pgq_base::{Code, List, NoMemory, Row, Rows, Stop, Value};
use std::alloc::Global;
use std::io::Read;

// The value of a field, at its row and at the number of its column.
fn read_cell(
    alloc: Global,
    column: &Column,
    row: u64,
    number: u32,
    field: &[u8],
) -> Result<Value, Stop<TableFault>>
    ensures { Gives (taken column.now row number (field_value column.now.kind field.now)) result }
{
    match read_field(alloc, column.kind, field)? {
        None => Err(Stop::Refused(TableFault {
            code: Code::BadField,
            row,
            column: number,
        })),
        Some(Value::Null) if column.not_null => Err(Stop::Refused(TableFault {
            code: Code::NullField,
            row,
            column: number,
        })),
        Some(value) => Ok(value),
    }
}

// No values yet, and room for so many.
fn row_of(alloc: Global, count: usize) -> Result<List<Value>, NoMemory>
    ensures { IfOk result (λ values. values ≡ []) }
{
    Ok(List::from_vec(Vec::with_capacity(alloc, count)?))
}

// The row of a record.
fn read_row(
    alloc: Global,
    columns: &[Column],
    places: &[usize],
    row: u64,
    fields: &ByteRecord,
) -> Result<Row, Stop<TableFault>>
    requires few { length columns.now < 2 ^ 32 }
    requires placed { length places.now ≡ length columns.now }
    ensures { Gives (record_row columns.now places.now row (fields_of fields.now)) (seen values_of result) }
{
    if fields.len() != columns.len() {
        return Err(Stop::Refused(TableFault {
            code: Code::RecordWidth,
            row,
            column: 0,
        }));
    }
    let mut values = row_of(alloc, columns.len())?;
    for i in 0..columns.len() {
        let number = i as u32 + 1;
        let field = field_at(fields, places[i]);
        values.push(read_cell(alloc, &columns[i], row, number, field)?)?;
    }
    Ok(Row { values })
}

// The rows of the records that are left, the first of which has the number 1.
fn read_rows<R: Read>(
    alloc: Global,
    columns: &[Column],
    places: &[usize],
    reader: &mut Reader<R>,
) -> Result<Rows, Stop<TableFault>>
    requires few { length columns.now < 2 ^ 32 }
    requires placed { length places.now ≡ length columns.now }
    ensures { (left : Sequence (Sequence (Sequence ℕ))) → HasLeft R.remaining reader.old left → Gives (collected (record_rows columns.now places.now 1 left)) (seen rows_of result) }
{
    let mut fields = ByteRecord::new(alloc);
    let mut rows = List::new(alloc);
    for row in 1..u64::MAX {
        if !take_record(reader, &mut fields)? {
            return Ok(Rows { rows });
        }
        rows.push(read_row(alloc, columns, places, row, &fields)?)?;
    }
    Err(Stop::NoMemory)
}

fn read_records(alloc: Global, bytes: &[u8], columns: &[Column]) -> Result<Rows, Stop<TableFault>>
    requires { length columns.now < 2 ^ 32 }
    ensures { Gives (rows_of_records columns.now (file_records bytes.now)) (seen rows_of result) }
{
    let mut reader = reader_of(alloc, bytes);
    let mut header = ByteRecord::new(alloc);
    if !take_record(&mut reader, &mut header)? {
        return Err(Stop::Refused(bad_header()));
    }
    let places = header_places(alloc, columns, &header)?;
    read_rows(alloc, columns, places.as_slice(), &mut reader)
}

/// The rows of a table's text, which is CSV with a header.
///
/// Each field of the header names a column by its exact name, or else by its name after the letters are
/// folded to upper case, and each column is named once. Else, and where there is no record at all, the
/// refusal is 901. The first record that is no row is refused: with 902 where it has another number of
/// fields than the header, and else at its first column, in the order of the schema, with 903 for a field
/// that is no value of the column's type and with 904 for a Null where the column takes none. Rows are
/// counted from 1 after the header; blank lines are no records. Want of memory may be answered at any
/// time. The conventions are this project's own.
pub fn read_table(alloc: Global, bytes: &[u8], table: &Table) -> Result<Rows, Stop>
    requires { length table.now.columns < 2 ^ 32 }
    ensures { Gives (table_rows bytes.now table.now) (seen rows_of result) }
{
    match read_records(alloc, bytes, table.columns.as_slice()) {
        Ok(rows) => Ok(rows),
        Err(Stop::NoMemory) => Err(Stop::NoMemory),
        Err(Stop::Refused(fault)) => Err(refuse(alloc, &table.name, fault)),
    }
}
