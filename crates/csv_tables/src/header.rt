ghost use Rattle.std.specs.Prelude.{◌≡◌, bytes_eq, slice_index_or, position, []};
ghost use Rattle.std.specs.List.{list_any};
ghost use Rattle.std.specs.Str.{str_to_ascii_uppercase};
ghost use Rattle.csv.specs.Records.{fields_of};
ghost use Rattle.csv_tables.specs.Reading.{bad_header, header_places, is_named, names};
ghost use Rattle.pgq_base.specs.Answers.{Gives};

use crate::faults::TableFault;
use csv::ByteRecord;
use graph_ast::Column;
use pgq_base::{Code, List, Stop};
use std::alloc::Global;

/// The field at a place of a record. It is empty past the record's end.
pub fn field_at(fields: &ByteRecord, place: usize) -> &[u8]
    ensures { result.now ≡ slice_index_or (fields_of fields.now) place [] }
{
    match fields.get(place) {
        Some(field) => field,
        None => &[],
    }
}

// Whether the name is the field after its ASCII letters are folded to upper case.
fn is_folded(name: &[u8], field: &[u8]) -> bool
    ensures { result ≡ bytes_eq name.now (str_to_ascii_uppercase field.now) }
{
    if name.len() != field.len() {
        return false;
    }
    for i in 0..name.len() {
        if name[i] != field[i].to_ascii_uppercase() {
            return false;
        }
    }
    true
}

fn is_a_name(columns: &[Column], field: &[u8]) -> bool
    ensures { result ≡ list_any (is_named field.now) columns.now }
{
    columns.iter().any(|column| column.name.as_bytes() == field)
}

fn names(columns: &[Column], column: &Column, field: &[u8]) -> bool
    ensures { result ≡ names columns.now column.now field.now }
{
    let name = column.name.as_bytes();
    name == field || (is_folded(name, field) && !is_a_name(columns, field))
}

// The place of the field that names the column.
fn place_of(columns: &[Column], column: &Column, header: &ByteRecord) -> Option<usize>
    ensures { result ≡ position (names columns.now column.now) (fields_of header.now) }
{
    for place in 0..header.len() {
        if names(columns, column, field_at(header, place)) {
            return Some(place);
        }
    }
    None
}

/// The fault of a header that does not name each column once, or of a file without a header.
pub fn bad_header() -> TableFault
    ensures { result ≡ bad_header }
{
    TableFault {
        code: Code::BadHeader,
        row: 0,
        column: 0,
    }
}

/// For each column the place of the field that names it.
pub fn header_places(
    alloc: Global,
    columns: &[Column],
    header: &ByteRecord,
) -> Result<List<usize>, Stop<TableFault>>
    ensures { Gives (header_places columns.now (fields_of header.now)) result }
{
    if header.len() != columns.len() {
        return Err(Stop::Refused(bad_header()));
    }
    let mut places = List::new(alloc);
    for column in columns {
        match place_of(columns, column, header) {
            Some(place) => places.push(place)?,
            None => return Err(Stop::Refused(bad_header())),
        }
    }
    Ok(places)
}
