ghost use Rattle.std.specs.Prelude.{◌≡◌, ◌≤◌, ◌^◌, nat_le, chars, length, IfOk, option_map, option_and_then};
ghost use Rattle.csv_tables.specs.Fields.{date_written, field_value, text_of_bytes, text_written, truth_written, written};
ghost use Rattle.csv_tables.specs.Within.{has_digits, is_between, is_within};

use crate::numbers::{read_decimal, read_number};
use civil_dates::date_of_text;
use graph_ast::{ColumnType, Digits};
use pgq_base::{NoMemory, Text, Value};
use std::alloc::Global;

// The text that a field spells.
fn unescaped(field: &[u8]) -> Option<&[u8]>
    ensures { option_map (λ s. s.now) result ≡ text_written field.now }
{
    match field {
        [b'\\', b'\\', ..] => Some(&field[1..]),
        [b'\\', ..] => None,
        _ => Some(field),
    }
}

fn read_text(alloc: Global, field: &[u8]) -> Result<Option<Value>, NoMemory>
    ensures { IfOk result (λ v. v ≡ option_and_then text_of_bytes (text_written field.now)) }
{
    let Some(bytes) = unescaped(field) else {
        return Ok(None);
    };
    match std::str::from_utf8(bytes) {
        Ok(text) => Ok(Some(Value::Text(Text::from_text(alloc, text)?))),
        Err(_) => Ok(None),
    }
}

fn read_truth(field: &[u8]) -> Option<Value>
    ensures { result ≡ truth_written field.now }
{
    if field.eq_ignore_ascii_case(b"true") {
        Some(Value::Truth(true))
    } else if field.eq_ignore_ascii_case(b"false") {
        Some(Value::Truth(false))
    } else {
        None
    }
}

fn read_date(field: &[u8]) -> Option<Value>
    ensures { result ≡ date_written field.now }
{
    match date_of_text(field) {
        Some(date) => Some(Value::Date(date)),
        None => None,
    }
}

// What a field is read as in a column of this type, whatever its size.
fn read_written(alloc: Global, kind: ColumnType, field: &[u8]) -> Result<Option<Value>, NoMemory>
    ensures { IfOk result (λ v. v ≡ written kind field.now) }
{
    match kind {
        ColumnType::VarChar(_) => read_text(alloc, field),
        _ if field.is_empty() => Ok(Some(Value::Null)),
        ColumnType::SmallInt => Ok(read_number(field)),
        ColumnType::Integer => Ok(read_number(field)),
        ColumnType::BigInt => Ok(read_number(field)),
        ColumnType::Boolean => Ok(read_truth(field)),
        ColumnType::Decimal(_) => Ok(read_decimal(field)),
        ColumnType::Date => Ok(read_date(field)),
    }
}

fn is_between(least: i64, most: i64, n: i64) -> bool
    ensures { result ≡ is_between least most n }
{
    least <= n && n <= most
}

// Whether a text has at most so many characters.
fn is_short(text: &str, most: u32) -> bool
    ensures { result ≡ nat_le (length (chars text.now)) most }
{
    let most = most as usize;
    text.len() <= most || text.chars().count() <= most
}

fn power_of_ten(exponent: u8) -> u128
    requires { exponent ≤ 18 }
    ensures value { result ≡ 10 ^ exponent }
    ensures most { result ≤ 1000000000000000000 }
{
    10_u128.pow(exponent as u32)
}

// Whether an unscaled number over 10 to the scale has no more digits than these.
fn has_digits(digits: Digits, unscaled: i64, scale: u8) -> bool
    ensures { result ≡ has_digits digits unscaled scale }
{
    scale <= digits.scale
        && unscaled.unsigned_abs() as u128 * power_of_ten(digits.scale - scale)
            < power_of_ten(digits.precision)
}

// Whether a value lies in the type.
fn is_within(kind: ColumnType, value: &Value) -> bool
    ensures { result ≡ is_within kind value.now }
{
    match (kind, value) {
        (_, Value::Null) => true,
        (ColumnType::SmallInt, Value::Number(n)) => is_between(-32_768, 32_767, *n),
        (ColumnType::Integer, Value::Number(n)) => is_between(-2_147_483_648, 2_147_483_647, *n),
        (ColumnType::BigInt, Value::Number(n)) => is_between(i64::MIN, i64::MAX, *n),
        (ColumnType::Decimal(digits), Value::Number(n)) => has_digits(digits, *n, 0),
        (ColumnType::Decimal(digits), Value::Decimal(decimal)) => {
            has_digits(digits, decimal.unscaled, decimal.scale)
        }
        (ColumnType::VarChar(most), Value::Text(text)) => is_short(text.as_text(), most),
        (ColumnType::Boolean, Value::Truth(_)) => true,
        (ColumnType::Date, Value::Date(_)) => true,
        _ => false,
    }
}

/// The value that a field stands for in a column of this type, if it stands for one. `\N` is Null, and so is
/// the empty field in a column that is not of texts.
pub fn read_field(alloc: Global, kind: ColumnType, field: &[u8]) -> Result<Option<Value>, NoMemory>
    ensures { IfOk result (λ v. v ≡ field_value kind field.now) }
{
    if field == b"\\N".as_slice() {
        return Ok(Some(Value::Null));
    }
    match read_written(alloc, kind, field)? {
        Some(value) => {
            if is_within(kind, &value) {
                Ok(Some(value))
            } else {
                Ok(None)
            }
        }
        None => Ok(None),
    }
}
