ghost use Rattle.std.specs.Prelude.{◌≡◌, ◌<◌, ◌≤◌, position, length, IfSome, IsTrue};
ghost use Rattle.std.specs.Char.{is_ascii_digit};
ghost use Rattle.std.specs.List.{list_all, suffix_len};
ghost use Rattle.pgq_base.specs.Numerals.{is_zero};
ghost use Rattle.pgq_base.specs.Signs.{signed};
ghost use Rattle.pgq_base.specs.declared.value.Value.TheVariants as values;
ghost use Rattle.graph_ast.specs.declared.catalog.ColumnType.TheVariants as kinds;
ghost use Rattle.csv_tables.specs.Fields.{behind_sign, decimal_written, has_minus, if_within, is_numeral, is_point, number_written, size_written, value_of_digits};

use pgq_base::{Size, Value, number_from};

// Whether a minus stands before the digits, and what stands behind it.
fn split_sign(field: &[u8]) -> (bool, &[u8])
    ensures minus { result.0 ≡ has_minus field.now }
    ensures behind { result.1.now ≡ behind_sign field.now }
{
    match field {
        [b'-', digits @ ..] => (true, digits),
        digits => (false, digits),
    }
}

fn are_digits(bytes: &[u8]) -> bool
    ensures { result ≡ list_all is_ascii_digit bytes.now }
{
    bytes.iter().all(|byte| byte.is_ascii_digit())
}

// Whether there are digits and nothing else.
fn is_numeral(bytes: &[u8]) -> bool
    ensures { result ≡ is_numeral bytes.now }
{
    !bytes.is_empty() && are_digits(bytes)
}

// The number, or what is as far on the other side of 0, where it has 64 bits.
fn number(negative: bool, size: u64) -> Option<Value>
    ensures { result ≡ if_within kinds.BigInt (values.Number (signed negative size)) }
{
    let n = if negative {
        -(size as i128)
    } else {
        size as i128
    };
    if -(1 << 63) <= n && n < 1 << 63 {
        Some(Value::Number(n as i64))
    } else {
        None
    }
}

/// The number that a field spells, where it has 64 bits.
pub fn read_number(field: &[u8]) -> Option<Value>
    ensures { result ≡ number_written field.now }
{
    let (negative, digits) = split_sign(field);
    if !is_numeral(digits) {
        return None;
    }
    number(negative, number_from(0, digits))
}

// The number of zeros at the end.
fn last_zeros(digits: &[u8]) -> usize
    ensures len { result ≡ suffix_len is_zero digits.now }
    ensures within { result ≤ length digits.now }
{
    digits
        .iter()
        .rev()
        .take_while(|digit| **digit == b'0')
        .count()
}

fn value_of_digits(negative: bool, whole: &[u8], fraction: &[u8]) -> Option<Value>
    requires whole { IsTrue (is_numeral whole.now) }
    requires fraction { IsTrue (list_all is_ascii_digit fraction.now) }
    ensures { result ≡ value_of_digits negative whole.now fraction.now }
{
    let kept = &fraction[..fraction.len() - last_zeros(fraction)];
    let size = Size::from_digits(whole, kept)?;
    Some(size.value(negative))
}

fn point_in(bytes: &[u8]) -> Option<usize>
    ensures place { result ≡ position is_point bytes.now }
    ensures within { IfSome result (λ place. place < length bytes.now) }
{
    bytes.iter().position(|byte| *byte == b'.')
}

// The value of digits, or of digits, a point at the place, and digits.
fn size_at(negative: bool, bytes: &[u8], place: Option<usize>) -> Option<Value>
    requires { IfSome place (λ place. place < length bytes.now) }
    ensures { result ≡ size_written negative bytes.now place }
{
    match place {
        None => {
            if is_numeral(bytes) {
                value_of_digits(negative, bytes, &[])
            } else {
                None
            }
        }
        Some(place) => {
            let whole = &bytes[..place];
            let fraction = &bytes[place + 1..];
            if is_numeral(whole) && is_numeral(fraction) {
                value_of_digits(negative, whole, fraction)
            } else {
                None
            }
        }
    }
}

/// The number or the decimal that a field spells, where it has at most 18 digits.
pub fn read_decimal(field: &[u8]) -> Option<Value>
    ensures { result ≡ decimal_written field.now }
{
    let (negative, bytes) = split_sign(field);
    size_at(negative, bytes, point_in(bytes))
}
