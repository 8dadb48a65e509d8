ghost use Rattle.std.specs.Prelude.{◌≡◌, ◌<◌, ◌+◌, ◌*◌, ℕ, All, IfOk, map, slice_index_or};
ghost use Rattle.pgq_base.specs.Instances.{RowValues};
ghost use Rattle.csv_tables.specs.Outcomes.{values_of};
ghost use Rattle.csv_tables.specs.Ranks.{IsRanked, first_text, text_rank};
ghost use Rattle.csv_tables.specs.Writing.{ascending, row_order};

use pgq_base::{NoMemory, Row, Value, row_order};
use std::alloc::Global;
use std::cmp::Ordering;

/// A row, and a number that tells its place among most others: where two numbers differ, the rows stand
/// in their order.
#[derive(Clone, Copy)]
pub struct Line<'a> {
    pub rank: u64,
    pub row: &'a Row,
    pub ghost ranked: { IsRanked rank row.now.values },
}

fn byte_at(bytes: &[u8], place: usize) -> u64
    ensures value { result ≡ slice_index_or bytes.now place 0 }
    ensures byte { result < 256 }
{
    match bytes.get(place) {
        Some(byte) => *byte as u64,
        None => 0,
    }
}

// Four bytes as one number, the first one highest.
fn joined(a: u64, b: u64, c: u64, d: u64) -> u64
    requires { (a < 256) × (b < 256) × (c < 256) × (d < 256) }
    ensures value { result ≡ a * 16777216 + b * 65536 + c * 256 + d }
    ensures small { result < 4294967296 }
{
    a * 16_777_216 + b * 65_536 + c * 256 + d
}

// The first eight bytes of a text as one number. Past the end there are zeros.
fn text_rank(bytes: &[u8]) -> u64
    ensures { result ≡ text_rank bytes.now }
{
    let high = joined(
        byte_at(bytes, 0),
        byte_at(bytes, 1),
        byte_at(bytes, 2),
        byte_at(bytes, 3),
    );
    let low = joined(
        byte_at(bytes, 4),
        byte_at(bytes, 5),
        byte_at(bytes, 6),
        byte_at(bytes, 7),
    );
    high * 4_294_967_296 + low
}

// The text that a row begins with.
fn first_text(values: &[Value]) -> &[u8]
    ensures { result.now ≡ first_text values.now }
{
    match values.first() {
        Some(Value::Text(text)) => text.as_text().as_bytes(),
        _ => &[],
    }
}

fn line_of(row: &Row) -> Line<'_>
    ensures { result.row.now.values ≡ row.now.values }
{
    let text = first_text(row.values.as_slice());
    Line {
        rank: text_rank(text),
        row,
    }
}

fn compare(a: &Line<'_>, b: &Line<'_>) -> Ordering
    ensures { result ≡ row_order a.now.row.now.values b.now.row.now.values }
{
    if a.rank < b.rank {
        return Ordering::Less;
    }
    if b.rank < a.rank {
        return Ordering::Greater;
    }
    row_order(a.row.values.as_slice(), b.row.values.as_slice())
}

/// The rows in ascending order.
pub fn sorted<'a>(alloc: Global, rows: &'a [Row]) -> Result<Vec<Line<'a>>, NoMemory>
    ensures { IfOk result (λ lines. map (λ line. line.row.now.values) lines.items ≡ ascending (map values_of rows.now)) }
{
    let mut lines = Vec::with_capacity(alloc, rows.len())?;
    for row in rows {
        lines.push(line_of(row))?;
    }
    lines.sort_unstable_by(|a, b| compare(a, b));
    Ok(lines)
}
