use crate::distinct;
use pgq_base::{List, NoMemory, Row, Text, Value};
use std::alloc::Global;
use std::test::Fail;

// A number stands for itself, 0 for Null and a number below 0 for a text.
fn value(alloc: Global, number: i64) -> Result<Value, NoMemory> {
    if number == 0 {
        return Ok(Value::Null);
    }
    if number < 0 {
        let text = number.to_string(alloc)?;
        return Ok(Value::Text(Text::from_text(alloc, text.as_str())?));
    }
    Ok(Value::Number(number))
}

fn row(alloc: Global, numbers: &[i64]) -> Result<Row, NoMemory> {
    let mut values = List::new(alloc);
    for number in numbers {
        values.push(value(alloc, *number)?)?;
    }
    Ok(Row { values })
}

// The rows of a table by the number of the table.
static ROWS: [(u32, [i64; 2]); 13] = [
    (1, [1, 2]),
    (2, [1, 2]),
    (2, [1, 2]),
    (3, [1, 2]),
    (3, [2, 1]),
    (3, [1, 2]),
    (4, [0, 0]),
    (4, [0, 1]),
    (4, [0, 0]),
    (5, [-1, 1]),
    (5, [1, -1]),
    (5, [-1, 1]),
    (5, [-11, 1]),
];

static COUNTS: [u64; 6] = [0, 1, 1, 2, 2, 3];

#[test]
fn counts_rows(rt: HostRuntime) -> Result<(), Fail> {
    for (table, due) in COUNTS.iter().enumerate() {
        let mut rows = List::new(rt.alloc());
        for (place, numbers) in &ROWS {
            if *place as usize == table {
                rows.push(row(rt.alloc(), numbers)?)?;
            }
        }
        assert_eq!(rt; distinct(rt.alloc(), rows.as_slice())?, *due);
    }
    Ok(())
}

#[test]
fn a_proper_prefix_is_another_row(rt: HostRuntime) -> Result<(), Fail> {
    let mut rows = List::new(rt.alloc());
    rows.push(row(rt.alloc(), &[])?)?;
    rows.push(row(rt.alloc(), &[0])?)?;
    rows.push(row(rt.alloc(), &[0, 0])?)?;
    rows.push(row(rt.alloc(), &[])?)?;
    assert_eq!(rt; distinct(rt.alloc(), rows.as_slice())?, 3);
    Ok(())
}
