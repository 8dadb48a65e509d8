use crate::{sample_catalog, sample_query, sample_schema, sample_summary, sample_tables};
use pgq_base::{Row, Value};
use std::test::Fail;

// The rows of KNOWS for three persons.
static EDGES: [[i64; 4]; 9] = [
    [1, 1, 3, 2001],
    [2, 1, 2, 2002],
    [3, 1, 1, 2003],
    [4, 2, 2, 2002],
    [5, 2, 2, 2003],
    [6, 2, 2, 2004],
    [7, 3, 1, 2003],
    [8, 3, 2, 2004],
    [9, 3, 3, 2005],
];

fn is_number(value: &Value, number: i64) -> bool {
    match value {
        Value::Number(n) => *n == number,
        _ => false,
    }
}

fn are_numbers(row: &Row, numbers: &[i64]) -> bool {
    let values = row.values.as_slice();
    values.len() == numbers.len()
        && values
            .iter()
            .zip(numbers)
            .all(|(value, number)| is_number(value, *number))
}

fn is_person(row: &Row, id: i64, name: &str, age: i64) -> bool {
    match row.values.as_slice() {
        [first, Value::Text(text), last] => {
            is_number(first, id) && text.as_text() == name && is_number(last, age)
        }
        _ => false,
    }
}

#[test]
fn three_persons(rt: HostRuntime) -> Result<(), Fail> {
    let instance = sample_tables(rt.alloc(), 3)?;
    let [persons, edges] = instance.tables.as_slice() else {
        return Err("not two tables")?;
    };
    let [first, _, third] = persons.rows.as_slice() else {
        return Err("not three persons")?;
    };
    assert!(rt; is_person(first, 1, "P1", 7));
    assert!(rt; is_person(third, 3, "P3", 21));
    assert_eq!(rt; edges.rows.as_slice().len(), 9);
    for (row, numbers) in edges.rows.as_slice().iter().zip(&EDGES) {
        assert!(rt; are_numbers(row, numbers));
    }
    Ok(())
}

#[test]
fn the_last_of_two_thousand(rt: HostRuntime) -> Result<(), Fail> {
    let instance = sample_tables(rt.alloc(), 2000)?;
    let [persons, edges] = instance.tables.as_slice() else {
        return Err("not two tables")?;
    };
    assert_eq!(rt; persons.rows.as_slice().len(), 2000);
    assert_eq!(rt; edges.rows.as_slice().len(), 6000);
    let Some(person) = persons.rows.as_slice().last() else {
        return Err("no person")?;
    };
    assert!(rt; is_person(person, 2000, "P2000", 50));
    let Some(edge) = edges.rows.as_slice().last() else {
        return Err("no edge")?;
    };
    assert!(rt; are_numbers(edge, &[6000, 2000, 3, 2002]));
    Ok(())
}

#[test]
fn catalog_texts_and_summary(rt: HostRuntime) -> Result<(), Fail> {
    let catalog = sample_catalog(rt.alloc())?;
    assert_eq!(rt; catalog.tables.as_slice().len(), 2);
    assert_eq!(rt; catalog.graphs.as_slice().len(), 1);
    assert_eq!(rt; sample_schema().len(), 379);
    assert_eq!(rt; sample_query().len(), 97);
    let text = sample_summary(rt.alloc(), 5, 15, 27, 17)?;
    let due = "vertices 5\nedges 15\nrows 27\ndistinct 17\n";
    assert_eq!(rt; text.as_slice(), due.as_bytes());
    Ok(())
}
