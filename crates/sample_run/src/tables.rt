ghost use Rattle.std.specs.Prelude.{◌≡◌, ◌++◌, ◌≤◌, IfOk, OnOk, map};
ghost use Rattle.graph_ast.specs.Fits.{Fits};
ghost use Rattle.sample_run.specs.SampleCatalog.{sample_catalog};
ghost use Rattle.sample_run.specs.SampleRun.{knows_row, knows_rows, person_name, person_row, person_rows, rows_for, sample_rows, shown_rows, shown_tables};

use pgq_base::{Instance, List, NoMemory, Row, Rows, Text, Value};
use std::alloc::Global;

// The name of a person: a P, and the number.
fn person_name(alloc: Global, i: u32) -> Result<Text, NoMemory>
    ensures { IfOk result (λ name. name ≡ person_name i) }
{
    let mut name = String::from_str(alloc, "P")?;
    name.push_str(i.to_string(alloc)?.as_str())?;
    Text::from_text(alloc, name.as_str())
}

fn person(alloc: Global, i: u32) -> Result<Row, NoMemory>
    requires { i ≤ 2000 }
    ensures { IfOk result (λ row. row.values ≡ person_row i) }
{
    let mut values = List::new(alloc);
    values.push(Value::Number(i as i64))?;
    values.push(Value::Text(person_name(alloc, i)?))?;
    values.push(Value::Number((7 * i % 90) as i64))?;
    Ok(Row { values })
}

fn knows(alloc: Global, n: u32, i: u32, j: u32) -> Result<Row, NoMemory>
    requires some { 1 ≤ n }
    requires most { n ≤ 2000 }
    requires first { 1 ≤ i }
    requires person { i ≤ 2000 }
    requires edge { j ≤ 2 }
    ensures { IfOk result (λ row. row.values ≡ knows_row n i j) }
{
    let mut values = List::new(alloc);
    values.push(Value::Number((3 * (i - 1) + j + 1) as i64))?;
    values.push(Value::Number(i as i64))?;
    values.push(Value::Number((((j + 2) * i + j) % n + 1) as i64))?;
    values.push(Value::Number((2000 + (i + j) % 25) as i64))?;
    Ok(Row { values })
}

// The rows of PERSON.
fn persons(alloc: Global, n: u32) -> Result<Rows, NoMemory>
    requires { n ≤ 2000 }
    ensures { IfOk result (λ table. shown_rows table ≡ person_rows n) }
{
    let mut rows = List::new(alloc);
    for i in 0..n {
        rows.push(person(alloc, i + 1)?)?;
    }
    Ok(Rows { rows })
}

// Appends the rows of KNOWS that begin at a person.
fn push_edges(alloc: Global, rows: &mut List<Row>, n: u32, i: u32) -> Result<(), NoMemory>
    requires some { 1 ≤ n }
    requires most { n ≤ 2000 }
    requires first { 1 ≤ i }
    requires person { i ≤ 2000 }
    ensures { OnOk result (map (λ row. row.values) rows.new ≡ map (λ row. row.values) rows.old ++ rows_for n i) }
{
    rows.push(knows(alloc, n, i, 0)?)?;
    rows.push(knows(alloc, n, i, 1)?)?;
    rows.push(knows(alloc, n, i, 2)?)
}

// The rows of KNOWS.
fn edges(alloc: Global, n: u32) -> Result<Rows, NoMemory>
    requires some { 1 ≤ n }
    requires most { n ≤ 2000 }
    ensures { IfOk result (λ table. shown_rows table ≡ knows_rows n) }
{
    let mut rows = List::new(alloc);
    for i in 0..n {
        push_edges(alloc, &mut rows, n, i + 1)?;
    }
    Ok(Rows { rows })
}

fn made_tables(alloc: Global, n: u32) -> Result<Instance, NoMemory>
    requires some { 1 ≤ n }
    requires most { n ≤ 2000 }
    ensures { IfOk result (λ instance. shown_tables instance ≡ sample_rows n) }
{
    let mut tables = List::new(alloc);
    tables.push(persons(alloc, n)?)?;
    tables.push(edges(alloc, n)?)?;
    Ok(Instance { tables })
}

/// The tables of the generated run with `n` persons: PERSON has a row for each, and KNOWS has three rows
/// that begin at each. They fit the catalog of the run. The generator is this project's own.
pub fn sample_tables(alloc: Global, n: u32) -> Result<Instance, NoMemory>
    requires some { 1 ≤ n }
    requires most { n ≤ 2000 }
    ensures value { IfOk result (λ instance. shown_tables instance ≡ sample_rows n) }
    ensures fits { IfOk result (λ instance. Fits sample_catalog (shown_tables instance)) }
{
    made_tables(alloc, n)
}
