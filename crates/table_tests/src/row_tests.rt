ghost use Rattle.std.specs.Prelude.{◌≡◌, ◌<◌, IsTrue, length, chars, nat_le, pos, negsuc};
ghost use Rattle.multisets.specs.Bags.{IsIn};
ghost use Rattle.pgq_base.specs.Instances.{RowValues};
ghost use Rattle.graph_ast.specs.Fits.{IsBetween, IsValueOf, IsRowOf};
ghost use Rattle.row_eval.specs.Stored.{row_values, stored};
ghost use Rattle.row_eval.specs.Typed.{MeetsTypes};

use expr_tree::{Comparison, Expr};
use graph_ast::{Catalog, Column, ColumnType, Table};
use pgq_base::{Class, Instance, List, Name, NoMemory, Row, Rows, Text, Value};
use row_eval::{Steps, evaluate};
use sql_algebra::{ColumnLeaf, Conjunct, FromItem, Select, SelectColumn, SqlQuery, sound};
use sqlite_items::Boxed;
use std::alloc::Global;
use std::marker::Brand;
use std::sync::ledger::{Blank, Ledger};
use std::test::Fail;

type Cond = Expr<ColumnLeaf>;

fn number_fits(n: i64) -> bool
    ensures { IsTrue result → IsBetween (negsuc 2147483647) (pos 2147483647) n }
{
    n >= -2_147_483_648 && n <= 2_147_483_647
}

fn text_fits(text: &str, most: u32) -> bool
    ensures { result ≡ nat_le (length (chars text.now)) most }
{
    text.chars().count() <= most as usize
}

// Whether a value lies in a column of whole numbers or of texts.
fn value_fits(column: &Column, value: &Value) -> bool
    ensures { IsTrue result → IsValueOf column.now value.now }
{
    if column.not_null {
        return false;
    }
    match (column.kind, value) {
        (_, Value::Null) => true,
        (ColumnType::Integer, Value::Number(n)) => number_fits(*n),
        (ColumnType::VarChar(most), Value::Text(text)) => text_fits(text.as_text(), most),
        _ => false,
    }
}

fn row_fits(columns: &[Column], values: &[Value]) -> bool
    ensures { IsTrue result → IsRowOf columns.now values.now }
{
    if columns.len() != values.len() {
        return false;
    }
    for i in 0..columns.len() {
        if !value_fits(&columns[i], &values[i]) {
            return false;
        }
    }
    true
}

fn rows_fit(columns: &[Column], rows: &[Row]) -> bool
    ensures { IsTrue result → (row : RowValues) → IsIn row (row_values rows.now) → IsRowOf columns.now row }
{
    for row in rows {
        if !row_fits(columns, row.values.as_slice()) {
            return false;
        }
    }
    true
}

// Whether the rows meet the types of the tables.
fn all_fit(catalog: &Catalog, rows: &Instance) -> bool
    ensures { IsTrue result → MeetsTypes catalog.now (stored rows.now) }
{
    let tables = catalog.tables.as_slice();
    let stored = rows.tables.as_slice();
    if tables.len() >= 4_294_967_296 || tables.len() != stored.len() {
        return false;
    }
    for i in 0..tables.len() {
        if !rows_fit(tables[i].columns.as_slice(), stored[i].rows.as_slice()) {
            return false;
        }
    }
    true
}

fn name(alloc: Global, text: &str) -> Result<Name, Fail> {
    let bytes = text.as_bytes();
    if bytes.is_empty() || bytes.len() > 128 || std::str::from_utf8(bytes).is_err() {
        return Err("no name")?;
    }
    Ok(Name::from_bytes(alloc, bytes)?)
}

fn columns_of(alloc: Global, all: &[(&str, ColumnType)]) -> Result<List<Column>, Fail> {
    let mut columns = List::new(alloc);
    for (text, kind) in all {
        columns.push(Column {
            name: name(alloc, text)?,
            kind: *kind,
            not_null: false,
        })?;
    }
    Ok(columns)
}

fn table(alloc: Global, text: &str, columns: List<Column>) -> Result<Table, Fail> {
    Ok(Table {
        name: name(alloc, text)?,
        columns,
        keys: List::new(alloc),
        references: List::new(alloc),
    })
}

// The tables PERSON, KNOWS and ALONE.
fn catalog(alloc: Global) -> Result<Catalog, Fail> {
    let person = [
        ("ID", ColumnType::Integer),
        ("NAME", ColumnType::VarChar(20)),
        ("AGE", ColumnType::Integer),
    ];
    let knows = [
        ("ID", ColumnType::Integer),
        ("A", ColumnType::Integer),
        ("B", ColumnType::Integer),
        ("SINCE", ColumnType::Integer),
    ];
    let mut tables = List::new(alloc);
    tables.push(table(alloc, "PERSON", columns_of(alloc, &person)?)?)?;
    tables.push(table(alloc, "KNOWS", columns_of(alloc, &knows)?)?)?;
    tables.push(table(alloc, "ALONE", columns_of(alloc, &person)?)?)?;
    Ok(Catalog {
        tables,
        graphs: List::new(alloc),
    })
}

// A number, and Null for what is below 0.
fn number(n: i64) -> Value {
    if n < 0 { Value::Null } else { Value::Number(n) }
}

fn numbers(alloc: Global, all: &[i64]) -> Result<Row, NoMemory> {
    let mut values = List::new(alloc);
    for n in all {
        values.push(number(*n))?;
    }
    Ok(Row { values })
}

static PERSONS: [(i64, &str, i64); 3] = [(1, "Ann", 30), (2, "Bob", -1), (3, "Cy", 20)];

static KNOWN: [[i64; 4]; 8] = [
    [10, 1, 2, 2000],
    [11, 2, 3, -1],
    [12, 3, 1, 2010],
    [13, 1, 1, 2005],
    [14, 1, 2, 2015],
    [15, -1, 2, 2001],
    [16, 3, -1, 2002],
    [17, -1, -1, 2003],
];

fn persons_of(alloc: Global, all: &[(i64, &str, i64)]) -> Result<List<Row>, NoMemory> {
    let mut persons = List::new(alloc);
    for (id, text, age) in all {
        let mut values = List::new(alloc);
        values.push(number(*id))?;
        values.push(Value::Text(Text::from_text(alloc, text)?))?;
        values.push(number(*age))?;
        persons.push(Row { values })?;
    }
    Ok(persons)
}

// One row in ALONE.
fn instance(alloc: Global) -> Result<Instance, NoMemory> {
    let persons = persons_of(alloc, &PERSONS)?;
    let mut known = List::new(alloc);
    for edge in &KNOWN {
        known.push(numbers(alloc, edge)?)?;
    }
    let mut tables = List::new(alloc);
    tables.push(Rows { rows: persons })?;
    tables.push(Rows { rows: known })?;
    tables.push(Rows {
        rows: persons_of(alloc, &PERSONS[..1])?,
    })?;
    Ok(Instance { tables })
}

fn leaf(alloc: Global, alias: &str, column: &str) -> Result<Cond, Fail> {
    let class = if column == "NAME" {
        Class::Text
    } else {
        Class::Number
    };
    Ok(Expr::Leaf(ColumnLeaf {
        alias: name(alloc, alias)?,
        column: name(alloc, column)?,
        class,
    }))
}

fn equal(alloc: Global, a: (&str, &str), b: (&str, &str)) -> Result<Cond, Fail> {
    let left = Boxed::new(alloc, leaf(alloc, a.0, a.1)?)?;
    let right = Boxed::new(alloc, leaf(alloc, b.0, b.1)?)?;
    Ok(Expr::Compare(Comparison::Equal, left, right))
}

fn both(alloc: Global, first: Cond, second: Cond) -> Result<List<Cond>, NoMemory> {
    let mut list = List::new(alloc);
    list.push(first)?;
    list.push(second)?;
    Ok(list)
}

fn item(alloc: Global, table: &str, alias: &str) -> Result<FromItem, Fail> {
    Ok(FromItem {
        table: name(alloc, table)?,
        alias: name(alloc, alias)?,
        on: None,
    })
}

fn joined(alloc: Global, table: &str, alias: &str, on: Cond) -> Result<FromItem, Fail> {
    let mut members = List::new(alloc);
    members.push(on)?;
    Ok(FromItem {
        table: name(alloc, table)?,
        alias: name(alloc, alias)?,
        on: Some(members),
    })
}

fn column(alloc: Global, alias: &str, text: &str) -> Result<SelectColumn, Fail> {
    Ok(SelectColumn {
        value: leaf(alloc, alias, "NAME")?,
        name: name(alloc, text)?,
    })
}

fn one_of(alloc: Global, select: Select) -> Result<SqlQuery, NoMemory> {
    let mut selects = List::new(alloc);
    selects.push(select)?;
    Ok(SqlQuery { selects })
}

// The numbers of the names of a row, the first one's tens; a row with a Null is 0.
fn mark_of(row: &Row) -> u32 {
    let mut mark = 0;
    for value in row.values.as_slice() {
        if let Value::Text(text) = value {
            let digit = match text.as_text() {
                "Ann" => 1,
                "Bob" => 2,
                _ => 3,
            };
            if mark < 1000 {
                mark = mark * 10 + digit;
            }
        }
    }
    mark
}

// The marks of the rows that a query means.
fn marks<L: Ledger>(alloc: Global, query: &SqlQuery, blank: Blank) -> Result<Vec<u32>, Fail>
    requires name { blank.name ≡ L.name }
    requires parts { blank.parts ≡ L.parts }
    requires some { 0 < blank.parts }
{
    let (book, share) = blank.open::<L>();
    let mut steps = Steps::new(book, share);
    let catalog = catalog(alloc)?;
    let rows = instance(alloc)?;
    if !sound(query, &catalog) || !all_fit(&catalog, &rows) {
        return Err("no query over these rows")?;
    }
    let answer = match evaluate(alloc, query, &catalog, &rows, &mut steps) {
        Ok(answer) => answer,
        Err(_) => return Err("stopped")?,
    };
    let mut marks = Vec::new(alloc);
    for row in answer.rows.as_slice() {
        marks.push(mark_of(row))?;
    }
    Ok(marks)
}

fn marks_of(alloc: Global, query: &SqlQuery) -> Result<Vec<u32>, Fail> {
    marks::<Brand>(alloc, query, Blank::new(1))
}

// One edge between two vertices, in the joined form.
fn one_edge(alloc: Global) -> Result<Select, Fail> {
    let mut columns = List::new(alloc);
    columns.push(column(alloc, "A0", "X")?)?;
    columns.push(column(alloc, "A2", "Y")?)?;
    let mut from = List::new(alloc);
    from.push(item(alloc, "PERSON", "A0")?)?;
    from.push(joined(
        alloc,
        "KNOWS",
        "A1",
        equal(alloc, ("A1", "A"), ("A0", "ID"))?,
    )?)?;
    from.push(joined(
        alloc,
        "PERSON",
        "A2",
        equal(alloc, ("A1", "B"), ("A2", "ID"))?,
    )?)?;
    Ok(Select {
        columns,
        from,
        conjuncts: List::new(alloc),
    })
}

// An edge that begins at the one person and ends at the other.
fn edge_from(alloc: Global, edge: &str, first: &str, second: &str) -> Result<Cond, Fail> {
    let begins = equal(alloc, (edge, "A"), (first, "ID"))?;
    let ends = equal(alloc, (edge, "B"), (second, "ID"))?;
    Ok(Expr::All(both(alloc, begins, ends)?))
}

// An edge between two persons in any direction.
fn edge_between(alloc: Global, edge: &str, first: &str, second: &str) -> Result<Cond, Fail> {
    let there = edge_from(alloc, edge, first, second)?;
    let back = edge_from(alloc, edge, second, first)?;
    Ok(Expr::Any(both(alloc, there, back)?))
}

// One edge in any direction: an OR in the WHERE.
fn any_direction(alloc: Global) -> Result<Select, Fail> {
    let mut columns = List::new(alloc);
    columns.push(column(alloc, "A0", "X")?)?;
    columns.push(column(alloc, "A2", "Y")?)?;
    let mut from = List::new(alloc);
    from.push(item(alloc, "PERSON", "A0")?)?;
    from.push(item(alloc, "KNOWS", "A1")?)?;
    from.push(item(alloc, "PERSON", "A2")?)?;
    let mut conjuncts = List::new(alloc);
    conjuncts.push(Conjunct::Plain(edge_between(alloc, "A1", "A0", "A2")?))?;
    Ok(Select {
        columns,
        from,
        conjuncts,
    })
}

// Joins an edge in any direction from a person to a further one.
fn join_edge(
    alloc: Global,
    from: &mut List<FromItem>,
    edge: &str,
    first: &str,
    second: &str,
) -> Result<(), Fail> {
    let yes = Expr::Lit(Value::Truth(true));
    from.push(joined(alloc, "KNOWS", edge, yes)?)?;
    let between = edge_between(alloc, edge, first, second)?;
    from.push(joined(alloc, "PERSON", second, between)?)?;
    Ok(())
}

// One edge in any direction, in the joined form.
fn any_joined(alloc: Global) -> Result<Select, Fail> {
    let mut columns = List::new(alloc);
    columns.push(column(alloc, "A0", "X")?)?;
    columns.push(column(alloc, "A2", "Y")?)?;
    let mut from = List::new(alloc);
    from.push(item(alloc, "PERSON", "A0")?)?;
    join_edge(alloc, &mut from, "A1", "A0", "A2")?;
    Ok(Select {
        columns,
        from,
        conjuncts: List::new(alloc),
    })
}

// Two edges in any direction, one behind the other.
fn two_joined(alloc: Global) -> Result<Select, Fail> {
    let mut columns = List::new(alloc);
    columns.push(column(alloc, "A0", "X")?)?;
    columns.push(column(alloc, "A2", "Y")?)?;
    columns.push(column(alloc, "A4", "Z")?)?;
    let mut from = List::new(alloc);
    from.push(item(alloc, "PERSON", "A0")?)?;
    join_edge(alloc, &mut from, "A1", "A0", "A2")?;
    join_edge(alloc, &mut from, "A3", "A2", "A4")?;
    Ok(Select {
        columns,
        from,
        conjuncts: List::new(alloc),
    })
}

// The pairs of persons without an edge between them.
fn apart(alloc: Global) -> Result<Select, Fail> {
    let mut columns = List::new(alloc);
    columns.push(SelectColumn {
        value: Expr::Lit(Value::Number(1)),
        name: name(alloc, "C")?,
    })?;
    let mut from = List::new(alloc);
    from.push(item(alloc, "KNOWS", "A1")?)?;
    let mut conjuncts = List::new(alloc);
    conjuncts.push(Conjunct::Plain(edge_between(alloc, "A1", "A0", "A2")?))?;
    let inner = Select {
        columns,
        from,
        conjuncts,
    };
    let mut columns = List::new(alloc);
    columns.push(column(alloc, "A0", "X")?)?;
    columns.push(column(alloc, "A2", "Y")?)?;
    let mut from = List::new(alloc);
    from.push(item(alloc, "PERSON", "A0")?)?;
    from.push(item(alloc, "PERSON", "A2")?)?;
    let mut conjuncts = List::new(alloc);
    conjuncts.push(Conjunct::NotExists(Boxed::new(alloc, inner)?))?;
    Ok(Select {
        columns,
        from,
        conjuncts,
    })
}

// The persons whose age is above 25.
fn older(alloc: Global) -> Result<Select, Fail> {
    let mut columns = List::new(alloc);
    columns.push(column(alloc, "A0", "N")?)?;
    let mut from = List::new(alloc);
    from.push(item(alloc, "PERSON", "A0")?)?;
    let age = Boxed::new(alloc, leaf(alloc, "A0", "AGE")?)?;
    let least = Boxed::new(alloc, Expr::Lit(Value::Number(25)))?;
    let mut conjuncts = List::new(alloc);
    conjuncts.push(Conjunct::Plain(Expr::Compare(Comparison::Greater, age, least)))?;
    Ok(Select {
        columns,
        from,
        conjuncts,
    })
}

// One edge between two vertices that differ, by NOT EXISTS.
fn no_loop(alloc: Global) -> Result<Select, Fail> {
    let mut columns = List::new(alloc);
    columns.push(SelectColumn {
        value: Expr::Lit(Value::Number(1)),
        name: name(alloc, "C")?,
    })?;
    let mut from = List::new(alloc);
    from.push(item(alloc, "PERSON", "S0")?)?;
    let mut conjuncts = List::new(alloc);
    conjuncts.push(Conjunct::Plain(equal(alloc, ("S0", "ID"), ("A0", "ID"))?))?;
    conjuncts.push(Conjunct::Plain(equal(alloc, ("S0", "ID"), ("A2", "ID"))?))?;
    let inner = Select {
        columns,
        from,
        conjuncts,
    };
    let Select { columns, from, .. } = one_edge(alloc)?;
    let mut conjuncts = List::new(alloc);
    conjuncts.push(Conjunct::NotExists(Boxed::new(alloc, inner)?))?;
    Ok(Select {
        columns,
        from,
        conjuncts,
    })
}

// The pairs of persons of one age, which no Null is.
fn one_age(alloc: Global) -> Result<Select, Fail> {
    let mut columns = List::new(alloc);
    columns.push(column(alloc, "A0", "X")?)?;
    columns.push(column(alloc, "A1", "Y")?)?;
    let mut from = List::new(alloc);
    from.push(item(alloc, "PERSON", "A0")?)?;
    from.push(joined(
        alloc,
        "PERSON",
        "A1",
        equal(alloc, ("A1", "AGE"), ("A0", "AGE"))?,
    )?)?;
    Ok(Select {
        columns,
        from,
        conjuncts: List::new(alloc),
    })
}

// The condition that joins an item of a chain: its key is that of the item before it, or none.
fn link(alloc: Global, keyed: bool, alias: &str, earlier: &str) -> Result<Cond, Fail> {
    if keyed {
        equal(alloc, (alias, "ID"), (earlier, "ID"))
    } else {
        Ok(Expr::Lit(Value::Truth(true)))
    }
}

// A chain of items of the table with one row.
fn long_chain(alloc: Global, count: usize, keyed: bool) -> Result<Select, Fail> {
    let mut from = List::new(alloc);
    from.push(item(alloc, "ALONE", "A0")?)?;
    let mut earlier = format!(in alloc; "A0")?;
    for number in 1..count {
        let alias = format!(in alloc; "A{number}")?;
        let on = link(alloc, keyed, alias.as_str(), earlier.as_str())?;
        from.push(joined(alloc, "ALONE", alias.as_str(), on)?)?;
        earlier = alias;
    }
    let mut columns = List::new(alloc);
    columns.push(column(alloc, "A0", "X")?)?;
    columns.push(column(alloc, earlier.as_str(), "Y")?)?;
    Ok(Select {
        columns,
        from,
        conjuncts: List::new(alloc),
    })
}

#[test]
fn thousands_of_items_are_joined_by_key(rt: HostRuntime) -> Result<(), Fail> {
    let alloc = rt.alloc();
    let query = one_of(alloc, long_chain(alloc, 2000, true)?)?;
    let marks = marks_of(alloc, &query)?;
    assert!(rt; marks.as_slice() == [11].as_slice());
    Ok(())
}

#[test]
fn thousands_of_items_are_joined_without_a_key(rt: HostRuntime) -> Result<(), Fail> {
    let alloc = rt.alloc();
    let query = one_of(alloc, long_chain(alloc, 5000, false)?)?;
    let marks = marks_of(alloc, &query)?;
    assert!(rt; marks.as_slice() == [11].as_slice());
    Ok(())
}

#[test]
fn an_edge_is_joined_in_the_order_of_its_tables(rt: HostRuntime) -> Result<(), Fail> {
    let alloc = rt.alloc();
    let query = one_of(alloc, one_edge(alloc)?)?;
    let marks = marks_of(alloc, &query)?;
    assert!(rt; marks.as_slice() == [12, 11, 12, 23, 31].as_slice());
    Ok(())
}

#[test]
fn an_edge_in_any_direction_counts_a_self_loop_once(rt: HostRuntime) -> Result<(), Fail> {
    let alloc = rt.alloc();
    let query = one_of(alloc, any_direction(alloc)?)?;
    let marks = marks_of(alloc, &query)?;
    assert!(rt; marks.as_slice() == [12, 13, 11, 12, 21, 23, 21, 32, 31].as_slice());
    Ok(())
}

#[test]
fn a_joined_edge_in_any_direction_has_the_same_rows(rt: HostRuntime) -> Result<(), Fail> {
    let alloc = rt.alloc();
    let query = one_of(alloc, any_joined(alloc)?)?;
    let marks = marks_of(alloc, &query)?;
    assert!(rt; marks.as_slice() == [12, 13, 11, 12, 21, 23, 21, 32, 31].as_slice());
    Ok(())
}

static TWO_EDGES: [u32; 29] = [
    121, 123, 121, 132, 131, 112, 113, 111, 112, 121, 123, 121, 212, 213, 211, 212, 232, 231, 212,
    213, 211, 212, 321, 323, 321, 312, 313, 311, 312,
];

#[test]
fn two_edges_in_any_direction_are_joined_in_order(rt: HostRuntime) -> Result<(), Fail> {
    let alloc = rt.alloc();
    let query = one_of(alloc, two_joined(alloc)?)?;
    let marks = marks_of(alloc, &query)?;
    assert!(rt; marks.as_slice() == TWO_EDGES.as_slice());
    Ok(())
}

#[test]
fn not_exists_looks_in_both_directions(rt: HostRuntime) -> Result<(), Fail> {
    let alloc = rt.alloc();
    let query = one_of(alloc, apart(alloc)?)?;
    let marks = marks_of(alloc, &query)?;
    assert!(rt; marks.as_slice() == [22, 33].as_slice());
    Ok(())
}

#[test]
fn an_unknown_age_is_not_above(rt: HostRuntime) -> Result<(), Fail> {
    let alloc = rt.alloc();
    let query = one_of(alloc, older(alloc)?)?;
    let marks = marks_of(alloc, &query)?;
    assert!(rt; marks.as_slice() == [1].as_slice());
    Ok(())
}

#[test]
fn not_exists_drops_the_self_loop(rt: HostRuntime) -> Result<(), Fail> {
    let alloc = rt.alloc();
    let query = one_of(alloc, no_loop(alloc)?)?;
    let marks = marks_of(alloc, &query)?;
    assert!(rt; marks.as_slice() == [12, 12, 23, 31].as_slice());
    Ok(())
}

#[test]
fn null_joins_no_null(rt: HostRuntime) -> Result<(), Fail> {
    let alloc = rt.alloc();
    let query = one_of(alloc, one_age(alloc)?)?;
    let marks = marks_of(alloc, &query)?;
    assert!(rt; marks.as_slice() == [11, 33].as_slice());
    Ok(())
}

#[test]
fn selects_come_one_after_another(rt: HostRuntime) -> Result<(), Fail> {
    let alloc = rt.alloc();
    let mut selects = List::new(alloc);
    selects.push(older(alloc)?)?;
    selects.push(older(alloc)?)?;
    let marks = marks_of(alloc, &SqlQuery { selects })?;
    assert!(rt; marks.as_slice() == [1, 1].as_slice());
    Ok(())
}
