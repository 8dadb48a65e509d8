ghost use Rattle.std.specs.Prelude.{◌≡◌, ◌<◌, ◌≤◌, ◌^◌, ◌∷◌, [], All, IfOk, IsTrue, IsUtf8, length};
ghost use Rattle.csv_tables.specs.Constraints.{HasNumbers, IsNumbered};

use civil_dates::date_of_text;
use csv_tables::{check_instance, read_table, write_rows};
use graph_ast::{Catalog, Column, ColumnType, Digits, Key, Reference, Table};
use pgq_base::{Decimal, Detail, Instance, List, Name, NoMemory, Row, Rows, Stop, Text, Value};
use std::alloc::Global;
use std::test::Fail;

fn name(alloc: Global, bytes: &[u8]) -> Result<Name, Fail> {
    if bytes.is_empty() || bytes.len() > 128 || std::str::from_utf8(bytes).is_err() {
        return Err("no name")?;
    }
    Ok(Name::from_bytes(alloc, bytes)?)
}

fn column(alloc: Global, bytes: &[u8], kind: ColumnType, not_null: bool) -> Result<Column, Fail> {
    Ok(Column {
        name: name(alloc, bytes)?,
        kind,
        not_null,
    })
}

fn one<T: Drop>(alloc: Global, item: T) -> Result<List<T>, NoMemory>
    ensures { IfOk result (λ list. list ≡ item ∷ []) }
{
    let mut list = List::new(alloc);
    list.push(item)?;
    Ok(list)
}

fn two<T: Drop>(alloc: Global, first: T, second: T) -> Result<List<T>, NoMemory>
    ensures { IfOk result (λ list. list ≡ first ∷ second ∷ []) }
{
    let mut list = List::new(alloc);
    list.push(first)?;
    list.push(second)?;
    Ok(list)
}

fn first_key(alloc: Global) -> Result<List<Key>, NoMemory>
    ensures { IfOk result (λ keys. All (λ key. IsNumbered key.columns) keys) }
{
    let columns = one(alloc, 0)?;
    one(
        alloc,
        Key {
            columns,
            primary: true,
        },
    )
}

// The first column is the primary key, and the second is unique.
fn two_keys(alloc: Global) -> Result<List<Key>, NoMemory>
    ensures { IfOk result (λ keys. All (λ key. IsNumbered key.columns) keys) }
{
    let first = Key {
        columns: one(alloc, 0)?,
        primary: true,
    };
    let second = Key {
        columns: one(alloc, 1)?,
        primary: false,
    };
    two(alloc, first, second)
}

fn person(alloc: Global) -> Result<Table, Fail>
    ensures columns { IfOk result (λ t. length t.columns ≡ 3) }
    ensures numbers { IfOk result (λ t. HasNumbers t) }
{
    let mut columns = List::new(alloc);
    columns.push(column(alloc, b"ID", ColumnType::Integer, true)?)?;
    columns.push(column(alloc, b"NAME", ColumnType::VarChar(20), false)?)?;
    columns.push(column(alloc, b"AGE", ColumnType::SmallInt, false)?)?;
    Ok(Table {
        name: name(alloc, b"PERSON")?,
        columns,
        keys: first_key(alloc)?,
        references: List::new(alloc),
    })
}

// Decimals of 8 digits, 2 of them behind the point, and dates.
fn item(alloc: Global) -> Result<Table, Fail>
    ensures { IfOk result (λ t. length t.columns ≡ 3) }
{
    let price = ColumnType::Decimal(Digits {
        precision: 8,
        scale: 2,
    });
    let mut columns = List::new(alloc);
    columns.push(column(alloc, b"ID", ColumnType::Integer, true)?)?;
    columns.push(column(alloc, b"PRICE", price, false)?)?;
    columns.push(column(alloc, b"MADE", ColumnType::Date, false)?)?;
    Ok(Table {
        name: name(alloc, b"ITEM")?,
        columns,
        keys: first_key(alloc)?,
        references: List::new(alloc),
    })
}

// A price is a key, and so is a date.
fn prices(alloc: Global) -> Result<Table, Fail>
    ensures columns { IfOk result (λ t. length t.columns ≡ 2) }
    ensures numbers { IfOk result (λ t. HasNumbers t) }
{
    let price = ColumnType::Decimal(Digits {
        precision: 4,
        scale: 1,
    });
    let mut columns = List::new(alloc);
    columns.push(column(alloc, b"P", price, true)?)?;
    columns.push(column(alloc, b"ON", ColumnType::Date, false)?)?;
    Ok(Table {
        name: name(alloc, b"PRICE")?,
        columns,
        keys: two_keys(alloc)?,
        references: List::new(alloc),
    })
}

fn to_person(alloc: Global, column: u32) -> Result<Reference, NoMemory>
    ensures { IfOk result (λ r. r.columns ≡ column ∷ []) }
{
    Ok(Reference {
        columns: one(alloc, column)?,
        table: 0,
        targets: one(alloc, 0)?,
    })
}

fn knows(alloc: Global) -> Result<Table, Fail>
    ensures columns { IfOk result (λ t. length t.columns ≡ 4) }
    ensures numbers { IfOk result (λ t. HasNumbers t) }
{
    let mut columns = List::new(alloc);
    columns.push(column(alloc, b"ID", ColumnType::Integer, true)?)?;
    columns.push(column(alloc, b"A", ColumnType::Integer, false)?)?;
    columns.push(column(alloc, b"B", ColumnType::Integer, false)?)?;
    columns.push(column(alloc, b"SINCE", ColumnType::Integer, false)?)?;
    let mut references = List::new(alloc);
    references.push(to_person(alloc, 1)?)?;
    references.push(to_person(alloc, 2)?)?;
    Ok(Table {
        name: name(alloc, b"KNOWS")?,
        columns,
        keys: first_key(alloc)?,
        references,
    })
}

// The number of the code, the row and the column of a refusal, or zeros.
fn outcome(stop: Stop) -> (u32, u64, u32) {
    match stop {
        Stop::Refused(refusal) => {
            let number = refusal.code.number();
            match refusal.detail {
                Detail::At { row, column, .. } => (number, row, column),
                Detail::Nothing => (number, 0, 0),
            }
        }
        Stop::NoMemory => (0, 0, 0),
    }
}

fn refused(alloc: Global, table: &Table, text: &[u8]) -> (u32, u64, u32)
    requires { length table.now.columns < 2 ^ 32 }
{
    match read_table(alloc, text, table) {
        Ok(_) => (0, 0, 0),
        Err(stop) => outcome(stop),
    }
}

static REFUSED: [(&[u8], (u32, u64, u32)); 23] = [
    (b"", (901, 0, 0)),
    (b"\n\r\n\n", (901, 0, 0)),
    (b"\xEF\xBB\xBF", (901, 0, 0)),
    (b"id,name\n1,Ann\n", (901, 0, 0)),
    (b"id,na", (901, 0, 0)),
    (b"id,id,name\n", (901, 0, 0)),
    (b"id,name,age,x\n", (901, 0, 0)),
    (b"id,name,AGE\n1,Ann,30\n2,Bob\n", (902, 2, 0)),
    (b"id,name,age\n1,Ann,30\n2,Bo", (902, 2, 0)),
    (b"id,name,age\n1,\xff", (902, 1, 0)),
    (b"id,name,age\n1,\xff,x", (903, 1, 2)),
    (b"id,name,age\nx,Ann,30\n", (903, 1, 1)),
    (b"id,name,age\n\n1,Ann,30\n\n\nx,Bob,1\n", (903, 2, 1)),
    (b"id,name,age\n1,\\x,30\n", (903, 1, 2)),
    (b"id,name,age\n1,\\,30\n", (903, 1, 2)),
    (b"id,name,age\n+1,Ann,30\n", (903, 1, 1)),
    (b"id,name,age\n-,Ann,30\n", (903, 1, 1)),
    (b"id,name,age\n1,Ann,32768\n", (903, 1, 3)),
    (b"id,name,age\n2147483648,Ann,1\n", (903, 1, 1)),
    (b"id,name,age\n99999999999999999999,Ann,1\n", (903, 1, 1)),
    (b"id,name,age\n\\N,Ann,30\n", (904, 1, 1)),
    (b"id,name,age\n,Ann,30\n", (904, 1, 1)),
    (b"age,name,id\nx,Ann,\\N\n", (904, 1, 1)),
];

#[test]
fn faults_of_texts(rt: HostRuntime) -> Result<(), Fail> {
    let table = person(rt.alloc())?;
    for (text, due) in &REFUSED {
        assert!(rt; refused(rt.alloc(), &table, text) == *due);
    }
    Ok(())
}

static ITEMS_REFUSED: [(&[u8], (u32, u64, u32)); 18] = [
    (b"id,price,made\n1,12.345,\\N\n", (903, 1, 2)),
    (b"id,price,made\n1,1234567,\n", (903, 1, 2)),
    (b"id,price,made\n1,1000000.0,\n", (903, 1, 2)),
    (b"id,price,made\n1,99999999999999999999.5,\n", (903, 1, 2)),
    (b"id,price,made\n1,-,\n", (903, 1, 2)),
    (b"id,price,made\n1,1.,\n", (903, 1, 2)),
    (b"id,price,made\n1,.5,\n", (903, 1, 2)),
    (b"id,price,made\n1,1.2.3,\n", (903, 1, 2)),
    (b"id,price,made\n1,+1,\n", (903, 1, 2)),
    (b"id,price,made\n1,1e3,\n", (903, 1, 2)),
    (b"id,price,made\n1,1.2 ,\n", (903, 1, 2)),
    (b"id,price,made\n1,1,2023-02-29\n", (903, 1, 3)),
    (b"id,price,made\n1,,2024-2-29\n", (903, 1, 3)),
    (b"id,price,made\n1,,0000-12-31\n", (903, 1, 3)),
    (b"id,price,made\n1,,20240229\n", (903, 1, 3)),
    (b"id,price,made\n1,,2024-02-29 \n", (903, 1, 3)),
    (b"id,price,made\n1,x,x\n", (903, 1, 2)),
    (b"id,price,made\n,1,\n", (904, 1, 1)),
];

#[test]
fn faults_of_items(rt: HostRuntime) -> Result<(), Fail> {
    let table = item(rt.alloc())?;
    for (text, due) in &ITEMS_REFUSED {
        assert!(rt; refused(rt.alloc(), &table, text) == *due);
    }
    Ok(())
}

fn are_wide(rows: &[Row], width: usize) -> bool
    ensures { IsTrue result → All (λ row. length row.values ≡ width) rows.now }
{
    rows.iter().all(|row| row.values.as_slice().len() == width)
}

fn names_of(alloc: Global, columns: &[Column]) -> Result<List<Name>, NoMemory> {
    let mut names = List::new(alloc);
    for column in columns {
        names.push(column.name.copy(alloc)?)?;
    }
    Ok(names)
}

fn rows_of(alloc: Global, table: &Table, text: &[u8]) -> Result<Rows, Fail>
    requires { length table.now.columns < 2 ^ 32 }
{
    match read_table(alloc, text, table) {
        Ok(rows) => Ok(rows),
        Err(_) => Err("refused")?,
    }
}

// The text of the rows of a text.
fn again(alloc: Global, table: &Table, text: &[u8]) -> Result<List<u8>, Fail>
    requires { length table.now.columns < 2 ^ 32 }
{
    let names = names_of(alloc, table.columns.as_slice())?;
    let names = names.as_slice();
    let rows = rows_of(alloc, table, text)?;
    let rows = rows.rows.as_slice();
    if names.is_empty() || !are_wide(rows, names.len()) {
        return Err("ragged")?;
    }
    Ok(write_rows(alloc, names, rows)?)
}

static TEXTS: [(&[u8], &[u8]); 11] = [
    (
        b"id,name,age\n3,Cy,20\n1,Ann,30\n2,Bob,\\N\n",
        b"ID,NAME,AGE\n1,Ann,30\n2,Bob,\\N\n3,Cy,20\n",
    ),
    (
        b"id,name,age\n1,Ann,30\n3,Cy,2",
        b"ID,NAME,AGE\n1,Ann,30\n3,Cy,2\n",
    ),
    (b"id,name,age", b"ID,NAME,AGE\n"),
    (
        b"\xEF\xBB\xBFage,Id,NAME\r\n7,1,x\r\n",
        b"ID,NAME,AGE\n1,x,7\n",
    ),
    (b"id,name,age\n1,\\\\x,30\n", b"ID,NAME,AGE\n1,\\\\x,30\n"),
    (b"id,name,age\n1,\"\",30\n", b"ID,NAME,AGE\n1,,30\n"),
    (b"id,name,age\n1,\"\\N\",\n", b"ID,NAME,AGE\n1,\\N,\\N\n"),
    (
        b"id,name,age\n1,\"a,\"\"b\",5\n",
        b"ID,NAME,AGE\n1,\"a,\"\"b\",5\n",
    ),
    (
        b"id,name,age\n00000000000000000000000001,x,-0\n",
        b"ID,NAME,AGE\n1,x,0\n",
    ),
    (
        b"id,name,age\n-2147483648,x,-32768\n2147483647,y,32767\n",
        b"ID,NAME,AGE\n-2147483648,x,-32768\n2147483647,y,32767\n",
    ),
    (
        b"id,name,age\n1,\xC3\xA9\xC3\xA9\xC3\xA9\xC3\xA9\xC3\xA9\xC3\xA9\xC3\xA9\xC3\xA9\xC3\xA9\xC3\xA9\xC3\xA9\xC3\xA9\xC3\xA9\xC3\xA9\xC3\xA9\xC3\xA9\xC3\xA9\xC3\xA9\xC3\xA9\xC3\xA9,1\n",
        b"ID,NAME,AGE\n1,\xC3\xA9\xC3\xA9\xC3\xA9\xC3\xA9\xC3\xA9\xC3\xA9\xC3\xA9\xC3\xA9\xC3\xA9\xC3\xA9\xC3\xA9\xC3\xA9\xC3\xA9\xC3\xA9\xC3\xA9\xC3\xA9\xC3\xA9\xC3\xA9\xC3\xA9\xC3\xA9,1\n",
    ),
];

#[test]
fn texts_and_back(rt: HostRuntime) -> Result<(), Fail> {
    let table = person(rt.alloc())?;
    for (text, due) in &TEXTS {
        let shown = again(rt.alloc(), &table, text)?;
        assert!(rt; shown.as_slice() == *due);
    }
    Ok(())
}

static ITEM_TEXTS: [(&[u8], &[u8]); 5] = [
    (
        b"id,price,made\n1,12.50,2024-02-29\n2,7,2023-12-31\n3,-0.05,\\N\n",
        b"ID,PRICE,MADE\n1,12.5,2024-02-29\n2,7,2023-12-31\n3,-0.05,\\N\n",
    ),
    (
        b"id,price,made\n1,0000999999.9900000000000000000000,0001-01-01\n",
        b"ID,PRICE,MADE\n1,999999.99,0001-01-01\n",
    ),
    (
        b"id,price,made\n1,-0.00,9999-12-31\n",
        b"ID,PRICE,MADE\n1,0,9999-12-31\n",
    ),
    (
        b"made,price,id\n,-000.10,1\n",
        b"ID,PRICE,MADE\n1,-0.1,\\N\n",
    ),
    (
        b"id,price,made\n2,-999999.99,\n1,007,1970-01-01\n",
        b"ID,PRICE,MADE\n1,7,1970-01-01\n2,-999999.99,\\N\n",
    ),
];

#[test]
fn items_and_back(rt: HostRuntime) -> Result<(), Fail> {
    let table = item(rt.alloc())?;
    for (text, due) in &ITEM_TEXTS {
        let shown = again(rt.alloc(), &table, text)?;
        assert!(rt; shown.as_slice() == *due);
    }
    Ok(())
}

fn catalog(alloc: Global) -> Result<Catalog, Fail>
    ensures { IfOk result (λ c. All HasNumbers c.tables) }
{
    let mut tables = List::new(alloc);
    tables.push(person(alloc)?)?;
    tables.push(knows(alloc)?)?;
    Ok(Catalog {
        tables,
        graphs: List::new(alloc),
    })
}

// What the check answers of the rows of the two texts.
fn judged(alloc: Global, persons: &[u8], acquaintances: &[u8]) -> Result<(u32, u64, u32), Fail> {
    let catalog = catalog(alloc)?;
    let mut tables = List::new(alloc);
    tables.push(rows_of(alloc, &person(alloc)?, persons)?)?;
    tables.push(rows_of(alloc, &knows(alloc)?, acquaintances)?)?;
    match check_instance(alloc, &catalog, &Instance { tables }) {
        Ok(()) => Ok((0, 0, 0)),
        Err(stop) => Ok(outcome(stop)),
    }
}

// What the check answers of the prices of a text.
fn judged_prices(alloc: Global, text: &[u8]) -> Result<(u32, u64, u32), Fail> {
    let rows = rows_of(alloc, &prices(alloc)?, text)?;
    let catalog = Catalog {
        tables: one(alloc, prices(alloc)?)?,
        graphs: List::new(alloc),
    };
    let tables = one(alloc, rows)?;
    match check_instance(alloc, &catalog, &Instance { tables }) {
        Ok(()) => Ok((0, 0, 0)),
        Err(stop) => Ok(outcome(stop)),
    }
}

static PRICED: [(&[u8], (u32, u64, u32)); 5] = [
    (b"p,on\n1.50,2024-02-29\n1.5,\n", (905, 2, 1)),
    (b"p,on\n2.0,2024-02-29\n3,\n2,2024-02-29\n", (905, 3, 1)),
    (b"p,on\n2.1,2024-02-29\n2.2,2024-02-29\n", (905, 2, 2)),
    (b"p,on\n2.1,\n2.2,\n", (0, 0, 0)),
    (b"p,on\n-2.1,2024-02-29\n2.1,2024-02-28\n", (0, 0, 0)),
];

#[test]
fn repeated_prices(rt: HostRuntime) -> Result<(), Fail> {
    for (text, due) in &PRICED {
        assert!(rt; judged_prices(rt.alloc(), text)? == *due);
    }
    Ok(())
}

const PERSONS: &[u8] = b"id,name,age\n1,Ann,30\n2,Bob,\\N\n3,Cy,20\n";

static KNOWN: [(&[u8], (u32, u64, u32)); 8] = [
    (
        b"id,a,b,since\n10,1,2,2000\n11,2,3,\\N\n12,3,1,2010\n13,1,1,2005\n14,1,2,2015\n",
        (0, 0, 0),
    ),
    (b"id,a,b,since\n10,9,2,2000\n", (906, 1, 2)),
    (b"id,a,b,since\n10,1,9,2000\n", (906, 1, 3)),
    (b"id,a,b,since\n10,,2,2000\n11,2,\\N,1\n", (0, 0, 0)),
    (b"id,a,b,since\n10,1,2,1\n10,9,2,1\n", (905, 2, 1)),
    (b"id,a,b,since\n10,9,2,1\n10,1,2,1\n", (906, 1, 2)),
    (
        b"id,a,b,since\n10,1,2,1\n11,1,2,1\n12,1,2,1\n11,1,2,1\n",
        (905, 4, 1),
    ),
    (b"id,a,b,since\n", (0, 0, 0)),
];

#[test]
fn broken_constraints(rt: HostRuntime) -> Result<(), Fail> {
    for (text, due) in &KNOWN {
        assert!(rt; judged(rt.alloc(), PERSONS, text)? == *due);
    }
    let twice = b"id,name,age\n1,Ann,30\n2,Bob,\\N\n3,Cy,20\n1,Dee,5\n";
    assert!(rt; judged(rt.alloc(), twice, b"id,a,b,since\n10,9,2,2000\n")? == (905, 4, 1));
    Ok(())
}

fn add_row(alloc: Global, rows: &mut List<Row>, value: Value) -> Result<(), NoMemory> {
    rows.push(Row {
        values: one(alloc, value)?,
    })
}

// One column with a value of each kind.
#[test]
fn one_column(rt: HostRuntime) -> Result<(), Fail> {
    let alloc = rt.alloc();
    let names = one(alloc, name(alloc, b"\\N")?)?;
    let date = date_of_text(b"2024-02-29").ok_or("no date")?;
    let decimal = Decimal {
        unscaled: -65,
        scale: 1,
    };
    let mut rows = List::new(alloc);
    add_row(alloc, &mut rows, Value::Text(Text::from_text(alloc, "")?))?;
    add_row(alloc, &mut rows, Value::Date(date))?;
    add_row(alloc, &mut rows, Value::Decimal(decimal))?;
    add_row(alloc, &mut rows, Value::Number(-7))?;
    add_row(alloc, &mut rows, Value::Truth(true))?;
    add_row(alloc, &mut rows, Value::Null)?;
    if !are_wide(rows.as_slice(), 1) {
        return Err("ragged")?;
    }
    let text = write_rows(alloc, names.as_slice(), rows.as_slice())?;
    let due = b"\\N\n\\N\ntrue\n-7\n-6.5\n2024-02-29\n\"\"\n".as_slice();
    assert!(rt; text.as_slice() == due);
    Ok(())
}
