use graph_ast::{Catalog, Column, ColumnType, Table};
use pgq_base::{Class, List, Name, NoMemory, Role, Stop};
use sql_lexer::{Token, lex};
use sql_reader::read_sql;
use std::alloc::Global;
use std::test::Fail;

const MOST_BYTES: usize = 1048576;

fn name(alloc: Global, text: &str) -> Result<Name, NoMemory> {
    let bytes = text.as_bytes();
    if bytes.is_empty() || bytes.len() > 128 {
        return Err(NoMemory);
    }
    Name::from_bytes(alloc, bytes)
}

fn kind_of(class: Class) -> ColumnType {
    match class {
        Class::Number => ColumnType::Integer,
        Class::Text => ColumnType::VarChar(20),
        Class::Truth => ColumnType::Boolean,
        Class::Date => ColumnType::Date,
    }
}

fn columns(alloc: Global, given: &[(&str, Class)]) -> Result<List<Column>, NoMemory> {
    let mut columns = List::new(alloc);
    for (text, class) in given {
        let name = name(alloc, text)?;
        columns.push(Column {
            name,
            kind: kind_of(*class),
            not_null: false,
        })?;
    }
    Ok(columns)
}

fn table(alloc: Global, text: &str, given: &[(&str, Class)]) -> Result<Table, NoMemory> {
    let columns = columns(alloc, given)?;
    let name = name(alloc, text)?;
    Ok(Table {
        name,
        columns,
        keys: List::new(alloc),
        references: List::new(alloc),
    })
}

static PERSON: [(&str, Class); 4] = [
    ("ID", Class::Number),
    ("NAME", Class::Text),
    ("OK", Class::Truth),
    ("BORN", Class::Date),
];

static KNOWS: [(&str, Class); 3] = [
    ("A", Class::Number),
    ("B", Class::Number),
    ("SINCE", Class::Date),
];

fn catalog(alloc: Global) -> Result<Catalog, NoMemory> {
    let mut tables = List::new(alloc);
    let person = table(alloc, "PERSON", &PERSON)?;
    tables.push(person)?;
    let knows = table(alloc, "KNOWS", &KNOWS)?;
    tables.push(knows)?;
    Ok(Catalog {
        tables,
        graphs: List::new(alloc),
    })
}

fn tokens_of(alloc: Global, text: &str) -> Result<List<Token>, Fail> {
    let bytes = text.as_bytes();
    if bytes.len() > MOST_BYTES {
        return Err("the text is too long")?;
    }
    match lex(alloc, bytes, Role::Sql) {
        Ok(tokens) => Ok(tokens),
        Err(_) => Err("the text has no tokens")?,
    }
}

// `ok`, or the code and the bytes of the refusal.
fn verdict(alloc: Global, tokens: &[Token], end: u32, catalog: &Catalog) -> Result<String, Fail> {
    match read_sql(alloc, tokens, end, catalog) {
        Ok(_) => Ok(String::from_str(alloc, "ok")?),
        Err(Stop::NoMemory) => Ok(String::from_str(alloc, "no memory")?),
        Err(Stop::Refused(refusal)) => {
            let code = refusal.code.number();
            let from = refusal.span.from;
            let to = refusal.span.to;
            if refusal.role == Role::Sql {
                Ok(format!(in alloc; "{code} {from}-{to}")?)
            } else {
                Ok(String::from_str(alloc, "another role")?)
            }
        }
    }
}

fn verdict_of(alloc: Global, text: &str, catalog: &Catalog) -> Result<String, Fail> {
    let tokens = tokens_of(alloc, text)?;
    if text.len() > MOST_BYTES {
        return Err("the text is too long")?;
    }
    verdict(alloc, tokens.as_slice(), text.len() as u32, catalog)
}

// Texts and what is said of each: unknown tables, aliases and columns, names that stand twice.
static NAMES: [(&str, &str); 20] = [
    ("SELECT p.id AS x FROM person AS p", "ok"),
    ("SELECT p.id AS x FROM persons AS p", "304 22-29"),
    ("SELECT p.idd AS x FROM persons AS p", "304 23-30"),
    ("SELECT p.idd AS x FROM person AS p", "303 9-12"),
    ("SELECT q.id AS x FROM person AS p", "303 7-8"),
    (
        "SELECT p.id AS x, p.name AS x FROM person AS p",
        "609 28-29",
    ),
    ("SELECT p.id AS x FROM person AS p, knows AS p", "609 44-45"),
    ("SELECT p.a AS x FROM person AS p, knows AS p", "303 9-10"),
    (
        "SELECT 1 AS x FROM person AS p JOIN knows AS k ON k.a = p.id",
        "ok",
    ),
    (
        "SELECT 1 AS x FROM person AS p, knows AS k JOIN person AS q ON q.id = p.id",
        "303 70-71",
    ),
    (
        "SELECT 1 AS x FROM person AS p JOIN knows AS k ON k.a = q.id JOIN person AS q ON q.id = k.b",
        "303 56-57",
    ),
    (
        "SELECT 1 AS x FROM person AS p WHERE NOT EXISTS (SELECT 1 AS x FROM knows AS k WHERE k.a = p.id)",
        "ok",
    ),
    (
        "SELECT 1 AS x FROM person AS p WHERE NOT EXISTS (SELECT 1 AS x FROM knows AS p)",
        "609 77-78",
    ),
    (
        "SELECT 1 AS x FROM person AS p WHERE NOT EXISTS (SELECT 1 AS x FROM knows AS k) AND k.a = 1",
        "303 84-85",
    ),
    (
        "SELECT 1 AS x FROM person AS p WHERE NOT EXISTS (SELECT 1 AS y, 2 AS y FROM knows AS k)",
        "609 69-70",
    ),
    (
        "SELECT 1 AS x FROM person AS p WHERE NOT EXISTS (SELECT 1 AS x FROM knows AS k) AND NOT EXISTS (SELECT 1 AS x FROM knows AS k)",
        "ok",
    ),
    (
        "SELECT p.id AS x FROM person AS p UNION ALL SELECT p.id AS x FROM knows AS p",
        "303 53-55",
    ),
    (
        "SELECT COALESCE(p.id, q.id) AS x FROM person AS p",
        "303 22-23",
    ),
    (
        "SELECT p.name AS x FROM person AS p WHERE p.id BETWEEN p.b AND q.c",
        "303 57-58",
    ),
    (
        "SELECT p.id = 'a' AS x FROM person AS p WHERE p.no",
        "303 48-50",
    ),
];

#[test]
fn names(rt: HostRuntime) -> Result<(), Fail> {
    let alloc = rt.alloc();
    let catalog = catalog(alloc)?;
    for (text, want) in &NAMES {
        assert_eq!(rt; verdict_of(alloc, text, &catalog)?.as_str(), *want);
    }
    Ok(())
}

// Texts and what is said of each: operands, conditions and selects of other classes.
static TYPES: [(&str, &str); 28] = [
    ("SELECT p.id = p.name AS x FROM person AS p", "701 14-20"),
    ("SELECT p.id = 2.5 AS x FROM person AS p", "ok"),
    (
        "SELECT p.born = DATE '2020-02-29' AS x FROM person AS p",
        "ok",
    ),
    (
        "SELECT p.born = '2020-02-29' AS x FROM person AS p",
        "701 16-28",
    ),
    (
        "SELECT p.id IN (1, 2.5, 'a', TRUE) AS x FROM person AS p",
        "701 24-27",
    ),
    (
        "SELECT p.id BETWEEN 1 AND p.ok AS x FROM person AS p",
        "701 26-30",
    ),
    (
        "SELECT p.id BETWEEN 'b' AND 'c' AS x FROM person AS p",
        "701 20-23",
    ),
    (
        "SELECT COALESCE(p.name, 'a', 1) AS x FROM person AS p",
        "701 29-30",
    ),
    (
        "SELECT COALESCE(p.id, 1) = 'a' AS x FROM person AS p",
        "701 27-30",
    ),
    ("SELECT p.ok AND p.id AS x FROM person AS p", "702 16-20"),
    ("SELECT p.ok OR (p.name) AS x FROM person AS p", "702 15-23"),
    ("SELECT NOT p.id AS x FROM person AS p", "702 11-15"),
    ("SELECT p.id IS TRUE AS x FROM person AS p", "702 7-11"),
    ("SELECT p.id IS NULL AS x FROM person AS p", "ok"),
    ("SELECT p.ok IS NOT UNKNOWN AS x FROM person AS p", "ok"),
    ("SELECT p.id AS x FROM person AS p WHERE p.id", "702 40-44"),
    (
        "SELECT p.id AS x FROM person AS p WHERE p.ok AND (p.name)",
        "702 49-57",
    ),
    (
        "SELECT p.id AS x FROM person AS p JOIN knows AS k ON k.a",
        "702 53-56",
    ),
    (
        "SELECT p.id AS x FROM person AS p JOIN knows AS k ON p.ok AND k.a = p.id",
        "ok",
    ),
    (
        "SELECT 1 AS x FROM person AS p WHERE NOT EXISTS (SELECT 1 AS x FROM knows AS k WHERE k.since)",
        "702 85-92",
    ),
    (
        "SELECT p.id AS x FROM person AS p UNION ALL SELECT p.name AS x FROM person AS p",
        "701 51-57",
    ),
    (
        "SELECT p.id AS x FROM person AS p UNION ALL SELECT 1 AS x, 'a' AS y FROM person AS p",
        "701 44-50",
    ),
    (
        "SELECT p.id AS x, 1 AS y FROM person AS p UNION ALL SELECT 'a' AS x FROM person AS p",
        "701 52-58",
    ),
    (
        "SELECT p.id AS x FROM person AS p UNION ALL SELECT 2 AS y FROM person AS p UNION ALL SELECT (p.ok) AS z FROM person AS p",
        "701 92-98",
    ),
    (
        "SELECT CAST(NULL AS DATE) = p.born AS x FROM person AS p",
        "ok",
    ),
    (
        "SELECT CAST(NULL AS BIGINT) = p.born AS x FROM person AS p",
        "701 30-36",
    ),
    ("SELECT 1 = 2 = TRUE AS x FROM person AS p", "201 13-14"),
    ("SELECT (1 = 2) = TRUE AS x FROM person AS p", "ok"),
];

#[test]
fn types(rt: HostRuntime) -> Result<(), Fail> {
    let alloc = rt.alloc();
    let catalog = catalog(alloc)?;
    for (text, want) in &TYPES {
        assert_eq!(rt; verdict_of(alloc, text, &catalog)?.as_str(), *want);
    }
    Ok(())
}
