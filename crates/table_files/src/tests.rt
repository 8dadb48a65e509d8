ghost use Rattle.std.specs.Prelude.{◌≡◌, ◌<◌, All, IfOk, IsTrue, length};
ghost use Rattle.graph_ast.specs.Catalogs.{IsValidCatalog};

use crate::{TableText, TablesRead, instance_of, table_places};
use graph_ast::Catalog;
use pgq_base::{Detail, Instance, List, NoMemory, Stop, Text};
use sample_run::sample_catalog;
use std::alloc::Global;
use std::test::Fail;
use table_words::table_words;

// The place of a table and the text of its file, by the number of the case.
static FILES: [(u32, u32, &[u8]); 22] = [
    (1, 0, b"id,name,age\n1,Ann,30\n2,Bob,\\N\n3,Cy,20\n"),
    (2, 0, b"id,name,age\n1,Ann,30\n2,Bob,\\N\n3,Cy,20\n"),
    (2, 1, b"id,a,b,since\n10,1,2,2000\n11,2,3,\\N\n"),
    (3, 1, b"id,a,b,since\n10,1,2,2000\n11,2,3,\\N\n"),
    (3, 0, b"id,name,age\n1,Ann,30\n2,Bob,\\N\n3,Cy,20\n"),
    (4, 1, b"id,a,b,since\n10,\\N,\\N,2000\n"),
    (
        5,
        0,
        b"id,name,age\n1,Ann,30\n2,Bob,\\N\n3,Cy,20\n1,Dee,5\n",
    ),
    (6, 0, b"id,name,age\n1,Ann,30\n2,Bob,\\N\n3,Cy,20\n"),
    (6, 1, b"id,a,b,since\n10,9,2,2000\n"),
    (7, 0, b"id,name\n1,Ann\n"),
    (8, 0, b"id,name,age\n1,Ann,30\n2,Bob\n"),
    (9, 0, b"id,name,age\nx,Ann,30\n"),
    (10, 0, b"id,name,age\n\\N,Ann,30\n"),
    (11, 0, b""),
    (12, 1, b"id,a,b,since\n10,9,2,x\n"),
    (12, 0, b"id,name\n1,Ann\n"),
    (13, 0, b"id,name\n1,Ann\n"),
    (13, 1, b"id,a,b,since\n10,9,2,x\n"),
    (14, 1, b"id,a,b,since\n10,1,1,2000\n"),
    (15, 0, b"id,name,age\n1,Ann,30\n1,Bob,1\n"),
    (15, 1, b"id,a,b,since\n10,9,2,2000\n"),
    (16, 1, b"id,a,b,since\n"),
];

// The rows of PERSON and of KNOWS, or the code, the row and the column of the refusal.
static DUE: [(u32, u64, u32); 17] = [
    (0, 0, 0),
    (0, 3, 0),
    (0, 3, 2),
    (0, 3, 2),
    (0, 0, 1),
    (905, 4, 1),
    (906, 1, 2),
    (901, 0, 0),
    (902, 2, 0),
    (903, 1, 1),
    (904, 1, 1),
    (901, 0, 0),
    (903, 1, 4),
    (901, 0, 0),
    (906, 1, 2),
    (905, 2, 1),
    (0, 0, 0),
];

fn catalog(alloc: Global) -> Result<Catalog, NoMemory>
    ensures valid { IfOk result IsValidCatalog }
    ensures tables { IfOk result (λ catalog. length catalog.tables ≡ 2) }
{
    sample_catalog(alloc)
}

fn are_places(texts: &[TableText]) -> bool
    ensures { IsTrue result → All (λ text. text.table < 2) texts.now }
{
    texts.iter().all(|text| text.table < 2)
}

fn texts(alloc: Global, case: u32) -> Result<List<TableText>, NoMemory> {
    let mut texts = List::new(alloc);
    for (number, table, text) in &FILES {
        if *number == case {
            let mut bytes = List::new(alloc);
            bytes.extend(text)?;
            texts.push(TableText {
                table: *table,
                bytes,
            })?;
        }
    }
    Ok(texts)
}

fn refused(stop: &Stop) -> (u32, u64, u32) {
    match stop {
        Stop::NoMemory => (1, 0, 0),
        Stop::Refused(refusal) => match &refusal.detail {
            Detail::At { row, column, .. } => (refusal.code.number() as u32, *row, *column),
            Detail::Nothing => (2, 0, 0),
        },
    }
}

fn counted(instance: &Instance) -> (u32, u64, u32) {
    match instance.tables.as_slice() {
        [persons, edges] => {
            let persons = persons.rows.as_slice().len() as u64;
            (0, persons, (edges.rows.as_slice().len() % 1000) as u32)
        }
        _ => (3, 0, 0),
    }
}

#[test]
fn files_of_two_tables(rt: HostRuntime) -> Result<(), Fail> {
    let catalog = catalog(rt.alloc())?;
    for (case, due) in DUE.iter().enumerate() {
        let texts = texts(rt.alloc(), case as u32)?;
        if !are_places(texts.as_slice()) {
            return Err("no such table")?;
        }
        let found = match instance_of(rt.alloc(), &catalog, texts.as_slice()) {
            Ok(instance) => counted(&instance),
            Err(stop) => refused(&stop),
        };
        assert!(rt; found == *due, "at {case}");
    }
    Ok(())
}

// Reads a file of PERSON where other files had so many bytes.
fn added(
    alloc: Global,
    catalog: &Catalog,
    before: u64,
    text: &[u8],
) -> Result<(u32, u64, u32), Fail>
    requires valid { IsValidCatalog catalog.now }
    requires tables { length catalog.now.tables ≡ 2 }
{
    if before > 67_108_864 {
        return Err("too many bytes before")?;
    }
    let TablesRead { instance, .. } = TablesRead::new(alloc, catalog)?;
    let read = TablesRead {
        instance,
        bytes: before,
    };
    match read.add(alloc, catalog, 0, text) {
        Ok(read) => Ok((0, read.bytes, 0)),
        Err(stop) => Ok(refused(&stop)),
    }
}

// The size comes before the content.
static SIZES: [(u64, &[u8], (u32, u64, u32)); 6] = [
    (67_108_852, b"id,name,age\n", (0, 67_108_864, 0)),
    (67_108_853, b"id,name,age\n", (907, 0, 0)),
    (67_108_864, b"x", (907, 0, 0)),
    (67_108_863, b"x", (901, 0, 0)),
    (67_108_864, b"", (901, 0, 0)),
    (0, b"id,name,age\n", (0, 12, 0)),
];

#[test]
fn sizes_are_counted(rt: HostRuntime) -> Result<(), Fail> {
    let catalog = catalog(rt.alloc())?;
    for (before, text, due) in &SIZES {
        let found = added(rt.alloc(), &catalog, *before, text)?;
        assert!(rt; found == *due, "behind {before}");
    }
    Ok(())
}

// Words by the number of the case.
static WORDS: [(u32, &str); 9] = [
    (1, "person=f"),
    (2, "knows=f"),
    (2, "Person=f"),
    (3, "person=f"),
    (3, "\"PERSON\"=g"),
    (4, "\"person\"=f"),
    (5, "nobody=f"),
    (6, "person=f"),
    (6, "nobody=f"),
];

// The number of places, and the first of them; none where the words name no tables.
static NAMED: [Option<(usize, u32)>; 7] = [
    Some((0, 9)),
    Some((1, 0)),
    Some((2, 1)),
    None,
    None,
    None,
    None,
];

fn named(alloc: Global, catalog: &Catalog, case: u32) -> Result<Option<(usize, u32)>, Fail>
    requires { IsValidCatalog catalog.now }
{
    let mut words = List::new(alloc);
    for (number, word) in &WORDS {
        if *number == case {
            words.push(Text::from_text(alloc, word)?)?;
        }
    }
    let Some(asked) = table_words(alloc, words.as_slice())? else {
        return Err("a word of another form")?;
    };
    match table_places(alloc, catalog, asked.as_slice())? {
        Some(places) => match places.as_slice() {
            [] => Ok(Some((0, 9))),
            [first, ..] => Ok(Some((places.as_slice().len(), *first))),
        },
        None => Ok(None),
    }
}

#[test]
fn places_of_tables(rt: HostRuntime) -> Result<(), Fail> {
    let catalog = catalog(rt.alloc())?;
    for (case, due) in NAMED.iter().enumerate() {
        let found = named(rt.alloc(), &catalog, case as u32)?;
        assert!(rt; found == *due, "at {case}");
    }
    Ok(())
}
