ghost use Rattle.std.specs.Prelude.{◌≡◌};
ghost use Rattle.graph_ast.specs.Catalogs.{IsValidCatalog};

use crate::{TablesStop, load_instance};
use graph_ast::Catalog;
use pgq_base::{Detail, Instance, List, MemoryShelf, Refusal, Shelf, Text};
use sample_run::sample_catalog;
use std::alloc::Global;
use std::test::Fail;
use table_files::table_places;
use table_words::{files_are_asked, table_words};

fn counted(instance: &Instance) -> (u32, u64, u32) {
    match instance.tables.as_slice() {
        [persons, edges] => {
            let persons = persons.rows.as_slice().len() as u64;
            (0, persons, (edges.rows.as_slice().len() % 1000) as u32)
        }
        _ => (3, 0, 0),
    }
}

fn refused(refusal: &Refusal) -> (u32, u64, u32) {
    match &refusal.detail {
        Detail::At { row, column, .. } => (refusal.code.number() as u32, *row, *column),
        Detail::Nothing => (2, 0, 0),
    }
}

fn stopped(stop: &TablesStop) -> (u32, u64, u32) {
    match stop {
        TablesStop::Refused(refusal) => refused(refusal),
        TablesStop::ReadFault => (4, 0, 0),
        TablesStop::NoMemory => (1, 0, 0),
    }
}

// The rows of PERSON and of KNOWS, or the code, the row and the column of the refusal.
fn outcome<F: Shelf>(
    alloc: Global,
    files: &mut F,
    catalog: &Catalog,
    words: &[Text],
) -> Result<(u32, u64, u32), Fail>
    requires words { F.words files.old ≡ words.now }
    requires valid { IsValidCatalog catalog.now }
{
    let [command, _, _, tables @ ..] = words else {
        return Err("too few words")?;
    };
    if command.as_text() == "sample" {
        return Err("another command")?;
    }
    files_are_asked();
    let Some(asked) = table_words(alloc, tables)? else {
        return Err("a word of another form")?;
    };
    let Some(places) = table_places(alloc, catalog, asked.as_slice())? else {
        return Err("no such table")?;
    };
    let loaded = load_instance(alloc, files, catalog, asked.as_slice(), places.as_slice());
    match loaded {
        Ok(instance) => Ok(counted(&instance)),
        Err(stop) => Ok(stopped(&stop)),
    }
}

static NAMES: [(&str, &[u8]); 6] = [
    ("p", b"id,name,age\n1,Ann,30\n2,Bob,\\N\n3,Cy,20\n"),
    ("k", b"id,a,b,since\n10,1,2,2000\n11,2,3,\\N\n"),
    ("narrow", b"id,name\n1,Ann\n"),
    ("bad", b"id,a,b,since\n10,1,2,x\n"),
    ("far", b"id,a,b,since\n10,9,2,2000\n"),
    ("a=b", b"id,name,age\n7,Zoe,1\n"),
];

// The words behind the first three, the number of the call that fails, and what comes of it.
static CASES: [(&str, &str, u64, (u32, u64, u32)); 12] = [
    ("person=p", "knows=k", 99, (0, 3, 2)),
    ("knows=k", "person=p", 99, (0, 3, 2)),
    ("person=a=b", "", 99, (0, 1, 0)),
    ("\"PERSON\"=p", "", 99, (0, 3, 0)),
    ("knows=bad", "person=narrow", 99, (903, 1, 4)),
    ("person=narrow", "knows=bad", 99, (901, 0, 0)),
    ("person=narrow", "knows=absent", 99, (901, 0, 0)),
    ("knows=absent", "person=narrow", 99, (4, 0, 0)),
    ("person=p", "knows=far", 99, (906, 1, 2)),
    ("person=p", "knows=k", 0, (4, 0, 0)),
    ("person=p", "knows=k", 3, (4, 0, 0)),
    ("", "", 0, (0, 0, 0)),
];

fn push(alloc: Global, words: &mut List<Text>, word: &str) -> Result<(), Fail> {
    if !word.is_empty() {
        words.push(Text::from_text(alloc, word)?)?;
    }
    Ok(())
}

fn at_case(alloc: Global, first: &str, second: &str, fails: u64) -> Result<(u32, u64, u32), Fail> {
    let mut words = List::new(alloc);
    push(alloc, &mut words, "run")?;
    push(alloc, &mut words, "s")?;
    push(alloc, &mut words, "q")?;
    push(alloc, &mut words, first)?;
    push(alloc, &mut words, second)?;
    let mut names = List::new(alloc);
    let mut contents = List::new(alloc);
    for (name, content) in &NAMES {
        let mut bytes = List::new(alloc);
        bytes.extend(content)?;
        names.push(Text::from_text(alloc, name)?)?;
        contents.push(bytes)?;
    }
    let mut failing = List::new(alloc);
    failing.push(fails)?;
    if names.as_slice().len() != contents.as_slice().len() {
        return Err("names without contents")?;
    }
    let catalog = sample_catalog(alloc)?;
    let mut files = MemoryShelf::new(words.as_slice(), names, contents, failing, 7);
    outcome(alloc, &mut files, &catalog, words.as_slice())
}

#[test]
fn files_of_a_shelf(rt: HostRuntime) -> Result<(), Fail> {
    for (first, second, fails, due) in &CASES {
        let found = at_case(rt.alloc(), first, second, *fails)?;
        assert!(rt; found == *due, "at {first} {second}");
    }
    Ok(())
}
