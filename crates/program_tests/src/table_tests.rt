use crate::program_tests::{Outside, SCHEMA, SOUND, USAGE, Wanted, bytes, one, refused, words_of};
use crate::query_tests::{BANK, TRAILS};
use pgq_base::{List, MemoryShelf, MemorySink, NoMemory, Text};
use pgq_program::{Status, pgq, run_texts};
use std::alloc::Global;
use std::process::Abort;
use std::test::Fail;

pub(crate) const PERSON: &str = "id,name,age\n1,Ann,30\n2,Bob,\\N\n3,Cy,20\n";

pub(crate) const KNOWS: &str =
    "id,a,b,since\n10,1,2,2000\n11,2,3,\\N\n12,3,1,2010\n13,1,1,2005\n14,1,2,2015\n";

pub(crate) const BOTH: [&str; 5] = ["run", "schema", "query", "person=p", "KNOWS=k"];

const NONE: [&str; 3] = ["run", "schema", "query"];

pub(crate) fn done(text: &str) -> Wanted<'_> {
    Wanted {
        status: Status::Done,
        out: text.as_bytes(),
        err: b"",
    }
}

fn asked_wrongly() -> Wanted<'static> {
    Wanted {
        status: Status::Usage,
        out: b"",
        err: USAGE.as_bytes(),
    }
}

// What the words receive on the two sinks over these files and devices, and the status.
pub(crate) fn answered(
    alloc: Global,
    words: &[&str],
    files: &[(&str, &str)],
    outside: Outside,
) -> Result<(Status, List<u8>, List<u8>), NoMemory> {
    let list = words_of(alloc, words)?;
    let mut names = List::new(alloc);
    let mut contents = List::new(alloc);
    for (name, content) in files {
        names.push(Text::from_text(alloc, name)?)?;
        contents.push(bytes(alloc, content.as_bytes())?)?;
    }
    if names.as_slice().len() != contents.as_slice().len() {
        return Err(NoMemory);
    }
    let failing = one(alloc, outside.shelf)?;
    let piece = outside.shelf_piece.max(1);
    let mut shelf = MemoryShelf::new(list.as_slice(), names, contents, failing, piece);
    let failing = one(alloc, outside.out)?;
    let piece = outside.out_piece.max(1);
    let mut out = MemorySink::new(alloc, 10_000_000, failing, piece)?;
    let mut err = MemorySink::new(alloc, 1_000, one(alloc, outside.err)?, 4096)?;
    let status = pgq(alloc, list.as_slice(), &mut shelf, &mut out, &mut err);
    Ok((
        status,
        bytes(alloc, out.received())?,
        bytes(alloc, err.received())?,
    ))
}

pub(crate) fn answers(
    rt: &impl Abort,
    alloc: Global,
    words: &[&str],
    files: &[(&str, &str)],
    outside: Outside,
    wanted: Wanted<'_>,
) -> Result<(), NoMemory> {
    let (status, out, err) = answered(alloc, words, files, outside)?;
    assert!(rt; status == wanted.status);
    assert!(rt; out.as_slice() == wanted.out);
    assert!(rt; err.as_slice() == wanted.err);
    Ok(())
}

// Queries over the two tables, and the lines of their tables.
pub(crate) static RUNS: [(&str, &str); 14] = [
    (
        "(x)-[e]->(y) COLUMNS (x.name AS x, y.name AS y))",
        "X,Y\nAnn,Ann\nAnn,Bob\nAnn,Bob\nBob,Cy\nCy,Ann\n",
    ),
    (
        "(x)-[e]-(y) COLUMNS (x.name AS x, y.name AS y))",
        "X,Y\nAnn,Ann\nAnn,Bob\nAnn,Bob\nAnn,Cy\nBob,Ann\nBob,Ann\nBob,Cy\nCy,Ann\nCy,Bob\n",
    ),
    ("(x) WHERE x.age > 25 COLUMNS (x.name AS x))", "X\nAnn\n"),
    (
        "(x) WHERE NOT (x.age > 25) COLUMNS (x.name AS x))",
        "X\nCy\n",
    ),
    (
        "(x)-[e]->{0,1}(y) COLUMNS (x.name AS x, y.name AS y))",
        "X,Y\nAnn,Ann\nAnn,Ann\nAnn,Bob\nAnn,Bob\nBob,Bob\nBob,Cy\nCy,Ann\nCy,Cy\n",
    ),
    (
        "ALL SHORTEST (x)-[e]->{0,1}(y) COLUMNS (x.name AS x, y.name AS y))",
        "X,Y\nAnn,Ann\nAnn,Bob\nAnn,Bob\nBob,Bob\nBob,Cy\nCy,Ann\nCy,Cy\n",
    ),
    (
        "ALL SHORTEST (x)((a)-[e]->(b) WHERE e.since > 2001){1,3}(y) COLUMNS (x.name AS x, y.name AS y))",
        "X,Y\nAnn,Ann\nAnn,Bob\nCy,Ann\nCy,Bob\n",
    ),
    ("(x IS person & !person) COLUMNS (x.name AS x))", "X\n"),
    ("(x) WHERE x.age <-5 COLUMNS (x.name AS x))", "X\n"),
    (
        "(x) WHERE (((((((((((((((((((((((((((((((((((((((((((((((((((((((((((((((x.age > 25))))))))))))))))))))))))))))))))))))))))))))))))))))))))))))))) COLUMNS (x.name AS x))",
        "X\nAnn\n",
    ),
    (
        "(x)-[e]->(y) WHERE e.since >= 2010 COLUMNS (y.name AS \"select\", e.since AS \"a b\"))",
        "select,a b\nAnn,2010\nBob,2015\n",
    ),
    (
        "(x)-[e]->(y), (y)-[f]->(x) WHERE x.id < y.id COLUMNS (x.name AS x))",
        "X\n",
    ),
    (
        "ACYCLIC (x)-[e]->{2}(y) COLUMNS (x.name AS x, y.name AS y))",
        "X,Y\nAnn,Cy\nAnn,Cy\nBob,Ann\nCy,Bob\nCy,Bob\n",
    ),
    ("(x) COLUMNS (x.age AS a))", "A\n\\N\n20\n30\n"),
];

// Queries over the two tables, and how many rows they have.
static COUNTS: [(&str, usize); 10] = [
    (
        "(x)->{1,2}->{1,2}(y) COLUMNS (x.name AS x, y.name AS y))",
        49,
    ),
    (
        "(x)-[e]->{1,2}()-[f]->{1,2}(y) COLUMNS (x.name AS x, y.name AS y))",
        64,
    ),
    (
        "TRAIL (x)-[e]->{2}(y) COLUMNS (x.name AS x, y.name AS y))",
        8,
    ),
    (
        "ACYCLIC (x)-[e]->{2}(y) COLUMNS (x.name AS x, y.name AS y))",
        5,
    ),
    (
        "WALK (x)-[e]->{2}(y) COLUMNS (x.name AS x, y.name AS y))",
        9,
    ),
    (
        "ALL SHORTEST (x)-[e]->{1,3}(y) COLUMNS (x.name AS x, y.name AS y))",
        14,
    ),
    (
        "ALL SHORTEST (x)-[e]->{0,3}(y) COLUMNS (x.name AS x, y.name AS y))",
        12,
    ),
    (
        "ALL SHORTEST (x)-[e]->(z)->{0,2}(y) WHERE z.id <> y.id COLUMNS (x.name AS x, y.name AS y))",
        9,
    ),
    (
        "ALL SHORTEST ((x)-[e]->(z)->{0,2}(y) WHERE z.id <> y.id) COLUMNS (x.name AS x, y.name AS y))",
        13,
    ),
    (
        "(x)-[e]->(y), (y)-[f]->(z) COLUMNS (x.name AS x, y.name AS y))",
        9,
    ),
];

pub(crate) fn query_text(alloc: Global, pattern: &str) -> Result<String, NoMemory> {
    let mut query = String::from_str(alloc, "SELECT * FROM GRAPH_TABLE (G MATCH ")?;
    query.push_str(pattern)?;
    Ok(query)
}

fn runs(
    rt: &impl Abort,
    alloc: Global,
    words: &[&str],
    pattern: &str,
    wanted: Wanted<'_>,
) -> Result<(), NoMemory> {
    let query = query_text(alloc, pattern)?;
    let files = [
        ("schema", SCHEMA),
        ("query", query.as_str()),
        ("p", PERSON),
        ("k", KNOWS),
    ];
    answers(rt, alloc, words, &files, SOUND, wanted)
}

#[test]
fn runs_queries(rt: HostRuntime) -> Result<(), Fail> {
    let alloc = rt.alloc();
    for (pattern, text) in &RUNS {
        runs(&rt, alloc, &BOTH, pattern, done(text))?;
    }
    Ok(())
}

fn count_of(alloc: Global, pattern: &str) -> Result<usize, NoMemory> {
    let query = query_text(alloc, pattern)?;
    let files = [
        ("schema", SCHEMA),
        ("query", query.as_str()),
        ("p", PERSON),
        ("k", KNOWS),
    ];
    let (_, out, _) = answered(alloc, &BOTH, &files, SOUND)?;
    Ok(out.as_slice().iter().filter(|byte| **byte == b'\n').count())
}

#[test]
fn counts_rows(rt: HostRuntime) -> Result<(), Fail> {
    let alloc = rt.alloc();
    for (pattern, rows) in &COUNTS {
        assert_eq!(rt; count_of(alloc, pattern)?, rows + 1);
    }
    Ok(())
}

// A table that is not given is empty; one that is unknown or given twice is asked wrongly, before the query is looked at.
#[test]
fn asks_for_tables(rt: HostRuntime) -> Result<(), Fail> {
    let alloc = rt.alloc();
    let (pattern, _) = &RUNS[0];
    runs(&rt, alloc, &NONE, pattern, done("X,Y\n"))?;
    let unknown = ["run", "schema", "query", "nobody=p"];
    runs(&rt, alloc, &unknown, "@", asked_wrongly())?;
    let twice = ["run", "schema", "query", "person=p", "\"PERSON\"=p"];
    runs(&rt, alloc, &twice, "@", asked_wrongly())?;
    Ok(())
}

// The files of the two tables, and the refusal.
static MISFITS: [(&str, &str, &str); 10] = [
    (
        "id,name,age\n1,Ann,30\n2,Bob,\\N\n3,Cy,20\n1,Dee,5\n",
        KNOWS,
        "table:0-0: 905 repeated key: PERSON 4 1\n",
    ),
    (
        PERSON,
        "id,a,b,since\n10,9,2,2000\n",
        "table:0-0: 906 broken reference: KNOWS 1 2\n",
    ),
    (
        "id,name\n1,Ann\n",
        KNOWS,
        "table:0-0: 901 bad header: PERSON 0 0\n",
    ),
    (
        "id,name,age\n1,Ann,30\n2,Bob\n3,Cy,20\n",
        KNOWS,
        "table:0-0: 902 record width: PERSON 2 0\n",
    ),
    (
        "id,name,age\nx,Ann,30\n2,Bob,\\N\n3,Cy,20\n",
        KNOWS,
        "table:0-0: 903 bad field: PERSON 1 1\n",
    ),
    (
        "id,name,age\n\\N,Ann,30\n2,Bob,\\N\n3,Cy,20\n",
        KNOWS,
        "table:0-0: 904 null field: PERSON 1 1\n",
    ),
    ("", KNOWS, "table:0-0: 901 bad header: PERSON 0 0\n"),
    // Files that end too early.
    (
        "id,name,age\n1,Ann,30\n2,Bo",
        KNOWS,
        "table:0-0: 902 record width: PERSON 2 0\n",
    ),
    ("id,na", KNOWS, "table:0-0: 901 bad header: PERSON 0 0\n"),
    (
        PERSON,
        "id,a,b,since\n10,1,2,x\n",
        "table:0-0: 903 bad field: KNOWS 1 4\n",
    ),
];

#[test]
fn refuses_tables(rt: HostRuntime) -> Result<(), Fail> {
    let alloc = rt.alloc();
    let (pattern, _) = &RUNS[0];
    let query = query_text(alloc, pattern)?;
    for (persons, edges, line) in &MISFITS {
        let files = [
            ("schema", SCHEMA),
            ("query", query.as_str()),
            ("p", *persons),
            ("k", *edges),
        ];
        answers(&rt, alloc, &BOTH, &files, SOUND, refused(line))?;
    }
    Ok(())
}

// A schema, a query, the file of each of the two tables, and the text. The tables are named `first` and `second` in the words.
static OTHERS: [(&[&str], &str, &str, &str, &str, &str); 6] = [
    (
        &["run", "schema", "query", "person=p", "firm=k"],
        "CREATE TABLE person (id INTEGER PRIMARY KEY, name VARCHAR(20));
CREATE TABLE firm (id INTEGER PRIMARY KEY, name VARCHAR(20), city VARCHAR(20));
CREATE PROPERTY GRAPH h VERTEX TABLES (
  person LABEL party PROPERTIES (id, name),
  firm LABEL party PROPERTIES (id, name) LABEL firm PROPERTIES (city));",
        "SELECT * FROM GRAPH_TABLE (h MATCH (x IS party) COLUMNS (x.name AS n, x.city AS c))",
        "id,name\n1,Ann\n",
        "id,name,city\n1,Acme,Oslo\n",
        "N,C\nAcme,Oslo\nAnn,\\N\n",
    ),
    (
        &["run", "schema", "query", "\"we\"\"ird\"=p", "link=k"],
        "CREATE TABLE \"we\"\"ird\" (p INTEGER, q INTEGER, n VARCHAR(5), PRIMARY KEY (p, q));
CREATE TABLE link (id INTEGER PRIMARY KEY, p1 INTEGER, q1 INTEGER, p2 INTEGER, q2 INTEGER,
  FOREIGN KEY (p1, q1) REFERENCES \"we\"\"ird\" (p, q),
  FOREIGN KEY (p2, q2) REFERENCES \"we\"\"ird\" (p, q));
CREATE PROPERTY GRAPH w VERTEX TABLES (\"we\"\"ird\" AS v)
  EDGE TABLES (link SOURCE KEY (p1, q1) REFERENCES v (p, q)
                    DESTINATION KEY (p2, q2) REFERENCES v (p, q));",
        "SELECT * FROM GRAPH_TABLE (w MATCH (x)-[e]->(y) COLUMNS (x.n AS a, y.n AS b))",
        "p,q,n\n1,1,one\n1,2,two\n",
        "id,p1,q1,p2,q2\n7,1,1,1,2\n8,1,1,1,\\N\n",
        "A,B\none,two\n",
    ),
    (
        &["run", "schema", "query", "person=p"],
        SCHEMA,
        "SELECT * FROM GRAPH_TABLE (G MATCH (x) WHERE x.id = 1 COLUMNS (x.name AS x))",
        "id,name,age\n1,\\\\x,30\n",
        "",
        "X\n\\\\x\n",
    ),
    (
        &["run", "schema", "query", "person=p"],
        SCHEMA,
        "SELECT * FROM GRAPH_TABLE (G MATCH (x) WHERE x.id = 1 COLUMNS (x.name AS x))",
        "id,name,age\n1,\"\",30\n",
        "",
        "X\n\"\"\n",
    ),
    // A file that ends too early and is a table all the same.
    (
        &["run", "schema", "query", "person=p"],
        SCHEMA,
        "SELECT * FROM GRAPH_TABLE (G MATCH (x) WHERE x.age < 5 COLUMNS (x.name AS x, x.age AS a))",
        "id,name,age\n1,Ann,30\n2,Bob,\\N\n3,Cy,2",
        "",
        "X,A\nCy,2\n",
    ),
    (&NONE, BANK, TRAILS, "", "", "A,B\n"),
];

#[test]
fn runs_over_other_schemas(rt: HostRuntime) -> Result<(), Fail> {
    let alloc = rt.alloc();
    for (words, schema, query, first, second, text) in &OTHERS {
        let files = [
            ("schema", *schema),
            ("query", *query),
            ("p", *first),
            ("k", *second),
        ];
        answers(&rt, alloc, words, &files, SOUND, done(text))?;
    }
    Ok(())
}

// SQL texts over the two tables, and what comes of them.
static SQLS: [(&str, &str); 5] = [
    (
        "SELECT A0.NAME AS N FROM PERSON AS A0 WHERE A0.AGE > 25",
        "N\nAnn\n",
    ),
    (
        "SELECT A0.NAME AS X, A2.NAME AS Y FROM PERSON AS A0, KNOWS AS A1, PERSON AS A2 WHERE (A1.A = A0.ID AND A1.B = A2.ID OR A1.A = A2.ID AND A1.B = A0.ID)",
        "X,Y\nAnn,Ann\nAnn,Bob\nAnn,Bob\nAnn,Cy\nBob,Ann\nBob,Ann\nBob,Cy\nCy,Ann\nCy,Bob\n",
    ),
    ("SELECT A0.ID AS N FROM PERSON AS A0", "N\n1\n2\n3\n"),
    (
        "SELECT A0.X AS N FROM PERSON AS A0",
        "sql:10-11: 303 unknown column\n",
    ),
    (
        "SELECT A0.ID AS N FROM PERSON AS A0 UNION ALL SELECT A0.NAME AS N FROM PERSON AS A0",
        "sql:53-60: 701 classes differ\n",
    ),
];

#[test]
fn evaluates_texts(rt: HostRuntime) -> Result<(), Fail> {
    let alloc = rt.alloc();
    let words = ["eval", "schema", "sql", "person=p", "knows=k"];
    for (sql, text) in &SQLS {
        let files = [
            ("schema", SCHEMA),
            ("sql", *sql),
            ("p", PERSON),
            ("k", KNOWS),
        ];
        let wanted = if text.as_bytes().first() == Some(&b's') {
            refused(text)
        } else {
            done(text)
        };
        answers(&rt, alloc, &words, &files, SOUND, wanted)?;
    }
    Ok(())
}

// The generated run reads no file.
#[test]
fn samples(rt: HostRuntime) -> Result<(), Fail> {
    let alloc = rt.alloc();
    let five = "vertices 5\nedges 15\nrows 27\ndistinct 17\n";
    answers(&rt, alloc, &["sample", "5"], &[], SOUND, done(five))?;
    let single = "vertices 1\nedges 3\nrows 3\ndistinct 1\n";
    answers(&rt, alloc, &["sample", "1"], &[], SOUND, done(single))?;
    let most = "vertices 2000\nedges 6000\nrows 21934\ndistinct 15947\n";
    answers(&rt, alloc, &["sample", "2000"], &[], SOUND, done(most))?;
    Ok(())
}

// A query over tables without a text, which are empty.
#[test]
fn runs_over_texts(rt: HostRuntime) -> Result<(), Fail> {
    let alloc = rt.alloc();
    let (pattern, _) = &RUNS[0];
    let query = query_text(alloc, pattern)?;
    match run_texts(alloc, SCHEMA.as_bytes(), query.as_bytes(), &[]) {
        Ok(text) => assert!(rt; text.as_slice() == b"X,Y\n".as_slice()),
        Err(_) => return Err("no text")?,
    }
    Ok(())
}
