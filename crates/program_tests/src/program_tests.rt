ghost use Rattle.std.specs.Prelude.{◌≡◌, ◌∷◌, [], IfOk};

use crate::query_tests::PARTIES;
use pgq_base::{
    Code, Detail, List, MemoryShelf, MemorySink, Name, NoMemory, Refusal, Role, Span, Stop, Text,
};
use pgq_program::{Status, line_of, pgq, translate_texts};
use std::alloc::Global;
use std::process::Abort;
use std::test::Fail;

pub(crate) const SCHEMA: &str =
    "CREATE TABLE person (id INTEGER PRIMARY KEY, name VARCHAR(20), age INTEGER);
CREATE TABLE knows (id INTEGER PRIMARY KEY, a INTEGER REFERENCES person (id),
  b INTEGER REFERENCES person (id), since INTEGER);
CREATE PROPERTY GRAPH g VERTEX TABLES (person)
  EDGE TABLES (knows SOURCE KEY (a) REFERENCES person (id)
                     DESTINATION KEY (b) REFERENCES person (id));
";

const QUERY: &str =
    "SELECT * FROM GRAPH_TABLE (G MATCH (x)-[e]->(y) COLUMNS (x.name AS x, y.name AS y))";

const SQL: &str =
    "SELECT A0.NAME AS X, A2.NAME AS Y FROM PERSON AS A0 JOIN KNOWS AS A1 ON A1.A = A0.ID JOIN PERSON AS A2 ON A1.B = A2.ID\n";

pub(crate) const USAGE: &str =
    "usage: pgq translate SCHEMA QUERY, check SCHEMA [QUERY], run SCHEMA QUERY TABLE=FILE ..., eval SCHEMA SQL TABLE=FILE ..., sample N\n";

// No call of a device has this number.
pub(crate) const NEVER: u64 = 1_000_000_000;

pub(crate) fn bytes(alloc: Global, text: &[u8]) -> Result<List<u8>, NoMemory> {
    let mut list = List::new(alloc);
    list.extend(text)?;
    Ok(list)
}

pub(crate) fn one<T: Drop>(alloc: Global, item: T) -> Result<List<T>, NoMemory>
    ensures { IfOk result (λ list. list ≡ item ∷ []) }
{
    let mut list = List::new(alloc);
    list.push(item)?;
    Ok(list)
}

fn two<T: Drop>(alloc: Global, first: T, second: T) -> Result<List<T>, NoMemory>
    ensures { IfOk result (λ list. list ≡ first ∷ second ∷ []) }
{
    let mut list = one(alloc, first)?;
    list.push(second)?;
    Ok(list)
}

// The devices of a run: the calls that fail, and the sizes of pieces.
#[derive(Clone, Copy)]
pub(crate) struct Outside {
    pub(crate) shelf: u64,
    pub(crate) out: u64,
    pub(crate) err: u64,
    pub(crate) shelf_piece: usize,
    pub(crate) out_piece: usize,
}

pub(crate) const SOUND: Outside = Outside {
    shelf: NEVER,
    out: NEVER,
    err: NEVER,
    shelf_piece: 4096,
    out_piece: 4096,
};

// What a run is to answer.
#[derive(Clone, Copy)]
pub(crate) struct Wanted<'a> {
    pub(crate) status: Status,
    pub(crate) out: &'a [u8],
    pub(crate) err: &'a [u8],
}

pub(crate) fn refused(line: &str) -> Wanted<'_> {
    Wanted {
        status: Status::Refused,
        out: b"",
        err: line.as_bytes(),
    }
}

pub(crate) fn words_of(alloc: Global, words: &[&str]) -> Result<List<Text>, NoMemory> {
    let mut list = List::new(alloc);
    for word in words {
        list.push(Text::from_text(alloc, word)?)?;
    }
    Ok(list)
}

// Runs the words over the files `schema` and `query`, and compares.
pub(crate) fn expect(
    rt: &impl Abort,
    alloc: Global,
    words: &[&str],
    schema: &[u8],
    query: &[u8],
    outside: Outside,
    wanted: Wanted<'_>,
) -> Result<(), NoMemory> {
    let list = words_of(alloc, words)?;
    let names = two(
        alloc,
        Text::from_text(alloc, "schema")?,
        Text::from_text(alloc, "query")?,
    )?;
    let contents = two(alloc, bytes(alloc, schema)?, bytes(alloc, query)?)?;
    let failing = one(alloc, outside.shelf)?;
    let mut files = MemoryShelf::new(
        list.as_slice(),
        names,
        contents,
        failing,
        outside.shelf_piece.max(1),
    );
    let mut out = MemorySink::new(
        alloc,
        2_000_000,
        one(alloc, outside.out)?,
        outside.out_piece.max(1),
    )?;
    let mut err = MemorySink::new(alloc, 1_000, one(alloc, outside.err)?, 4096)?;
    let status = pgq(alloc, list.as_slice(), &mut files, &mut out, &mut err);
    assert!(rt; status == wanted.status);
    assert!(rt; out.received() == wanted.out);
    assert!(rt; err.received() == wanted.err);
    Ok(())
}

const TRANSLATE: [&str; 3] = ["translate", "schema", "query"];

// Each text and its translation.
static TRANSLATIONS: [(&str, &str, &str); 15] = [
    (SCHEMA, QUERY, SQL),
    (
        SCHEMA,
        "SELECT * FROM GRAPH_TABLE (G MATCH (x)-[e]-(y) COLUMNS (x.name AS x, y.name AS y))",
        "SELECT A0.NAME AS X, A2.NAME AS Y FROM PERSON AS A0 JOIN KNOWS AS A1 ON TRUE JOIN PERSON AS A2 ON (A1.A = A0.ID AND A1.B = A2.ID OR A1.A = A2.ID AND A1.B = A0.ID)\n",
    ),
    (
        SCHEMA,
        "SELECT * FROM GRAPH_TABLE (G MATCH (x)-[e]->{0,1}(y) COLUMNS (x.name AS x, y.name AS y))",
        "SELECT A0.NAME AS X, A0.NAME AS Y FROM PERSON AS A0\nUNION ALL\nSELECT A0.NAME AS X, A2.NAME AS Y FROM PERSON AS A0 JOIN KNOWS AS A1 ON A1.A = A0.ID JOIN PERSON AS A2 ON A1.B = A2.ID\n",
    ),
    (
        SCHEMA,
        "SELECT * FROM GRAPH_TABLE (G MATCH ALL SHORTEST (x)-[e]->{0,1}(y) COLUMNS (x.name AS x, y.name AS y))",
        "SELECT A0.NAME AS X, A0.NAME AS Y FROM PERSON AS A0\nUNION ALL\nSELECT A0.NAME AS X, A2.NAME AS Y FROM PERSON AS A0 JOIN KNOWS AS A1 ON A1.A = A0.ID JOIN PERSON AS A2 ON A1.B = A2.ID WHERE NOT EXISTS (SELECT 1 AS C FROM PERSON AS S0 WHERE S0.ID = A0.ID AND S0.ID = A2.ID)\n",
    ),
    // No element has the labels.
    (
        SCHEMA,
        "SELECT * FROM GRAPH_TABLE (G MATCH (x IS person & !person) COLUMNS (x.name AS x))",
        "SELECT CAST(NULL AS VARCHAR(4000)) AS X FROM PERSON AS A0 WHERE FALSE\n",
    ),
    // Two paths that share a vertex.
    (
        SCHEMA,
        "SELECT * FROM GRAPH_TABLE (G MATCH (x)-[e]->(y), (y)-[f]->(z) COLUMNS (x.name AS x, y.name AS y))",
        "SELECT A0.NAME AS X, A2.NAME AS Y FROM PERSON AS A0 JOIN KNOWS AS A1 ON A1.A = A0.ID JOIN PERSON AS A2 ON A1.B = A2.ID JOIN KNOWS AS A3 ON A3.A = A2.ID JOIN PERSON AS A4 ON A3.B = A4.ID\n",
    ),
    (
        PARTIES,
        "SELECT * FROM GRAPH_TABLE (h MATCH (x IS party) COLUMNS (x.name AS n, x.city AS c))",
        "SELECT A0.NAME AS N, CAST(NULL AS VARCHAR(4000)) AS C FROM PERSON AS A0\nUNION ALL\nSELECT A0.NAME AS N, A0.CITY AS C FROM FIRM AS A0\n",
    ),
    // A key of two columns, and a name in quotes.
    (
        "CREATE TABLE \"we\"\"ird\" (p INTEGER, q INTEGER, n VARCHAR(5), PRIMARY KEY (p, q));
CREATE TABLE link (id INTEGER PRIMARY KEY, p1 INTEGER, q1 INTEGER, p2 INTEGER, q2 INTEGER,
  FOREIGN KEY (p1, q1) REFERENCES \"we\"\"ird\" (p, q),
  FOREIGN KEY (p2, q2) REFERENCES \"we\"\"ird\" (p, q));
CREATE PROPERTY GRAPH w VERTEX TABLES (\"we\"\"ird\" AS v)
  EDGE TABLES (link SOURCE KEY (p1, q1) REFERENCES v (p, q)
                    DESTINATION KEY (p2, q2) REFERENCES v (p, q));",
        "SELECT * FROM GRAPH_TABLE (w MATCH (x)-[e]->(y) COLUMNS (x.n AS a, y.n AS b))",
        "SELECT A0.N AS A, A2.N AS B FROM \"we\"\"ird\" AS A0 JOIN LINK AS A1 ON A1.P1 = A0.P AND A1.Q1 = A0.Q JOIN \"we\"\"ird\" AS A2 ON A1.P2 = A2.P AND A1.Q2 = A2.Q\n",
    ),
    // Other columns, types, letters and space; no last semicolon; digits with leading zeros.
    (
        "create table Station(Code integer primary key,city varchar(020),zone INTEGER);create table HOP(no integer primary key,
src integer references STATION(code),dst INTEGER REFERENCES station ( CODE ),name VARCHAR ( 4000 ));create property graph net
vertex tables(station)edge tables(hop source key(src)references station(code)destination key(DST)references station(code))",
        "select*from graph_table(NET match(a)-[h]->(b)columns(h.name as via,b.City as to_city,a.code as c,h.dst as d))",
        "SELECT A1.NAME AS VIA, A2.CITY AS TO_CITY, A0.CODE AS C, A1.DST AS D FROM STATION AS A0 JOIN HOP AS A1 ON A1.SRC = A0.CODE JOIN STATION AS A2 ON A1.DST = A2.CODE\n",
    ),
    // Words that are not reserved are names; space may stand inside the arrow.
    (
        "CREATE TABLE key (integer INTEGER PRIMARY KEY); CREATE TABLE edge (primary_ INTEGER PRIMARY KEY, source INTEGER REFERENCES key (integer),
_ INTEGER REFERENCES key (integer)); CREATE PROPERTY GRAPH graph VERTEX TABLES (key) EDGE TABLES (edge SOURCE KEY (source) REFERENCES key (integer) DESTINATION KEY (_) REFERENCES key (integer));",
        "SELECT * FROM GRAPH_TABLE (graph MATCH (key) - [ vertex ] - > (a0) COLUMNS (a0.integer AS a1))",
        "SELECT A2.INTEGER AS A1 FROM KEY AS A0 JOIN EDGE AS A1 ON A1.SOURCE = A0.INTEGER JOIN KEY AS A2 ON A1._ = A2.INTEGER\n",
    ),
    // A self-loop, which shares its vertex.
    (
        SCHEMA,
        "SELECT * FROM GRAPH_TABLE (G MATCH (x)-[e]->(x) COLUMNS (x.id AS i));",
        "SELECT A0.ID AS I FROM PERSON AS A0 JOIN KNOWS AS A1 ON A1.A = A0.ID AND A1.B = A0.ID\n",
    ),
    (
        SCHEMA,
        "SELECT * FROM GRAPH_TABLE (G MATCH (x)<-[e]-(y) COLUMNS (x.id AS i))",
        "SELECT A0.ID AS I FROM PERSON AS A0 JOIN KNOWS AS A1 ON A1.B = A0.ID JOIN PERSON AS A2 ON A1.A = A2.ID\n",
    ),
    (
        SCHEMA,
        "SELECT * FROM GRAPH_TABLE (G MATCH (x)-[e]->(y) /* c */ COLUMNS (x.\"ID\" AS \"select\"))",
        "SELECT A0.ID AS \"select\" FROM PERSON AS A0 JOIN KNOWS AS A1 ON A1.A = A0.ID JOIN PERSON AS A2 ON A1.B = A2.ID\n",
    ),
    (
        SCHEMA,
        "SELECT * FROM GRAPH_TABLE (G MATCH (x), (y) COLUMNS (x.name AS x, y.name AS y))",
        "SELECT A0.NAME AS X, A1.NAME AS Y FROM PERSON AS A0 JOIN PERSON AS A1 ON TRUE\n",
    ),
    (
        SCHEMA,
        "SELECT * FROM GRAPH_TABLE (G MATCH (x) WHERE x.age > 25 COLUMNS (x.name AS x))",
        "SELECT A0.NAME AS X FROM PERSON AS A0 WHERE A0.AGE > 25\n",
    ),
];

fn translates_texts(
    rt: &impl Abort,
    alloc: Global,
    schema: &str,
    query: &str,
    sql: &str,
) -> Result<(), Stop> {
    let text = translate_texts(alloc, schema.as_bytes(), query.as_bytes())?;
    assert!(rt; text.as_slice() == sql.as_bytes());
    Ok(())
}

#[test]
fn translates(rt: HostRuntime) -> Result<(), Fail> {
    let alloc = rt.alloc();
    for (schema, query, sql) in &TRANSLATIONS {
        let done = Wanted {
            status: Status::Done,
            out: sql.as_bytes(),
            err: b"",
        };
        expect(
            &rt,
            alloc,
            &TRANSLATE,
            schema.as_bytes(),
            query.as_bytes(),
            SOUND,
            done,
        )?;
        translates_texts(&rt, alloc, schema, query, sql)?;
    }
    Ok(())
}

// The first fault of the schema text, or else of the query text.
static REFUSALS: [(&str, &str, &str); 24] = [
    ("", QUERY, "schema:0-0: 201 unexpected\n"),
    // The schema comes first, and of a text its bytes, its form and its rules.
    (
        "CREATE TABLE \"\" (a",
        QUERY,
        "schema:13-15: 104 bad name\n",
    ),
    ("x", "SELECT @", "schema:0-1: 201 unexpected\n"),
    (
        "CREATE TABLE t (#",
        "SELECT @",
        "schema:16-17: 101 bad byte\n",
    ),
    (
        "CREATE TABLE t (a INTEGER, a INTEGER);",
        "SELECT @",
        "schema:27-28: 302 duplicate column\n",
    ),
    (
        "CREATE TABLE t (a INTEGER); CREATE PROPERTY GRAPH g VERTEX TABLES (t);",
        "",
        "schema:67-68: 403 no key\n",
    ),
    (SCHEMA, "", "query:0-0: 201 unexpected\n"),
    (SCHEMA, "SELECT @", "query:7-8: 101 bad byte\n"),
    (
        SCHEMA,
        "SELECT * FROM GRAPH_TABLE (G MATCH (x)-[e]->(y COLUMNS (x.name))",
        "query:47-54: 201 unexpected\n",
    ),
    (
        SCHEMA,
        "SELECT * FROM GRAPH_TABLE (G MATCH (x)-[e]->(y) COLUMNS (x.id AS select))",
        "query:65-71: 201 unexpected\n",
    ),
    (
        SCHEMA,
        "SELECT * FROM GRAPH_TABLE (G MATCH (x)-[e]->*(y) COLUMNS (x.name))",
        "query:44-45: 502 unbounded quantifier\n",
    ),
    (
        SCHEMA,
        "SELECT * FROM GRAPH_TABLE (H MATCH (x)-[e]->(y) COLUMNS (x.id AS i))",
        "query:27-28: 601 unknown graph\n",
    ),
    (
        SCHEMA,
        "SELECT * FROM GRAPH_TABLE (H MATCH (x)-[e]->(y) COLUMNS (x.city AS c))",
        "query:27-28: 601 unknown graph\n",
    ),
    (
        SCHEMA,
        "SELECT * FROM GRAPH_TABLE (G MATCH (x)-[e]->(y) COLUMNS (z.id AS i))",
        "query:57-58: 603 unknown variable\n",
    ),
    (
        SCHEMA,
        "SELECT * FROM GRAPH_TABLE (G MATCH (x)-[e]->(y) COLUMNS (x.city AS c))",
        "query:59-63: 608 unknown property\n",
    ),
    (
        SCHEMA,
        "SELECT * FROM GRAPH_TABLE (G MATCH (x)-[e]->(y) COLUMNS (e.since AS s, y.since AS t, e.age AS a))",
        "query:73-78: 608 unknown property\n",
    ),
    (
        SCHEMA,
        "SELECT * FROM GRAPH_TABLE (G MATCH (x)-[e]->(y) COLUMNS (x.id AS i, y.id AS I))",
        "query:76-77: 609 duplicate column name\n",
    ),
    (
        SCHEMA,
        "SELECT * FROM GRAPH_TABLE (G MATCH (x) WHERE x.age = 'a' COLUMNS (x.name))",
        "query:53-56: 701 classes differ\n",
    ),
    (
        SCHEMA,
        "SELECT * FROM GRAPH_TABLE (G MATCH (x)-[e]->{1,33}(y) COLUMNS (x.id AS i))",
        "query:44-50: 803 quantifier too large\n",
    ),
    (
        SCHEMA,
        "SELECT * FROM GRAPH_TABLE (G MATCH ALL SHORTEST (x)-[e]->{1,32}-[f]->{1,32}(y) COLUMNS (x.id AS i))",
        "query:29-34: 807 lowering too large\n",
    ),
    // Forms that are not served yet, whatever else is wrong with them.
    (
        SCHEMA,
        "SELECT * FROM GRAPH_TABLE (G MATCH (x)-[e]->{1,2}(y) COLUMNS (COUNT(e) AS n))",
        "query:0-0: 201 unexpected\n",
    ),
    (
        SCHEMA,
        "SELECT * FROM GRAPH_TABLE (G MATCH (x)-[e]->(y) WHERE SAME(x, y) COLUMNS (x.id))",
        "query:0-0: 201 unexpected\n",
    ),
    (
        SCHEMA,
        "SELECT * FROM GRAPH_TABLE (H MATCH SHORTEST 2 GROUP (x)-[e]->{1,2}(y) COLUMNS (z.id))",
        "query:0-0: 201 unexpected\n",
    ),
    (
        SCHEMA,
        "SELECT * FROM GRAPH_TABLE (G MATCH (x)-[e]->(y) COLUMNS (x.city AS 'c'))",
        "query:67-70: 201 unexpected\n",
    ),
];

#[test]
fn refuses(rt: HostRuntime) -> Result<(), Fail> {
    let alloc = rt.alloc();
    for (schema, query, line) in &REFUSALS {
        expect(
            &rt,
            alloc,
            &TRANSLATE,
            schema.as_bytes(),
            query.as_bytes(),
            SOUND,
            refused(line),
        )?;
    }
    Ok(())
}

// Some bytes, so many equal ones, and some more.
pub(crate) fn filled(
    alloc: Global,
    front: &[u8],
    byte: u8,
    count: usize,
    back: &[u8],
) -> Result<List<u8>, NoMemory> {
    let mut text = bytes(alloc, front)?;
    for _ in 0..count {
        text.push(byte)?;
    }
    text.extend(back)?;
    Ok(text)
}

// A schema of so many spaces, which has no statement, or is too large.
fn expect_spaces(rt: &impl Abort, alloc: Global, count: usize, line: &str) -> Result<(), NoMemory> {
    let text = filled(alloc, b"", b' ', count, b"")?;
    expect(
        rt,
        alloc,
        &TRANSLATE,
        text.as_slice(),
        b"",
        SOUND,
        refused(line),
    )
}

// A query whose one column has a name of so many letters.
fn expect_name(
    rt: &impl Abort,
    alloc: Global,
    count: usize,
    wanted: Wanted<'_>,
) -> Result<(), NoMemory> {
    let front = b"SELECT * FROM GRAPH_TABLE (G MATCH (x)-[e]->(y) COLUMNS (x.id AS ";
    let text = filled(alloc, front, b'n', count, b"))")?;
    expect(
        rt,
        alloc,
        &TRANSLATE,
        SCHEMA.as_bytes(),
        text.as_slice(),
        SOUND,
        wanted,
    )
}

// The text for a name of 128 letters.
fn expect_longest_name(rt: &impl Abort, alloc: Global) -> Result<(), NoMemory> {
    let front = b"SELECT A0.ID AS ";
    let back =
        b" FROM PERSON AS A0 JOIN KNOWS AS A1 ON A1.A = A0.ID JOIN PERSON AS A2 ON A1.B = A2.ID\n";
    let text = filled(alloc, front, b'N', 128, back)?;
    let done = Wanted {
        status: Status::Done,
        out: text.as_slice(),
        err: b"",
    };
    expect_name(rt, alloc, 128, done)
}

pub(crate) const CHECK: [&str; 2] = ["check", "schema"];

pub(crate) const CHECKED: Wanted<'static> = Wanted {
    status: Status::Done,
    out: b"ok\n",
    err: b"",
};

static SCHEMAS: [(&str, Wanted<'static>); 4] = [
    (SCHEMA, CHECKED),
    ("CREATE TABLE t (a DATE);", CHECKED),
    (
        "CREATE TABLE t (a INTEGER, a INTEGER);",
        Wanted {
            status: Status::Refused,
            out: b"",
            err: b"schema:27-28: 302 duplicate column\n",
        },
    ),
    (
        "CREATE TABLE t (a INTEGER); CREATE PROPERTY GRAPH g VERTEX TABLES (t);",
        Wanted {
            status: Status::Refused,
            out: b"",
            err: b"schema:67-68: 403 no key\n",
        },
    ),
];

#[test]
fn checks_schemas(rt: HostRuntime) -> Result<(), Fail> {
    let alloc = rt.alloc();
    for (schema, wanted) in &SCHEMAS {
        expect(&rt, alloc, &CHECK, schema.as_bytes(), b"", SOUND, *wanted)?;
    }
    let largest = refused("schema:1048576-1048576: 201 unexpected\n");
    let spaces = filled(alloc, b"", b' ', 1_048_576, b"")?;
    expect(&rt, alloc, &CHECK, spaces.as_slice(), b"", SOUND, largest)?;
    let too_large = refused("schema:0-0: 107 text too large\n");
    let spaces = filled(alloc, b"", b' ', 1_048_577, b"")?;
    expect(&rt, alloc, &CHECK, spaces.as_slice(), b"", SOUND, too_large)?;
    Ok(())
}

// Row by row: a table's name, and how a line has it.
#[test]
fn shows_details(rt: HostRuntime) -> Result<(), Fail> {
    let alloc = rt.alloc();
    let rows = [
        ("PERSON", "table:0-0: 905 repeated key: PERSON 4 1\n"),
        (
            "we\"ird",
            "table:0-0: 905 repeated key: \"we\"\"ird\" 4 1\n",
        ),
        ("ORDER", "table:0-0: 905 repeated key: \"ORDER\" 4 1\n"),
        ("person", "table:0-0: 905 repeated key: \"person\" 4 1\n"),
    ];
    for (name, line) in rows {
        let refusal = Refusal {
            role: Role::Table,
            span: Span { from: 0, to: 0 },
            code: Code::RepeatedKey,
            detail: Detail::At {
                table: Name::from_bytes(alloc, name.as_bytes())?,
                row: 4,
                column: 1,
            },
        };
        assert_eq!(rt; line_of(alloc, &refusal)?.as_slice(), line.as_bytes());
    }
    Ok(())
}

#[test]
fn keeps_limits(rt: HostRuntime) -> Result<(), Fail> {
    let alloc = rt.alloc();
    expect_spaces(
        &rt,
        alloc,
        1_048_576,
        "schema:1048576-1048576: 201 unexpected\n",
    )?;
    expect_spaces(&rt, alloc, 1_048_577, "schema:0-0: 107 text too large\n")?;
    expect_longest_name(&rt, alloc)?;
    expect_name(&rt, alloc, 129, refused("query:65-194: 104 bad name\n"))?;
    expect_name(
        &rt,
        alloc,
        1_000_000,
        refused("query:65-1000065: 104 bad name\n"),
    )?;
    expect(
        &rt,
        alloc,
        &TRANSLATE,
        b"CREATE TABLE \xff (",
        b"",
        SOUND,
        refused("schema:13-14: 101 bad byte\n"),
    )?;
    Ok(())
}

// A query with so many columns. It has 22 tokens and six for each column.
fn wide_query(alloc: Global, columns: u32) -> Result<List<u8>, NoMemory> {
    let mut text = bytes(
        alloc,
        b"SELECT * FROM GRAPH_TABLE (G MATCH (x)-[e]->(y) COLUMNS (x.id AS n0",
    )?;
    for i in 1..columns {
        text.extend(b", y.age AS n")?;
        text.extend(i.to_string(alloc)?.as_bytes())?;
    }
    text.extend(b"))")?;
    Ok(text)
}

fn is_wide_done(alloc: Global, columns: u32) -> Result<bool, NoMemory> {
    let query = wide_query(alloc, columns)?;
    Ok(translate_texts(alloc, SCHEMA.as_bytes(), query.as_slice()).is_ok())
}

// 65,536 tokens, and six more.
#[test]
fn counts_tokens(rt: HostRuntime) -> Result<(), Fail> {
    assert!(rt; is_wide_done(rt.alloc(), 10_919)?);
    assert!(rt; !is_wide_done(rt.alloc(), 10_920)?);
    Ok(())
}

#[test]
fn asks_for_its_words(rt: HostRuntime) -> Result<(), Fail> {
    let alloc = rt.alloc();
    let usage = Wanted {
        status: Status::Usage,
        out: b"",
        err: USAGE.as_bytes(),
    };
    let forms: [&[&str]; 16] = [
        &[],
        &["translate"],
        &["translate", "schema"],
        &["translate", "schema", "query", "query"],
        &["TRANSLATE", "schema", "query"],
        &["check"],
        &["check", "schema", "query", "query"],
        &["run", "schema"],
        &["run", "schema", "query", "person"],
        &["eval", "schema", "query", "person="],
        &["sample"],
        &["sample", "0"],
        &["sample", "05"],
        &["sample", "+5"],
        &["sample", "2001"],
        &["sample", "5", "5"],
    ];
    for words in forms {
        expect(
            &rt,
            alloc,
            words,
            SCHEMA.as_bytes(),
            QUERY.as_bytes(),
            SOUND,
            usage,
        )?;
    }
    Ok(())
}

pub(crate) const READ_FAULT: Wanted<'static> = Wanted {
    status: Status::ReadFault,
    out: b"",
    err: b"read fault\n",
};

// Each call of the shelf in turn, with pieces of seven bytes: two files are opened, and each is read to its end.
#[test]
fn tells_read_faults(rt: HostRuntime) -> Result<(), Fail> {
    let alloc = rt.alloc();
    let done = Wanted {
        status: Status::Done,
        out: SQL.as_bytes(),
        err: b"",
    };
    let calls = 2 + SCHEMA.len().div_ceil(7) as u64 + 1 + QUERY.len().div_ceil(7) as u64 + 1;
    for call in 0..calls + 1 {
        let outside = Outside {
            shelf: call,
            shelf_piece: 7,
            ..SOUND
        };
        let wanted = if call < calls { READ_FAULT } else { done };
        expect(
            &rt,
            alloc,
            &TRANSLATE,
            SCHEMA.as_bytes(),
            QUERY.as_bytes(),
            outside,
            wanted,
        )?;
    }
    // The second file is not there; it is not asked for where the first one is refused.
    expect(
        &rt,
        alloc,
        &["translate", "schema", "other"],
        SCHEMA.as_bytes(),
        b"",
        SOUND,
        READ_FAULT,
    )?;
    expect(
        &rt,
        alloc,
        &["translate", "query", "other"],
        b"",
        b"",
        SOUND,
        refused("schema:0-0: 201 unexpected\n"),
    )?;
    Ok(())
}

// Each call of a sink in turn, with pieces of three bytes; what was taken before it is a prefix of the text.
#[test]
fn tells_write_faults(rt: HostRuntime) -> Result<(), Fail> {
    let alloc = rt.alloc();
    let calls = SQL.len().div_ceil(3);
    for call in 0..calls + 1 {
        let outside = Outside {
            out: call as u64,
            out_piece: 3,
            ..SOUND
        };
        let taken = SQL.len().min(3 * call);
        let wanted = Wanted {
            status: if call < calls {
                Status::WriteFault
            } else {
                Status::Done
            },
            out: &SQL.as_bytes()[..taken],
            err: b"",
        };
        expect(
            &rt,
            alloc,
            &TRANSLATE,
            SCHEMA.as_bytes(),
            QUERY.as_bytes(),
            outside,
            wanted,
        )?;
    }
    Ok(())
}

#[test]
fn leaves_prefixes(rt: HostRuntime) -> Result<(), Fail> {
    let alloc = rt.alloc();
    let torn = Wanted {
        status: Status::WriteFault,
        out: b"SELECT A0.",
        err: b"",
    };
    let second = Outside {
        out: 1,
        out_piece: 10,
        ..SOUND
    };
    expect(
        &rt,
        alloc,
        &TRANSLATE,
        SCHEMA.as_bytes(),
        QUERY.as_bytes(),
        second,
        torn,
    )?;
    // A refusal over an `err` that fails leaves both sinks empty.
    let silent = Wanted {
        status: Status::WriteFault,
        out: b"",
        err: b"",
    };
    expect(
        &rt,
        alloc,
        &TRANSLATE,
        b"",
        b"",
        Outside { err: 0, ..SOUND },
        silent,
    )?;
    Ok(())
}
