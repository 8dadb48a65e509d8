use crate::schema_shown::show_tree;
use pgq_base::{List, Role, Stop};
use schema_parser::parse_schema;
use sql_lexer::{Token, lex};
use std::alloc::Global;
use std::test::Fail;

const MOST_BYTES: usize = 1048576;

const SCHEMA_S: &str =
    "CREATE TABLE person (id INTEGER PRIMARY KEY, name VARCHAR(20), age INTEGER);\nCREATE TABLE knows (id INTEGER PRIMARY KEY, a INTEGER REFERENCES person (id),\n  b INTEGER REFERENCES person (id), since INTEGER);\nCREATE PROPERTY GRAPH g VERTEX TABLES (person)\n  EDGE TABLES (knows SOURCE KEY (a) REFERENCES person (id)\n                     DESTINATION KEY (b) REFERENCES person (id));\n";

fn tokens_of(alloc: Global, text: &str) -> Result<List<Token>, Fail> {
    let bytes = text.as_bytes();
    if bytes.len() > MOST_BYTES {
        return Err("the text is too long")?;
    }
    match lex(alloc, bytes, Role::Schema) {
        Ok(tokens) => Ok(tokens),
        Err(_) => Err("the text has no tokens")?,
    }
}

// `ok`, or the code and the bytes of the refusal.
fn verdict(alloc: Global, tokens: &[Token], end: u32) -> Result<String, Fail> {
    match parse_schema(alloc, tokens, end) {
        Ok(_) => Ok(String::from_str(alloc, "ok")?),
        Err(Stop::NoMemory) => Ok(String::from_str(alloc, "no memory")?),
        Err(Stop::Refused(refusal)) => {
            let code = refusal.code.number();
            let from = refusal.span.from;
            let to = refusal.span.to;
            if refusal.role == Role::Schema {
                Ok(format!(in alloc; "{code} {from}-{to}")?)
            } else {
                Ok(String::from_str(alloc, "another role")?)
            }
        }
    }
}

fn verdict_of(alloc: Global, text: &str) -> Result<String, Fail> {
    let tokens = tokens_of(alloc, text)?;
    if text.len() > MOST_BYTES {
        return Err("the text is too long")?;
    }
    verdict(alloc, tokens.as_slice(), text.len() as u32)
}

// The tree that a text spells, in the notation of `show_tree`.
fn tree_of(alloc: Global, text: &str) -> Result<String, Fail> {
    let tokens = tokens_of(alloc, text)?;
    if text.len() > MOST_BYTES {
        return Err("the text is too long")?;
    }
    match parse_schema(alloc, tokens.as_slice(), text.len() as u32) {
        Ok(tree) => show_tree(alloc, &tree),
        Err(_) => Err("the text is refused")?,
    }
}

fn repeated(
    alloc: Global,
    front: &str,
    part: &str,
    count: u32,
    back: &str,
) -> Result<String, Fail> {
    let mut text = String::from_str(alloc, front)?;
    for turn in 0..count {
        text.push_str(part)?;
    }
    text.push_str(back)?;
    Ok(text)
}

// Texts and what is said of each.
static TEXTS: [(&str, &str); 26] = [
    (SCHEMA_S, "ok"),
    (
        "CREATE TABLE person (id INTEGER PRIMARY KEY, name VARCHAR(20));\nCREATE TABLE firm (id INTEGER PRIMARY KEY, name VARCHAR(20), city VARCHAR(20));\nCREATE PROPERTY GRAPH h VERTEX TABLES (\n  person LABEL party PROPERTIES (id, name),\n  firm LABEL party PROPERTIES (id, name) LABEL firm PROPERTIES (city));\n",
        "ok",
    ),
    (
        "CREATE TABLE \"we\"\"ird\" (p INTEGER, q INTEGER, n VARCHAR(5), PRIMARY KEY (p, q));\nCREATE TABLE link (id INTEGER PRIMARY KEY, p1 INTEGER, q1 INTEGER, p2 INTEGER, q2 INTEGER,\n  FOREIGN KEY (p1, q1) REFERENCES \"we\"\"ird\" (p, q),\n  FOREIGN KEY (p2, q2) REFERENCES \"we\"\"ird\" (p, q));\nCREATE PROPERTY GRAPH w VERTEX TABLES (\"we\"\"ird\" AS v)\n  EDGE TABLES (link SOURCE KEY (p1, q1) REFERENCES v (p, q)\n                    DESTINATION KEY (p2, q2) REFERENCES v (p, q));\n",
        "ok",
    ),
    (
        "-- accounts and transfers\nCREATE TABLE account (id BIGINT NOT NULL, owner VARCHAR(100) NOT NULL, blocked BOOLEAN,\n  CONSTRAINT account_pk PRIMARY KEY (id));\nCREATE TABLE transfer (id BIGINT PRIMARY KEY, src BIGINT NOT NULL, dst BIGINT NOT NULL, cents BIGINT,\n  CONSTRAINT t_src FOREIGN KEY (src) REFERENCES account ON DELETE CASCADE,\n  CONSTRAINT t_dst FOREIGN KEY (dst) REFERENCES account (id));\nCREATE PROPERTY GRAPH bank VERTEX TABLES (account)\n  EDGE TABLES (transfer SOURCE KEY (src) REFERENCES account (id)\n                        DESTINATION KEY (dst) REFERENCES account (id)\n                        LABEL moved PROPERTIES (id, cents));\n",
        "ok",
    ),
    // what the schema rules refuse later
    ("CREATE TABLE t (a INTEGER, a INTEGER);", "ok"),
    ("CREATE TABLE t (a DATE);", "ok"),
    (
        "CREATE TABLE t (a INTEGER); CREATE PROPERTY GRAPH g VERTEX TABLES (t);",
        "ok",
    ),
    // the end of the text, and a token that no text goes on with
    ("", "201 0-0"),
    ("  ", "201 2-2"),
    (";", "201 0-1"),
    ("CREATE", "201 6-6"),
    ("CREATE INDEX", "201 7-12"),
    ("CREATE TABLE t (a INTEGER", "201 25-25"),
    ("CREATE TABLE t (a INTEGER -- c", "201 30-30"),
    ("CREATE TABLE t (a INTEGER,)", "201 26-27"),
    ("CREATE TABLE t (a INTEGER) CREATE", "201 27-33"),
    ("CREATE TABLE t (a INTEGER);", "ok"),
    ("CREATE TABLE t (a INTEGER);;", "201 27-28"),
    ("CREATE TABLE t ()", "201 16-17"),
    ("CREATE TABLE t (a)", "201 17-18"),
    ("CREATE TABLE a.b (c INT)", "201 14-15"),
    // types
    (
        "CREATE TABLE t (a DOUBLE PRECISION, b VARCHAR (20) x y, c n(5, 2))",
        "ok",
    ),
    ("CREATE TABLE t (a n(5, 2, 1))", "201 24-25"),
    ("CREATE TABLE t (a n())", "201 20-21"),
    ("CREATE TABLE t (a n(9223372036854775807))", "ok"),
    ("CREATE TABLE t (a n(9223372036854775808))", "201 20-39"),
];

#[test]
fn texts_are_read_or_refused(rt: HostRuntime) -> Result<(), Fail> {
    let alloc = rt.alloc();
    for (text, wanted) in TEXTS {
        let shown = verdict_of(alloc, text)?;
        assert_eq!(rt; shown.as_str(), wanted, "at {text}");
    }
    Ok(())
}

// Texts and what is said of each.
static RULE_TEXTS: [(&str, &str); 26] = [
    ("CREATE TABLE t (a \"INTEGER\")", "201 18-27"),
    ("CREATE TABLE t (a n(5)(5))", "201 22-23"),
    // rules of columns
    (
        "CREATE TABLE t (a INT CONSTRAINT c NOT NULL UNIQUE CONSTRAINT \"d\" PRIMARY KEY REFERENCES u)",
        "ok",
    ),
    ("CREATE TABLE t (a INT NOT)", "201 25-26"),
    ("CREATE TABLE t (a INT NULL)", "201 22-26"),
    ("CREATE TABLE t (a INT CONSTRAINT c)", "201 34-35"),
    (
        "CREATE TABLE t (a INT CONSTRAINT c FOREIGN KEY (a) REFERENCES u)",
        "201 35-42",
    ),
    (
        "CREATE TABLE t (a INT REFERENCES u (x, y) ON DELETE NO ACTION ON UPDATE SET NULL ON UPDATE RESTRICT ON DELETE SET DEFAULT ON DELETE CASCADE)",
        "ok",
    ),
    ("CREATE TABLE t (a INT REFERENCES u ON DELETE)", "201 44-45"),
    (
        "CREATE TABLE t (a INT REFERENCES u ON INSERT CASCADE)",
        "201 38-44",
    ),
    ("CREATE TABLE t (a INT REFERENCES u ())", "201 36-37"),
    (
        "CREATE TABLE t (a INT DEFAULT 1, b INT DEFAULT -1, c INT DEFAULT -9223372036854775808, d INT DEFAULT 'x', e INT DEFAULT TRUE, f INT DEFAULT FALSE)",
        "ok",
    ),
    (
        "CREATE TABLE t (a INT DEFAULT 9223372036854775808)",
        "201 30-49",
    ),
    (
        "CREATE TABLE t (a INT DEFAULT 1.50, b INT DEFAULT -0.5, c INT DEFAULT DATE '2024-02-29', d INT DEFAULT '2024-02-29')",
        "ok",
    ),
    (
        "CREATE TABLE t (a INT DEFAULT DATE '2023-02-29')",
        "201 35-47",
    ),
    ("CREATE TABLE t (a INT DEFAULT - DATE)", "201 32-36"),
    ("CREATE TABLE t (a INT DEFAULT NULL)", "201 30-34"),
    ("CREATE TABLE t (a INT DEFAULT - 'x')", "201 32-35"),
    ("CREATE TABLE t (a INT DEFAULT b)", "201 30-31"),
    // rules of tables
    (
        "CREATE TABLE t (CONSTRAINT c CHECK (a), a INT, PRIMARY KEY (a), UNIQUE (a, b), CONSTRAINT f FOREIGN KEY (a) REFERENCES u)",
        "ok",
    ),
    ("CREATE TABLE t (CONSTRAINT c a INT)", "201 29-30"),
    ("CREATE TABLE t (a INT, FOREIGN KEY (a))", "201 38-39"),
    ("CREATE TABLE t (a INT, UNIQUE a)", "201 30-31"),
    (
        "CREATE TABLE t (a INT, UNIQUE NULLS DISTINCT (a))",
        "201 30-35",
    ),
    ("CREATE TABLE t (a INT, NOT NULL)", "201 23-26"),
    // conditions of checks
    (
        "CREATE TABLE t (a INT CHECK (), CHECK (a > (b + (1)) [ ] ] { , ; 'x' 9223372036854775808))",
        "ok",
    ),
];

#[test]
fn rules_are_read_or_refused(rt: HostRuntime) -> Result<(), Fail> {
    let alloc = rt.alloc();
    for (text, wanted) in RULE_TEXTS {
        let shown = verdict_of(alloc, text)?;
        assert_eq!(rt; shown.as_str(), wanted, "at {text}");
    }
    Ok(())
}

// Texts and what is said of each.
static GRAPH_TEXTS: [(&str, &str); 26] = [
    ("CREATE TABLE t (a INT CHECK (a", "201 30-30"),
    ("CREATE TABLE t (a INT CHECK a)", "201 28-29"),
    // graphs
    (
        "CREATE PROPERTY GRAPH g NODE TABLES (t) RELATIONSHIP TABLES (e SOURCE v DESTINATION w)",
        "ok",
    ),
    ("CREATE PROPERTY GRAPH g VERTEX TABLES (t)", "ok"),
    (
        "CREATE PROPERTY GRAPH g EDGE TABLES (e SOURCE v DESTINATION w)",
        "201 24-28",
    ),
    ("CREATE PROPERTY GRAPH g VERTEX TABLES ()", "201 39-40"),
    ("CREATE PROPERTY GRAPH g VERTEX TABLES (t,)", "201 41-42"),
    (
        "CREATE PROPERTY GRAPH g VERTEX TABLES (t AS v KEY (a, b) LABEL l LABEL m NO PROPERTIES DEFAULT LABEL PROPERTIES ALL COLUMNS LABEL n PROPERTIES ARE ALL COLUMNS EXCEPT (c, d) LABEL o PROPERTIES (a AS p, b))",
        "ok",
    ),
    (
        "CREATE PROPERTY GRAPH g VERTEX TABLES (t NO PROPERTIES, u PROPERTIES (a), v PROPERTIES ARE ALL COLUMNS)",
        "ok",
    ),
    (
        "CREATE PROPERTY GRAPH g VERTEX TABLES (t NO PROPERTIES LABEL l)",
        "201 55-60",
    ),
    (
        "CREATE PROPERTY GRAPH g VERTEX TABLES (t LABEL l KEY (a))",
        "201 49-52",
    ),
    (
        "CREATE PROPERTY GRAPH g VERTEX TABLES (t KEY (a) AS v)",
        "201 49-51",
    ),
    (
        "CREATE PROPERTY GRAPH g VERTEX TABLES (t DEFAULT l)",
        "201 49-50",
    ),
    (
        "CREATE PROPERTY GRAPH g VERTEX TABLES (t PROPERTIES ARE (a))",
        "201 56-57",
    ),
    (
        "CREATE PROPERTY GRAPH g VERTEX TABLES (t PROPERTIES (a.b))",
        "201 54-55",
    ),
    (
        "CREATE PROPERTY GRAPH g VERTEX TABLES (t) EDGE TABLES (e SOURCE \"KEY\" DESTINATION t)",
        "ok",
    ),
    (
        "CREATE PROPERTY GRAPH g VERTEX TABLES (t) EDGE TABLES (e SOURCE KEY DESTINATION t)",
        "201 68-79",
    ),
    (
        "CREATE PROPERTY GRAPH g VERTEX TABLES (t) EDGE TABLES (e SOURCE KEY (a) REFERENCES t DESTINATION KEY (b) REFERENCES t (id) LABEL m)",
        "ok",
    ),
    (
        "CREATE PROPERTY GRAPH g VERTEX TABLES (t) EDGE TABLES (e DESTINATION t SOURCE t)",
        "201 57-68",
    ),
    (
        "CREATE PROPERTY GRAPH g VERTEX TABLES (t) EDGE TABLES (e SOURCE t)",
        "201 65-66",
    ),
    // words that the grammar names, as names
    (
        "CREATE TABLE key (source INT, label INT, tables INT, no INT, action INT, set key, properties vertex edge graph)",
        "ok",
    ),
    ("CREATE TABLE table (a INT)", "201 13-18"),
    ("CREATE TABLE \"table\" (\"check\" INT)", "ok"),
    (
        "CREATE PROPERTY GRAPH property VERTEX TABLES (tables AS label KEY (key) LABEL properties PROPERTIES (columns AS are), label LABEL label) EDGE TABLES (source SOURCE destination DESTINATION source LABEL no)",
        "ok",
    ),
    ("CREATE PROPERTY GRAPH g VERTEX TABLES (label)", "ok"),
    ("create table T (A int)", "ok"),
];

#[test]
fn graphs_are_read_or_refused(rt: HostRuntime) -> Result<(), Fail> {
    let alloc = rt.alloc();
    for (text, wanted) in GRAPH_TEXTS {
        let shown = verdict_of(alloc, text)?;
        assert_eq!(rt; shown.as_str(), wanted, "at {text}");
    }
    Ok(())
}

#[test]
fn depth_and_length_have_limits(rt: HostRuntime) -> Result<(), Fail> {
    let alloc = rt.alloc();
    // `CREATE TABLE t (a INT CHECK ` has 28 bytes, and one parenthesis is open behind it.
    let front = "CREATE TABLE t (a INT CHECK ";
    let deepest = repeated(alloc, front, "(", 63, "")?;
    let shown = verdict_of(
        alloc,
        repeated(alloc, deepest.as_str(), ")", 63, ")")?.as_str(),
    )?;
    assert_eq!(rt; shown.as_str(), "ok");
    assert_eq!(rt; verdict_of(alloc, deepest.as_str())?.as_str(), "201 91-91");
    let deeper = repeated(alloc, front, "(", 64, "")?;
    let shown = verdict_of(
        alloc,
        repeated(alloc, deeper.as_str(), ")", 64, ")")?.as_str(),
    )?;
    assert_eq!(rt; shown.as_str(), "801 91-92");
    // the parentheses that are closed again do not count, nor do square brackets
    let rows = [
        (repeated(alloc, front, "(()", 62, "(")?, "201 215-215"),
        (repeated(alloc, front, "(()", 63, "(")?, "801 215-216"),
        (
            repeated(alloc, "CREATE TABLE t (a INT CHECK ([", "[", 100, "])")?,
            "201 132-132",
        ),
        // the earlier fault decides
        (
            repeated(alloc, "CREATE TABLE t (a CHECK ", "(", 64, "")?,
            "201 18-23",
        ),
        (
            repeated(alloc, "CREATE TABLE t (a INT, b INT CHECK ", "(", 64, "")?,
            "801 98-99",
        ),
        // long texts
        (
            repeated(alloc, "CREATE TABLE t (a INT", ", a INT", 10000, ")")?,
            "ok",
        ),
        (
            repeated(alloc, "CREATE TABLE t (a INT CHECK (", "x ", 60000, "))")?,
            "ok",
        ),
        (
            repeated(alloc, "", "CREATE TABLE t (a b);", 7000, "")?,
            "ok",
        ),
        (
            repeated(alloc, "CREATE TABLE t (a ", "b ", 60000, ")")?,
            "ok",
        ),
    ];
    for (text, wanted) in &rows {
        assert_eq!(rt; verdict_of(alloc, text.as_str())?.as_str(), *wanted);
    }
    // a text of spaces has no tokens
    assert_eq!(rt;
        verdict(alloc, &[], 1048576)?.as_str(),
        "201 1048576-1048576"
    );
    Ok(())
}

#[test]
fn cut_texts_are_refused_at_their_end(rt: HostRuntime) -> Result<(), Fail> {
    let alloc = rt.alloc();
    let tokens = tokens_of(alloc, SCHEMA_S)?;
    let tokens = tokens.as_slice();
    let mut whole = String::new(alloc);
    for count in 0..tokens.len() {
        let cut = &tokens[..count];
        let mut end = 0;
        for token in cut {
            end = token.span.to;
        }
        let shown = verdict(alloc, cut, end)?;
        if shown.as_str() == "ok" {
            whole.push_str(format!(in alloc; "{count} ")?.as_str())?;
        } else {
            let wanted = format!(in alloc; "201 {end}-{end}")?;
            assert_eq!(rt; shown.as_str(), wanted.as_str());
        }
    }
    // The statements end at the 18th, the 47th and the 82nd token, the graph's vertices at the 57th, and a
    // semicolon may stand behind each statement but is not needed.
    assert_eq!(rt; whole.as_str(), "18 19 47 48 57 82 ");
    Ok(())
}

#[test]
fn trees_are_those_of_the_tokens(rt: HostRuntime) -> Result<(), Fail> {
    let alloc = rt.alloc();
    let rows = [
        (
            "CREATE TABLE t (a INT PRIMARY KEY, b varchar(20) x NOT NULL, CONSTRAINT c UNIQUE (a, b), CHECK (a))",
            "table T@13-14 [A@16-17 INT@18-21 primary(A@16-17,)@22-29] [B@35-36 VARCHAR 20 +X@37-50 not-null@51-54] unique(A@82-83,B@85-86,)@74-80 check@89-94; ",
        ),
        (
            "CREATE TABLE u (x n(1, 2) REFERENCES t (a) ON DELETE SET NULL CONSTRAINT k UNIQUE DEFAULT -1, FOREIGN KEY (x, y) REFERENCES t);",
            "table U@13-14 [X@16-17 N 1 2@18-25 foreign(X@16-17,)T@37-38(A@40-41,)@26-36 unique(X@16-17,)@75-81 default@82-89] foreign(X@107-108,Y@110-111,)T@124-125()@94-101; ",
        ),
        (
            "CREATE PROPERTY GRAPH g VERTEX TABLES (t AS v KEY (a) LABEL l PROPERTIES (a, b AS c) DEFAULT LABEL NO PROPERTIES, \"u\" PROPERTIES ALL COLUMNS EXCEPT (z), w) EDGE TABLES (e SOURCE v DESTINATION KEY (y) REFERENCES u (k) LABEL m PROPERTIES ARE ALL COLUMNS, f AS h SOURCE \"KEY\" DESTINATION KEY (p, q) REFERENCES w);",
            "graph G@22-23 [T@39-40 as V@44-45 key@46-49(A@51-52,) :L@60-61 A@74-75 B@77-78=C@82-83 :@85-98 nothing] [u@114-117 :@114-117 all-but(Z@149-150,)] [W@153-154 :@153-154 all-but()] <E@169-170 :M@223-224 all-but() from V@178-179 to (Y@197-198,)U@211-212(K@214-215,)> <F@253-254 as H@258-259 :@258-259 all-but() from KEY@267-272 to (P@290-291,Q@293-294,)W@307-308()>; ",
        ),
    ];
    for (text, wanted) in rows {
        assert_eq!(rt; tree_of(alloc, text)?.as_str(), wanted);
    }
    Ok(())
}
