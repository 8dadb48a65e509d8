use crate::program_tests::{SCHEMA, SOUND, Wanted, expect, refused};
use pgq_base::NoMemory;
use pgq_program::Status;
use std::alloc::Global;
use std::process::Abort;
use std::test::Fail;

const CHECK: [&str; 3] = ["check", "schema", "query"];

pub(crate) const BANK: &str =
    "-- accounts and transfers\nCREATE TABLE account (id BIGINT NOT NULL, owner VARCHAR(100) NOT NULL, blocked BOOLEAN,\n  CONSTRAINT account_pk PRIMARY KEY (id));\nCREATE TABLE transfer (id BIGINT PRIMARY KEY, src BIGINT NOT NULL, dst BIGINT NOT NULL, cents BIGINT,\n  CONSTRAINT t_src FOREIGN KEY (src) REFERENCES account ON DELETE CASCADE,\n  CONSTRAINT t_dst FOREIGN KEY (dst) REFERENCES account (id));\nCREATE PROPERTY GRAPH bank VERTEX TABLES (account)\n  EDGE TABLES (transfer SOURCE KEY (src) REFERENCES account (id)\n                        DESTINATION KEY (dst) REFERENCES account (id)\n                        LABEL moved PROPERTIES (id, cents));\n";

pub(crate) const TRAILS: &str =
    "SELECT * FROM GRAPH_TABLE (bank MATCH\n  TRAIL (a IS account WHERE a.blocked IS TRUE)\n        -[t IS moved WHERE t.cents >= 100000]->{1,4}(b IS account)\n  WHERE a.id <> b.id COLUMNS (a.owner AS a, b.owner AS b)) AS found;";

pub(crate) const PARTIES: &str =
    "CREATE TABLE person (id INTEGER PRIMARY KEY, name VARCHAR(20));\nCREATE TABLE firm (id INTEGER PRIMARY KEY, name VARCHAR(20), city VARCHAR(20));\nCREATE PROPERTY GRAPH h VERTEX TABLES (\n  person LABEL party PROPERTIES (id, name),\n  firm LABEL party PROPERTIES (id, name) LABEL firm PROPERTIES (city));\n";

// Queries without a fault, with their weights.
static WEIGHTS: [(&str, &str); 27] = [
    (
        "SELECT * FROM GRAPH_TABLE (G MATCH (x)-[e]->(y) COLUMNS (x.name AS x, y.name AS y))",
        "ok, weight 8\n",
    ),
    (
        "SELECT * FROM GRAPH_TABLE (G MATCH (x)-[e]-(y) COLUMNS (x.name AS x, y.name AS y))",
        "ok, weight 8\n",
    ),
    (
        "SELECT * FROM GRAPH_TABLE (G MATCH (x)-[e]->{0,1}(y) COLUMNS (x.name AS x, y.name AS y))",
        "ok, weight 12\n",
    ),
    (
        "SELECT * FROM GRAPH_TABLE (G MATCH (x)->{1,2}->{1,2}(y) COLUMNS (x.name AS x, y.name AS y))",
        "ok, weight 62\n",
    ),
    (
        "SELECT * FROM GRAPH_TABLE (G MATCH (x)-[e]->{1,2}()-[f]->{1,2}(y) COLUMNS (x.name AS x, y.name AS y))",
        "ok, weight 64\n",
    ),
    (
        "SELECT * FROM GRAPH_TABLE (G MATCH TRAIL (x)-[e]->{2}(y) COLUMNS (x.name AS x, y.name AS y))",
        "ok, weight 13\n",
    ),
    (
        "SELECT * FROM GRAPH_TABLE (G MATCH ACYCLIC (x)-[e]->{2}(y) COLUMNS (x.name AS x, y.name AS y))",
        "ok, weight 15\n",
    ),
    (
        "SELECT * FROM GRAPH_TABLE (G MATCH WALK (x)-[e]->{2}(y) COLUMNS (x.name AS x, y.name AS y))",
        "ok, weight 12\n",
    ),
    (
        "SELECT * FROM GRAPH_TABLE (G MATCH SIMPLE (x)-[e]->{1,3}(y) COLUMNS (x.name AS x, y.name AS y))",
        "ok, weight 43\n",
    ),
    (
        "SELECT * FROM GRAPH_TABLE (G MATCH SIMPLE (x) COLUMNS (x.name AS x))",
        "ok, weight 3\n",
    ),
    (
        "SELECT * FROM GRAPH_TABLE (G MATCH ALL SHORTEST (x)-[e]->{1,3}(y) COLUMNS (x.name AS x, y.name AS y))",
        "ok, weight 47\n",
    ),
    (
        "SELECT * FROM GRAPH_TABLE (G MATCH ALL SHORTEST (x)-[e]->{0,3}(y) COLUMNS (x.name AS x, y.name AS y))",
        "ok, weight 54\n",
    ),
    (
        "SELECT * FROM GRAPH_TABLE (G MATCH ALL SHORTEST (x)((a)-[e]->(b) WHERE e.since > 2001){1,3}(y) COLUMNS (x.name AS x, y.name AS y))",
        "ok, weight 77\n",
    ),
    (
        "SELECT * FROM GRAPH_TABLE (G MATCH ALL SHORTEST ((x)-[e]->(z)->{0,2}(y) WHERE z.id <> y.id) COLUMNS (x.name AS x, y.name AS y))",
        "ok, weight 65\n",
    ),
    (
        "SELECT * FROM GRAPH_TABLE (G MATCH (x IS person & !person) COLUMNS (x.name AS x))",
        "ok, weight 0\n",
    ),
    (
        "SELECT * FROM GRAPH_TABLE (G MATCH (x)-[e]->(y), (y)-[f]->(z) COLUMNS (x.name AS x, y.name AS y))",
        "ok, weight 20\n",
    ),
    (
        "SELECT * FROM GRAPH_TABLE (G MATCH (x), (y), (z) COLUMNS (x.name AS x, y.name AS y))",
        "ok, weight 12\n",
    ),
    (
        "SELECT * FROM GRAPH_TABLE (G MATCH (x)-[e]->(y) | (x)<-[e]-(y) COLUMNS (x.name AS x, y.name AS y))",
        "ok, weight 14\n",
    ),
    (
        "SELECT * FROM GRAPH_TABLE (G MATCH (x) WHERE x.age <-5 COLUMNS (x.name AS x))",
        "ok, weight 6\n",
    ),
    (
        "SELECT * FROM GRAPH_TABLE (G MATCH (x) WHERE NOT (x.age > 25) COLUMNS (x.name AS x))",
        "ok, weight 7\n",
    ),
    (
        "SELECT * FROM GRAPH_TABLE (G MATCH (x)-[e]->{1,32}(y) COLUMNS (x.id AS i))",
        "ok, weight 2208\n",
    ),
    (
        "SELECT * FROM GRAPH_TABLE (G MATCH (x)->{32}->{32}(y) COLUMNS (x.id AS i))",
        "ok, weight 259\n",
    ),
    (
        "SELECT * FROM GRAPH_TABLE (G MATCH (x) COLUMNS ((x.id)))",
        "ok, weight 3\n",
    ),
    (
        "SELECT * FROM GRAPH_TABLE (G MATCH (x)-[x1]->(x) COLUMNS (x.name AS x))",
        "ok, weight 7\n",
    ),
    (
        "SELECT * FROM GRAPH_TABLE (G MATCH (x IS %) COLUMNS (x.name AS x))",
        "ok, weight 3\n",
    ),
    (
        "SELECT * FROM GRAPH_TABLE (G MATCH (x) WHERE x.name IN ('a', 'b') AND x.age BETWEEN 1 AND 2 OR COALESCE(x.age, 1) IS NULL COLUMNS (x.name AS x))",
        "ok, weight 17\n",
    ),
    (
        "SELECT * FROM GRAPH_TABLE (G MATCH (x)-[e]->(y)<-[f]-(x), (x)-[g]-(y) COLUMNS (x.name AS x, y.name AS y))",
        "ok, weight 26\n",
    ),
];

// The phase forms: what the profile leaves out.
static FORMS: [(&str, &str); 21] = [
    (
        "SELECT * FROM GRAPH_TABLE (G MATCH (x)~(y) COLUMNS (x.name AS x))",
        "query:38-39: 501 undirected edge\n",
    ),
    (
        "SELECT * FROM GRAPH_TABLE (G MATCH (x)~[e]~(y) COLUMNS (x.name AS x))",
        "query:38-43: 501 undirected edge\n",
    ),
    (
        "SELECT * FROM GRAPH_TABLE (G MATCH (x)<~(y) COLUMNS (x.name AS x))",
        "query:38-40: 501 undirected edge\n",
    ),
    (
        "SELECT * FROM GRAPH_TABLE (G MATCH (x)-[e]->*(y) COLUMNS (x.name AS x))",
        "query:44-45: 502 unbounded quantifier\n",
    ),
    (
        "SELECT * FROM GRAPH_TABLE (G MATCH (x)-[e]->+(y) COLUMNS (x.name AS x))",
        "query:44-45: 502 unbounded quantifier\n",
    ),
    (
        "SELECT * FROM GRAPH_TABLE (G MATCH (x)-[e]->{2,}(y) COLUMNS (x.name AS x))",
        "query:44-48: 502 unbounded quantifier\n",
    ),
    (
        "SELECT * FROM GRAPH_TABLE (G MATCH ANY (x)->(y) COLUMNS (x.name AS x))",
        "query:35-38: 503 any selector\n",
    ),
    (
        "SELECT * FROM GRAPH_TABLE (G MATCH ANY 2 (x)->(y) COLUMNS (x.name AS x))",
        "query:35-40: 503 any selector\n",
    ),
    (
        "SELECT * FROM GRAPH_TABLE (G MATCH ANY SHORTEST (x)->{1,2}(y) COLUMNS (x.name AS x))",
        "query:35-47: 503 any selector\n",
    ),
    (
        "SELECT * FROM GRAPH_TABLE (G MATCH SHORTEST 2 (x)->{1,2}(y) COLUMNS (x.name AS x))",
        "query:35-45: 503 any selector\n",
    ),
    (
        "SELECT * FROM GRAPH_TABLE (G MATCH (x)((a)-[e]->(b))?(y) COLUMNS (x.name AS x))",
        "query:52-53: 504 optional part\n",
    ),
    (
        "SELECT * FROM GRAPH_TABLE (G MATCH ((x)->{2}(y))? COLUMNS (1 AS c))",
        "query:48-49: 504 optional part\n",
    ),
    (
        "SELECT * FROM GRAPH_TABLE (G MATCH (x)((a)->{1,2}(b)){1,2}(y) COLUMNS (x.name AS x))",
        "query:44-49: 505 nested part\n",
    ),
    (
        "SELECT * FROM GRAPH_TABLE (G MATCH p = (x)->(y) COLUMNS (x.name AS x))",
        "query:35-36: 506 path variable\n",
    ),
    (
        "SELECT * FROM GRAPH_TABLE (G MATCH ((x)->(y) | (x)<-(y)) COLUMNS (x.name AS x))",
        "query:45-46: 507 path union\n",
    ),
    (
        "SELECT * FROM GRAPH_TABLE (G MATCH (x)->(y) |+| (x)<-(y) COLUMNS (x.name AS x))",
        "query:44-47: 507 path union\n",
    ),
    (
        "SELECT * FROM GRAPH_TABLE (G MATCH (TRAIL (x)->{1,2}(y)) COLUMNS (x.name AS x))",
        "query:36-41: 508 inner mode\n",
    ),
    (
        "SELECT * FROM GRAPH_TABLE (G MATCH ((x)){1,2} COLUMNS (1 AS c))",
        "query:35-40: 509 part without edge\n",
    ),
    (
        "SELECT * FROM GRAPH_TABLE (G MATCH (x)->{2,1}(y) COLUMNS (x.name AS x))",
        "query:40-45: 510 quantifier order\n",
    ),
    (
        "SELECT * FROM GRAPH_TABLE (G MATCH (x)->{2,1}->{3,2}(y) COLUMNS (x.name AS x))",
        "query:40-45: 510 quantifier order\n",
    ),
    (
        "SELECT * FROM GRAPH_TABLE (G MATCH ANY (x)~(y) COLUMNS (x.name AS x))",
        "query:35-38: 503 any selector\n",
    ),
];

// The phase names.
static NAMES: [(&str, &str); 27] = [
    (
        "SELECT * FROM GRAPH_TABLE (G MATCH (x IS city) COLUMNS (x.name AS x))",
        "query:41-45: 602 unknown label\n",
    ),
    (
        "SELECT * FROM GRAPH_TABLE (G MATCH (x IS knows)-[e IS person]->(y) COLUMNS (x.name AS x))",
        "ok, weight 0\n",
    ),
    (
        "SELECT * FROM GRAPH_TABLE (G MATCH (x IS person | !town & %) COLUMNS (x.name AS x))",
        "query:51-55: 602 unknown label\n",
    ),
    (
        "SELECT * FROM GRAPH_TABLE (G MATCH (x) COLUMNS (z.name AS n))",
        "query:48-49: 603 unknown variable\n",
    ),
    (
        "SELECT * FROM GRAPH_TABLE (G MATCH (x) WHERE z.age > 1 COLUMNS (x.name AS x))",
        "query:45-46: 603 unknown variable\n",
    ),
    (
        "SELECT * FROM GRAPH_TABLE (G MATCH ((a)-[e]->(b)){1,2} WHERE e.since > 1 COLUMNS (1 AS c))",
        "query:61-62: 604 group variable\n",
    ),
    (
        "SELECT * FROM GRAPH_TABLE (G MATCH (x)-[e]->{1,2}(y) COLUMNS (e.since AS s))",
        "query:62-63: 604 group variable\n",
    ),
    (
        "SELECT * FROM GRAPH_TABLE (G MATCH (x)-[x]->(y) COLUMNS (y.name AS n))",
        "query:40-41: 605 variable kind\n",
    ),
    (
        "SELECT * FROM GRAPH_TABLE (G MATCH (x)-[e]->(y), (e) COLUMNS (x.name AS x))",
        "query:50-51: 605 variable kind\n",
    ),
    (
        "SELECT * FROM GRAPH_TABLE (G MATCH (x)((x)-[e]->(b)){1,2} COLUMNS (1 AS c))",
        "query:40-41: 606 variable repeated\n",
    ),
    (
        "SELECT * FROM GRAPH_TABLE (G MATCH ((a)-[e]->(b)){1,2}((a)-[f]->(b)){1,2} COLUMNS (1 AS c))",
        "query:56-57: 606 variable repeated\n",
    ),
    (
        "SELECT * FROM GRAPH_TABLE (G MATCH (x)((a)-[e]->(b) WHERE x.age > 1){1,2}(y) COLUMNS (x.name AS x))",
        "query:58-59: 607 out of scope\n",
    ),
    (
        "SELECT * FROM GRAPH_TABLE (G MATCH (x)-[e WHERE x.age > 1]->{1,2}(y) COLUMNS (x.name AS x))",
        "query:48-49: 607 out of scope\n",
    ),
    (
        "SELECT * FROM GRAPH_TABLE (G MATCH (x WHERE y.age > 1), (y) COLUMNS (x.name AS x))",
        "query:44-45: 607 out of scope\n",
    ),
    (
        "SELECT * FROM GRAPH_TABLE (G MATCH ((x)-[e]->(y) WHERE z.age > 1), (z) COLUMNS (x.name AS x))",
        "query:55-56: 607 out of scope\n",
    ),
    (
        "SELECT * FROM GRAPH_TABLE (G MATCH (x) COLUMNS (x.city AS c))",
        "query:50-54: 608 unknown property\n",
    ),
    (
        "SELECT * FROM GRAPH_TABLE (G MATCH (x) COLUMNS (x.since AS c))",
        "query:50-55: 608 unknown property\n",
    ),
    (
        "SELECT * FROM GRAPH_TABLE (G MATCH (x) WHERE x.nothing IS NULL COLUMNS (x.name AS x))",
        "query:47-54: 608 unknown property\n",
    ),
    (
        "SELECT * FROM GRAPH_TABLE (G MATCH (x) COLUMNS (x.name, x.name))",
        "query:58-62: 609 duplicate column name\n",
    ),
    (
        "SELECT * FROM GRAPH_TABLE (G MATCH (x) COLUMNS (x.name AS a, x.age AS A))",
        "query:70-71: 609 duplicate column name\n",
    ),
    (
        "SELECT * FROM GRAPH_TABLE (G MATCH (x) COLUMNS ((x.name), x.age AS name))",
        "query:67-71: 609 duplicate column name\n",
    ),
    (
        "SELECT * FROM GRAPH_TABLE (G MATCH (x) COLUMNS (x.age > 1))",
        "query:48-57: 610 unnamed column\n",
    ),
    (
        "SELECT * FROM GRAPH_TABLE (G MATCH (x) COLUMNS (1))",
        "query:48-49: 610 unnamed column\n",
    ),
    (
        "SELECT * FROM GRAPH_TABLE (G MATCH (x)->(y) | (x)<-(z) COLUMNS (1 AS c))",
        "query:44-45: 611 union variables differ\n",
    ),
    (
        "SELECT * FROM GRAPH_TABLE (G MATCH (x)->{1,2}(y) | (x)((y)<-(z)){1,2} COLUMNS (1 AS c))",
        "query:49-50: 611 union variables differ\n",
    ),
    (
        "SELECT * FROM GRAPH_TABLE (G MATCH (x)->(y) | (x)<-(y) | (x) COLUMNS (1 AS c))",
        "query:55-56: 611 union variables differ\n",
    ),
    (
        "SELECT * FROM GRAPH_TABLE (G MATCH (x) COLUMNS (z.name))",
        "query:48-49: 603 unknown variable\n",
    ),
];

// The phases types, limits and weight.
static TYPES: [(&str, &str); 28] = [
    (
        "SELECT * FROM GRAPH_TABLE (G MATCH (x) WHERE x.age = 'a' COLUMNS (x.name AS x))",
        "query:53-56: 701 classes differ\n",
    ),
    (
        "SELECT * FROM GRAPH_TABLE (G MATCH (x) WHERE 'a' < x.age COLUMNS (x.name AS x))",
        "query:51-56: 701 classes differ\n",
    ),
    (
        "SELECT * FROM GRAPH_TABLE (G MATCH (x) WHERE x.age BETWEEN 1 AND 'b' COLUMNS (x.name AS x))",
        "query:65-68: 701 classes differ\n",
    ),
    (
        "SELECT * FROM GRAPH_TABLE (G MATCH (x) WHERE x.age IN (1, 'b') COLUMNS (x.name AS x))",
        "query:58-61: 701 classes differ\n",
    ),
    (
        "SELECT * FROM GRAPH_TABLE (G MATCH (x) WHERE COALESCE(x.age, 'b') = 1 COLUMNS (x.name AS x))",
        "query:61-64: 701 classes differ\n",
    ),
    (
        "SELECT * FROM GRAPH_TABLE (G MATCH (x) COLUMNS (COALESCE(x.age, x.name) AS c))",
        "query:64-70: 701 classes differ\n",
    ),
    (
        "SELECT * FROM GRAPH_TABLE (G MATCH (x) WHERE x.age COLUMNS (x.name AS x))",
        "query:45-50: 702 not truth\n",
    ),
    (
        "SELECT * FROM GRAPH_TABLE (G MATCH (x) WHERE NOT x.age COLUMNS (x.name AS x))",
        "query:49-54: 702 not truth\n",
    ),
    (
        "SELECT * FROM GRAPH_TABLE (G MATCH (x) WHERE x.age = 1 AND x.name COLUMNS (x.name AS x))",
        "query:59-65: 702 not truth\n",
    ),
    (
        "SELECT * FROM GRAPH_TABLE (G MATCH (x) WHERE x.name OR TRUE COLUMNS (x.name AS x))",
        "query:45-51: 702 not truth\n",
    ),
    (
        "SELECT * FROM GRAPH_TABLE (G MATCH (x) WHERE x.age IS TRUE COLUMNS (x.name AS x))",
        "query:45-50: 702 not truth\n",
    ),
    (
        "SELECT * FROM GRAPH_TABLE (G MATCH (x WHERE x.name) COLUMNS (x.name AS x))",
        "query:44-50: 702 not truth\n",
    ),
    (
        "SELECT * FROM GRAPH_TABLE (G MATCH ((x)->(y) WHERE 1){1,2} COLUMNS (1 AS c))",
        "query:51-52: 702 not truth\n",
    ),
    (
        "SELECT * FROM GRAPH_TABLE (G MATCH (x) WHERE x.name = 1 AND x.age = 'b' COLUMNS (x.name AS x))",
        "query:54-55: 701 classes differ\n",
    ),
    (
        "SELECT * FROM GRAPH_TABLE (G MATCH (x)-[e]->{1,33}(y) COLUMNS (x.id AS i))",
        "query:44-50: 803 quantifier too large\n",
    ),
    (
        "SELECT * FROM GRAPH_TABLE (G MATCH (x)-[e]->{33}(y) COLUMNS (x.id AS i))",
        "query:44-48: 803 quantifier too large\n",
    ),
    (
        "SELECT * FROM GRAPH_TABLE (G MATCH (x)((a)->(b)){0,40}(y) COLUMNS (x.id AS i))",
        "query:48-54: 803 quantifier too large\n",
    ),
    (
        "SELECT * FROM GRAPH_TABLE (G MATCH (x)->{0,32}->{0,32}->{0,3}(y) COLUMNS (x.id AS i))",
        "query:35-64: 804 too many choices\n",
    ),
    (
        "SELECT * FROM GRAPH_TABLE (G MATCH (x)->{1,32}->{1,32}->{1,4}(y) COLUMNS (x.id AS i))",
        "query:35-64: 805 path too long\n",
    ),
    (
        "SELECT * FROM GRAPH_TABLE (G MATCH (x)->{1,32}->{1,32}->{1,5}(y) COLUMNS (x.id AS i))",
        "query:35-64: 804 too many choices\n",
    ),
    (
        "SELECT * FROM GRAPH_TABLE (G MATCH (x)->{32}->{32}->(y) COLUMNS (x.id AS i))",
        "query:35-55: 805 path too long\n",
    ),
    (
        "SELECT * FROM GRAPH_TABLE (G MATCH (x)->{1,65}(y) COLUMNS (x.id AS i))",
        "query:35-49: 805 path too long\n",
    ),
    (
        "SELECT * FROM GRAPH_TABLE (G MATCH (x)->{1,64}(y) COLUMNS (x.id AS i))",
        "query:40-46: 803 quantifier too large\n",
    ),
    (
        "SELECT * FROM GRAPH_TABLE (G MATCH (x)->{0,32}(y) | (x)->{0,32}->{0,32}->{32}(y) COLUMNS (x.id AS i))",
        "query:35-80: 805 path too long\n",
    ),
    (
        "SELECT * FROM GRAPH_TABLE (G MATCH (x), (), (), (), (), (), (), () COLUMNS (x.name AS x))",
        "ok, weight 31\n",
    ),
    (
        "SELECT * FROM GRAPH_TABLE (G MATCH (x), (), (), (), (), (), (), (), () COLUMNS (x.name AS x))",
        "query:68-70: 806 too many paths\n",
    ),
    (
        "SELECT * FROM GRAPH_TABLE (G MATCH ALL SHORTEST (x)-[e]->{1,32}-[f]->{1,32}(y) COLUMNS (x.id AS i))",
        "query:29-34: 807 lowering too large\n",
    ),
    (
        "SELECT * FROM GRAPH_TABLE (G MATCH (x)->{9223372036854775807}(y) COLUMNS (x.id AS i))",
        "query:35-64: 805 path too long\n",
    ),
];

// Forms that are read and not served yet.
static INTERIM: [(&str, &str); 6] = [
    (
        "SELECT * FROM GRAPH_TABLE (G MATCH SHORTEST 2 GROUP (x)->{1,2}(y) COLUMNS (x.name AS x))",
        "query:0-0: 201 unexpected\n",
    ),
    (
        "SELECT * FROM GRAPH_TABLE (G MATCH SHORTEST GROUP (x)->{1,2}(y) COLUMNS (x.name AS x))",
        "query:44-49: 201 unexpected\n",
    ),
    (
        "SELECT * FROM GRAPH_TABLE (G MATCH (x)->(y) WHERE SAME(x, y) COLUMNS (x.name AS x))",
        "query:0-0: 201 unexpected\n",
    ),
    (
        "SELECT * FROM GRAPH_TABLE (G MATCH (x)-[e]->(y) WHERE x IS SOURCE OF e COLUMNS (x.name AS x))",
        "query:0-0: 201 unexpected\n",
    ),
    (
        "SELECT * FROM GRAPH_TABLE (G MATCH (x)-[e]->{1,2}(y) COLUMNS (COUNT(e) AS n))",
        "query:0-0: 201 unexpected\n",
    ),
    (
        "SELECT * FROM GRAPH_TABLE (G MATCH (x WHERE ALL_DIFFERENT(x, x)) COLUMNS (x.name AS x))",
        "query:0-0: 201 unexpected\n",
    ),
];

static OTHERS: [(&str, &str, &str); 7] = [
    (BANK, TRAILS, "ok, weight 116\n"),
    (
        PARTIES,
        "SELECT * FROM GRAPH_TABLE (h MATCH (x IS party) COLUMNS (x.name AS n, x.city AS c))",
        "ok, weight 8\n",
    ),
    // An unknown graph hides its labels and properties, and not its variables.
    (
        SCHEMA,
        "SELECT * FROM GRAPH_TABLE (H MATCH (x IS town) COLUMNS (x.b AS c))",
        "query:27-28: 601 unknown graph\n",
    ),
    (SCHEMA, "SELECT @", "query:7-8: 101 bad byte\n"),
    (SCHEMA, "", "query:0-0: 201 unexpected\n"),
    // The schema text is looked at first.
    ("", TRAILS, "schema:0-0: 201 unexpected\n"),
    (
        "CREATE TABLE t (a INT, a INT)",
        "SELECT @",
        "schema:23-24: 302 duplicate column\n",
    ),
];

fn judges(
    rt: &impl Abort,
    alloc: Global,
    schema: &str,
    query: &str,
    line: &str,
) -> Result<(), NoMemory> {
    let wanted = if line.as_bytes().first() == Some(&b'o') {
        Wanted {
            status: Status::Done,
            out: line.as_bytes(),
            err: b"",
        }
    } else {
        refused(line)
    };
    expect(
        rt,
        alloc,
        &CHECK,
        schema.as_bytes(),
        query.as_bytes(),
        SOUND,
        wanted,
    )
}

fn judges_all(rt: &impl Abort, alloc: Global, rows: &[(&str, &str)]) -> Result<(), NoMemory> {
    for (query, line) in rows {
        judges(rt, alloc, SCHEMA, query, line)?;
    }
    Ok(())
}

#[test]
fn weighs_queries(rt: HostRuntime) -> Result<(), Fail> {
    let alloc = rt.alloc();
    judges_all(&rt, alloc, &WEIGHTS)?;
    Ok(())
}

#[test]
fn refuses_forms(rt: HostRuntime) -> Result<(), Fail> {
    let alloc = rt.alloc();
    judges_all(&rt, alloc, &FORMS)?;
    judges_all(&rt, alloc, &INTERIM)?;
    Ok(())
}

#[test]
fn refuses_names(rt: HostRuntime) -> Result<(), Fail> {
    let alloc = rt.alloc();
    judges_all(&rt, alloc, &NAMES)?;
    Ok(())
}

#[test]
fn refuses_types_and_limits(rt: HostRuntime) -> Result<(), Fail> {
    let alloc = rt.alloc();
    judges_all(&rt, alloc, &TYPES)?;
    Ok(())
}

#[test]
fn judges_over_other_schemas(rt: HostRuntime) -> Result<(), Fail> {
    let alloc = rt.alloc();
    for (schema, query, line) in &OTHERS {
        judges(&rt, alloc, schema, query, line)?;
    }
    Ok(())
}
