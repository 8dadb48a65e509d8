use crate::program_tests::{CHECK, CHECKED, SOUND, bytes, expect, filled, refused};
use pgq_base::{List, NoMemory};
use std::alloc::Global;
use std::process::Abort;
use std::test::Fail;

// Pieces of no text, and tokens of no schema; the first of them decides, and each comes before the rules.
static FORMS: [(&str, &str); 23] = [
    ("CREATE TABLE t (@a INT)", "schema:16-17: 101 bad byte\n"),
    ("CREATE TABLE t #", "schema:15-16: 101 bad byte\n"),
    (
        "CREATE TABLE t (a INT) /* open",
        "schema:23-30: 102 unclosed\n",
    ),
    ("CREATE TABLE \"t (a INT)", "schema:13-23: 102 unclosed\n"),
    (
        "CREATE TABLE t (a VARCHAR(9223372036854775809))",
        "schema:26-45: 103 number too large\n",
    ),
    ("CREATE TABLE \"\" (a INT)", "schema:13-15: 104 bad name\n"),
    (
        "CREATE TABLE t (a INT DEFAULT 1234567890.123456789)",
        "schema:30-50: 108 decimal too long\n",
    ),
    ("", "schema:0-0: 201 unexpected\n"),
    ("CREATE TABLE t (a INT", "schema:21-21: 201 unexpected\n"),
    (
        "CREATE TABLE t (a INT -- c\n",
        "schema:27-27: 201 unexpected\n",
    ),
    ("CREATE TABLE t ()", "schema:16-17: 201 unexpected\n"),
    (
        "CREATE TABLE select (a INT)",
        "schema:13-19: 201 unexpected\n",
    ),
    (
        "CREATE TABLE t (a INT DEFAULT NULL)",
        "schema:30-34: 201 unexpected\n",
    ),
    (
        "CREATE TABLE t (a VARCHAR(5.0))",
        "schema:26-29: 201 unexpected\n",
    ),
    (
        "CREATE TABLE t (a VARCHAR(9223372036854775808))",
        "schema:26-45: 201 unexpected\n",
    ),
    (
        "CREATE TABLE t (a INT, CONSTRAINT c b INT)",
        "schema:36-37: 201 unexpected\n",
    ),
    ("CREATE TABLE t (a INT);;", "schema:23-24: 201 unexpected\n"),
    (
        "CREATE TABLE t (a INT) CREATE",
        "schema:23-29: 201 unexpected\n",
    ),
    (
        "CREATE TABLE p (id INT PRIMARY KEY, a INT, b VARCHAR(5)); CREATE TABLE e (id INT PRIMARY KEY, s INT REFERENCES p, d INT REFERENCES p); CREATE PROPERTY GRAPH g VERTEX TABLES (p) EDGE TABLES (e DESTINATION p SOURCE p)",
        "schema:192-203: 201 unexpected\n",
    ),
    (
        "CREATE TABLE p (id INT PRIMARY KEY, a INT, b VARCHAR(5)); CREATE TABLE e (id INT PRIMARY KEY, s INT REFERENCES p, d INT REFERENCES p); CREATE PROPERTY GRAPH g VERTEX TABLES (p) EDGE TABLES (e SOURCE KEY s REFERENCES p DESTINATION p)",
        "schema:203-204: 201 unexpected\n",
    ),
    (
        "CREATE TABLE p (id INT PRIMARY KEY, a INT, b VARCHAR(5)); CREATE PROPERTY GRAPH g VERTEX TABLES (p LABEL a PROPERTIES ())",
        "schema:119-120: 201 unexpected\n",
    ),
    ("CREATE TABLE (a INT) @", "schema:21-22: 101 bad byte\n"),
    (
        "CREATE TABLE t (a INT, a TEXT) x",
        "schema:31-32: 201 unexpected\n",
    ),
];

// The names and the keys of tables.
static TABLES: [(&str, &str); 17] = [
    (
        "CREATE TABLE t (a INT); CREATE TABLE t (b INT)",
        "schema:37-38: 301 duplicate table\n",
    ),
    (
        "CREATE TABLE t (a INT); CREATE TABLE \"T\" (b INT)",
        "schema:37-40: 301 duplicate table\n",
    ),
    (
        "CREATE TABLE t (a INT, A INT)",
        "schema:23-24: 302 duplicate column\n",
    ),
    (
        "CREATE TABLE t (a INT, PRIMARY KEY (a, a))",
        "schema:39-40: 302 duplicate column\n",
    ),
    (
        "CREATE TABLE t (a INT, UNIQUE (a, a))",
        "schema:34-35: 302 duplicate column\n",
    ),
    (
        "CREATE TABLE t (a INT, FOREIGN KEY (a, a) REFERENCES t)",
        "schema:39-40: 302 duplicate column\n",
    ),
    (
        "CREATE TABLE t (a INT, FOREIGN KEY (a) REFERENCES t (a, a))",
        "schema:56-57: 302 duplicate column\n",
    ),
    (
        "CREATE TABLE t (a INT, PRIMARY KEY (z))",
        "schema:36-37: 303 unknown column\n",
    ),
    (
        "CREATE TABLE t (a INT, UNIQUE (a, z))",
        "schema:34-35: 303 unknown column\n",
    ),
    (
        "CREATE TABLE t (a INT, FOREIGN KEY (z) REFERENCES t (a))",
        "schema:36-37: 303 unknown column\n",
    ),
    (
        "CREATE TABLE t (a INT REFERENCES t (z))",
        "schema:36-37: 303 unknown column\n",
    ),
    (
        "CREATE TABLE t (a INT PRIMARY KEY, b INT); CREATE TABLE u (x INT, FOREIGN KEY (x) REFERENCES t (a, z))",
        "schema:99-100: 303 unknown column\n",
    ),
    (
        "CREATE TABLE t (a INT REFERENCES u)",
        "schema:33-34: 304 unknown table\n",
    ),
    (
        "CREATE TABLE t (a INT, FOREIGN KEY (a) REFERENCES u (b))",
        "schema:50-51: 304 unknown table\n",
    ),
    (
        "CREATE TABLE t (a INT PRIMARY KEY, b INT PRIMARY KEY)",
        "schema:41-48: 305 second primary key\n",
    ),
    (
        "CREATE TABLE t (a INT PRIMARY KEY, CONSTRAINT k PRIMARY KEY (a))",
        "schema:48-55: 305 second primary key\n",
    ),
    (
        "CREATE TABLE t (PRIMARY KEY (a), a INT PRIMARY KEY)",
        "schema:39-46: 305 second primary key\n",
    ),
];

// References; of one phase the least place decides, and tables come before graphs, wherever they stand.
static REFERENCES: [(&str, &str); 9] = [
    (
        "CREATE TABLE t (a INT PRIMARY KEY, b INT, FOREIGN KEY (a, b) REFERENCES t (a))",
        "schema:72-73: 306 reference shape\n",
    ),
    (
        "CREATE TABLE t (a INT PRIMARY KEY, b INT, FOREIGN KEY (a, b) REFERENCES t)",
        "schema:72-73: 306 reference shape\n",
    ),
    (
        "CREATE TABLE t (a INT PRIMARY KEY, b VARCHAR(5) REFERENCES t)",
        "schema:59-60: 306 reference shape\n",
    ),
    (
        "CREATE TABLE t (a INT UNIQUE, b INT REFERENCES t)",
        "schema:47-48: 306 reference shape\n",
    ),
    (
        "CREATE TABLE t (a INT, b INT REFERENCES t (a))",
        "schema:40-41: 307 reference not unique\n",
    ),
    (
        "CREATE TABLE t (a INT, b INT, PRIMARY KEY (a, b), FOREIGN KEY (a) REFERENCES t (a))",
        "schema:77-78: 307 reference not unique\n",
    ),
    (
        "CREATE TABLE t (a INT PRIMARY KEY, b TEXT REFERENCES t, a INT)",
        "schema:37-41: 308 unsupported type\n",
    ),
    (
        "CREATE TABLE t (a INT, PRIMARY KEY (z, z))",
        "schema:36-37: 303 unknown column\n",
    ),
    (
        "CREATE PROPERTY GRAPH g VERTEX TABLES (v); CREATE TABLE t (a TEXT)",
        "schema:61-65: 308 unsupported type\n",
    ),
];

// Types and constraints that are not served.
static TYPES: [(&str, &str); 16] = [
    (
        "CREATE TABLE t (a TEXT)",
        "schema:18-22: 308 unsupported type\n",
    ),
    (
        "CREATE TABLE t (a VARCHAR)",
        "schema:18-25: 308 unsupported type\n",
    ),
    (
        "CREATE TABLE t (a VARCHAR(0))",
        "schema:18-28: 308 unsupported type\n",
    ),
    (
        "CREATE TABLE t (a VARCHAR(4001))",
        "schema:18-31: 308 unsupported type\n",
    ),
    (
        "CREATE TABLE t (a VARCHAR(5, 2) NOT NULL)",
        "schema:18-31: 308 unsupported type\n",
    ),
    (
        "CREATE TABLE t (a VARCHAR (5) LARGE)",
        "schema:18-35: 308 unsupported type\n",
    ),
    (
        "CREATE TABLE t (a INT(4))",
        "schema:18-24: 308 unsupported type\n",
    ),
    (
        "CREATE TABLE t (a DOUBLE PRECISION, b INT)",
        "schema:18-34: 308 unsupported type\n",
    ),
    (
        "CREATE TABLE t (a CHARACTER VARYING)",
        "schema:18-35: 308 unsupported type\n",
    ),
    (
        "CREATE TABLE t (a DECIMAL)",
        "schema:18-25: 308 unsupported type\n",
    ),
    (
        "CREATE TABLE t (a DECIMAL(19))",
        "schema:18-29: 308 unsupported type\n",
    ),
    (
        "CREATE TABLE t (a NUMERIC(5, 6))",
        "schema:18-31: 308 unsupported type\n",
    ),
    (
        "CREATE TABLE t (a DATE(3))",
        "schema:18-25: 308 unsupported type\n",
    ),
    (
        "CREATE TABLE t (a INT DEFAULT 1)",
        "schema:22-29: 309 unsupported constraint\n",
    ),
    (
        "CREATE TABLE t (a INT NOT NULL CONSTRAINT c CHECK ([))",
        "schema:44-49: 309 unsupported constraint\n",
    ),
    (
        "CREATE TABLE t (a INT, CHECK ((a) > (0)))",
        "schema:23-28: 309 unsupported constraint\n",
    ),
];

// The names and the keys of graphs.
static GRAPHS: [(&str, &str); 20] = [
    (
        "CREATE TABLE p (id INT PRIMARY KEY, a INT, b VARCHAR(5)); CREATE PROPERTY GRAPH g VERTEX TABLES (p KEY (id, id))",
        "schema:108-110: 302 duplicate column\n",
    ),
    (
        "CREATE TABLE p (id INT PRIMARY KEY, a INT, b VARCHAR(5)); CREATE PROPERTY GRAPH g VERTEX TABLES (p PROPERTIES ALL COLUMNS EXCEPT (a, a))",
        "schema:133-134: 302 duplicate column\n",
    ),
    (
        "CREATE TABLE p (id INT PRIMARY KEY, a INT, b VARCHAR(5)); CREATE TABLE e (id INT PRIMARY KEY, s INT REFERENCES p, d INT REFERENCES p); CREATE PROPERTY GRAPH g VERTEX TABLES (p) EDGE TABLES (e SOURCE KEY (s, s) REFERENCES p DESTINATION p)",
        "schema:207-208: 302 duplicate column\n",
    ),
    (
        "CREATE TABLE p (id INT PRIMARY KEY, a INT, b VARCHAR(5)); CREATE TABLE e (id INT PRIMARY KEY, s INT REFERENCES p, d INT REFERENCES p); CREATE PROPERTY GRAPH g VERTEX TABLES (p) EDGE TABLES (e SOURCE KEY (s) REFERENCES p (id, id) DESTINATION p)",
        "schema:225-227: 302 duplicate column\n",
    ),
    (
        "CREATE TABLE p (id INT PRIMARY KEY, a INT, b VARCHAR(5)); CREATE PROPERTY GRAPH g VERTEX TABLES (p KEY (z))",
        "schema:104-105: 303 unknown column\n",
    ),
    (
        "CREATE TABLE p (id INT PRIMARY KEY, a INT, b VARCHAR(5)); CREATE PROPERTY GRAPH g VERTEX TABLES (p PROPERTIES (a, z AS a))",
        "schema:114-115: 303 unknown column\n",
    ),
    (
        "CREATE TABLE p (id INT PRIMARY KEY, a INT, b VARCHAR(5)); CREATE PROPERTY GRAPH g VERTEX TABLES (p PROPERTIES ALL COLUMNS EXCEPT (z))",
        "schema:130-131: 303 unknown column\n",
    ),
    (
        "CREATE TABLE p (id INT PRIMARY KEY, a INT, b VARCHAR(5)); CREATE TABLE e (id INT PRIMARY KEY, s INT REFERENCES p, d INT REFERENCES p); CREATE PROPERTY GRAPH g VERTEX TABLES (p) EDGE TABLES (e SOURCE KEY (z) REFERENCES p DESTINATION KEY (d) REFERENCES p)",
        "schema:204-205: 303 unknown column\n",
    ),
    (
        "CREATE TABLE p (id INT PRIMARY KEY, a INT, b VARCHAR(5)); CREATE TABLE e (id INT PRIMARY KEY, s INT REFERENCES p, d INT REFERENCES p); CREATE PROPERTY GRAPH g VERTEX TABLES (p) EDGE TABLES (e SOURCE KEY (s) REFERENCES p (s) DESTINATION KEY (d) REFERENCES p)",
        "schema:221-222: 303 unknown column\n",
    ),
    (
        "CREATE TABLE p (id INT PRIMARY KEY, a INT, b VARCHAR(5)); CREATE PROPERTY GRAPH g VERTEX TABLES (p, q AS r)",
        "schema:100-101: 304 unknown table\n",
    ),
    (
        "CREATE TABLE p (id INT PRIMARY KEY, a INT, b VARCHAR(5)); CREATE PROPERTY GRAPH g VERTEX TABLES (p) EDGE TABLES (q SOURCE p DESTINATION p)",
        "schema:113-114: 304 unknown table\n",
    ),
    (
        "CREATE TABLE p (id INT PRIMARY KEY, a INT, b VARCHAR(5)); CREATE PROPERTY GRAPH g VERTEX TABLES (p); CREATE PROPERTY GRAPH G VERTEX TABLES (p)",
        "schema:123-124: 401 duplicate graph\n",
    ),
    (
        "CREATE TABLE p (id INT PRIMARY KEY, a INT, b VARCHAR(5)); CREATE PROPERTY GRAPH g VERTEX TABLES (p, p)",
        "schema:100-101: 402 duplicate element\n",
    ),
    (
        "CREATE TABLE p (id INT PRIMARY KEY, a INT, b VARCHAR(5)); CREATE TABLE u (id INT PRIMARY KEY, c BOOLEAN); CREATE PROPERTY GRAPH g VERTEX TABLES (p, u AS p)",
        "schema:153-154: 402 duplicate element\n",
    ),
    (
        "CREATE TABLE p (id INT PRIMARY KEY, a INT, b VARCHAR(5)); CREATE TABLE e (id INT PRIMARY KEY, s INT REFERENCES p, d INT REFERENCES p); CREATE PROPERTY GRAPH g VERTEX TABLES (p) EDGE TABLES (e AS p SOURCE p DESTINATION p)",
        "schema:195-196: 402 duplicate element\n",
    ),
    (
        "CREATE TABLE t (a INT UNIQUE); CREATE PROPERTY GRAPH g VERTEX TABLES (t)",
        "schema:70-71: 403 no key\n",
    ),
    (
        "CREATE TABLE t (a INT); CREATE PROPERTY GRAPH g VERTEX TABLES (t AS v)",
        "schema:68-69: 403 no key\n",
    ),
    (
        "CREATE TABLE p (id INT PRIMARY KEY, a INT, b VARCHAR(5)); CREATE PROPERTY GRAPH g VERTEX TABLES (p KEY (a))",
        "schema:99-102: 404 key not unique\n",
    ),
    (
        "CREATE TABLE p (id INT PRIMARY KEY, a INT, b VARCHAR(5)); CREATE PROPERTY GRAPH g VERTEX TABLES (p KEY (id, a))",
        "schema:99-102: 404 key not unique\n",
    ),
    (
        "CREATE TABLE t (a INT UNIQUE); CREATE PROPERTY GRAPH g VERTEX TABLES (t KEY (a))",
        "schema:72-75: 404 key not unique\n",
    ),
];

// The ends of edges.
static ENDS: [(&str, &str); 8] = [
    (
        "CREATE TABLE p (id INT PRIMARY KEY, a INT, b VARCHAR(5)); CREATE TABLE e (id INT PRIMARY KEY, s INT REFERENCES p, d INT REFERENCES p); CREATE PROPERTY GRAPH g VERTEX TABLES (p) EDGE TABLES (e SOURCE q DESTINATION p)",
        "schema:199-200: 405 unknown vertex\n",
    ),
    (
        "CREATE TABLE p (id INT PRIMARY KEY, a INT, b VARCHAR(5)); CREATE TABLE e (id INT PRIMARY KEY, s INT REFERENCES p, d INT REFERENCES p); CREATE PROPERTY GRAPH g VERTEX TABLES (p) EDGE TABLES (e SOURCE KEY (s) REFERENCES p DESTINATION KEY (d) REFERENCES e)",
        "schema:251-252: 405 unknown vertex\n",
    ),
    (
        "CREATE TABLE p (id INT PRIMARY KEY, a INT, b VARCHAR(5)); CREATE TABLE e (id INT PRIMARY KEY, s INT REFERENCES p, d INT REFERENCES p); CREATE PROPERTY GRAPH g VERTEX TABLES (p) EDGE TABLES (e SOURCE KEY (s, d) REFERENCES p DESTINATION KEY (d) REFERENCES p)",
        "schema:221-222: 406 end key mismatch\n",
    ),
    (
        "CREATE TABLE p (id INT PRIMARY KEY, a INT, b VARCHAR(5)); CREATE TABLE e (id INT PRIMARY KEY, s INT REFERENCES p, d INT REFERENCES p); CREATE PROPERTY GRAPH g VERTEX TABLES (p) EDGE TABLES (e SOURCE KEY (s) REFERENCES p DESTINATION KEY (d) REFERENCES p (a))",
        "schema:251-252: 406 end key mismatch\n",
    ),
    (
        "CREATE TABLE v (k VARCHAR(5) PRIMARY KEY); CREATE TABLE e (id INT PRIMARY KEY); CREATE PROPERTY GRAPH g VERTEX TABLES (v) EDGE TABLES (e SOURCE KEY (id) REFERENCES v DESTINATION KEY (id) REFERENCES v)",
        "schema:164-165: 406 end key mismatch\n",
    ),
    (
        "CREATE TABLE v (k INT PRIMARY KEY, m INT NOT NULL UNIQUE); CREATE TABLE e (id INT PRIMARY KEY REFERENCES v (m)); CREATE PROPERTY GRAPH g VERTEX TABLES (v) EDGE TABLES (e SOURCE v DESTINATION v)",
        "schema:177-178: 406 end key mismatch\n",
    ),
    (
        "CREATE TABLE p (id INT PRIMARY KEY, a INT, b VARCHAR(5)); CREATE TABLE e (id INT PRIMARY KEY, s INT REFERENCES p, d INT REFERENCES p); CREATE PROPERTY GRAPH g VERTEX TABLES (p) EDGE TABLES (e SOURCE p DESTINATION p)",
        "schema:199-200: 407 no single reference\n",
    ),
    (
        "CREATE TABLE p (id INT PRIMARY KEY, a INT, b VARCHAR(5)); CREATE TABLE u (id INT PRIMARY KEY, c BOOLEAN); CREATE PROPERTY GRAPH g VERTEX TABLES (p) EDGE TABLES (u SOURCE p DESTINATION p)",
        "schema:170-171: 407 no single reference\n",
    ),
];

// Labels and properties.
static LABELS: [(&str, &str); 14] = [
    (
        "CREATE TABLE p (id INT PRIMARY KEY, a INT, b VARCHAR(5)); CREATE TABLE u (id INT PRIMARY KEY, c BOOLEAN); CREATE PROPERTY GRAPH g VERTEX TABLES (p LABEL l PROPERTIES (id, a), u LABEL l PROPERTIES (id))",
        "schema:183-184: 408 label properties differ\n",
    ),
    (
        "CREATE TABLE p (id INT PRIMARY KEY, a INT, b VARCHAR(5)); CREATE TABLE u (id INT PRIMARY KEY, c BOOLEAN); CREATE PROPERTY GRAPH g VERTEX TABLES (p LABEL l PROPERTIES (id), u AS l PROPERTIES (id), p AS q LABEL l NO PROPERTIES)",
        "schema:209-210: 408 label properties differ\n",
    ),
    (
        "CREATE TABLE p (id INT PRIMARY KEY, a INT, b VARCHAR(5)); CREATE TABLE u (id INT PRIMARY KEY, c BOOLEAN); CREATE PROPERTY GRAPH g VERTEX TABLES (p DEFAULT LABEL, u LABEL p)",
        "schema:170-171: 408 label properties differ\n",
    ),
    (
        "CREATE TABLE p (id INT PRIMARY KEY, a INT, b VARCHAR(5)); CREATE TABLE u (id INT PRIMARY KEY, c BOOLEAN); CREATE PROPERTY GRAPH g VERTEX TABLES (p LABEL u PROPERTIES (a), u DEFAULT LABEL PROPERTIES (id))",
        "schema:173-186: 408 label properties differ\n",
    ),
    (
        "CREATE TABLE p (id INT PRIMARY KEY, a INT, b VARCHAR(5)); CREATE TABLE e (id INT PRIMARY KEY, s INT REFERENCES p, d INT REFERENCES p); CREATE PROPERTY GRAPH g VERTEX TABLES (p LABEL l) EDGE TABLES (e SOURCE KEY (s) REFERENCES p DESTINATION KEY (d) REFERENCES p LABEL l)",
        "schema:267-268: 408 label properties differ\n",
    ),
    (
        "CREATE TABLE p (id INT PRIMARY KEY, a INT, b VARCHAR(5)); CREATE TABLE u (id INT PRIMARY KEY, c BOOLEAN); CREATE PROPERTY GRAPH g VERTEX TABLES (p PROPERTIES (a AS x), u PROPERTIES (c AS x))",
        "schema:187-188: 409 property classes differ\n",
    ),
    (
        "CREATE TABLE p (id INT PRIMARY KEY, a INT, b VARCHAR(5)); CREATE TABLE u (id INT PRIMARY KEY, c BOOLEAN); CREATE PROPERTY GRAPH g VERTEX TABLES (p PROPERTIES (b AS c), u LABEL l PROPERTIES (id, c))",
        "schema:194-195: 409 property classes differ\n",
    ),
    (
        "CREATE TABLE v (k INT PRIMARY KEY, x INT); CREATE TABLE w (k INT PRIMARY KEY, x DATE); CREATE PROPERTY GRAPH g VERTEX TABLES (v, w)",
        "schema:129-130: 409 property classes differ\n",
    ),
    (
        "CREATE TABLE p (id INT PRIMARY KEY, a INT, b VARCHAR(5)); CREATE PROPERTY GRAPH g VERTEX TABLES (p LABEL l PROPERTIES (a AS x) LABEL m PROPERTIES (b AS x))",
        "schema:152-153: 409 property classes differ\n",
    ),
    (
        "CREATE TABLE p (id INT PRIMARY KEY, a INT, b VARCHAR(5)); CREATE PROPERTY GRAPH g VERTEX TABLES (p LABEL l PROPERTIES (id AS x) LABEL m PROPERTIES (a AS x))",
        "schema:153-154: 410 property columns differ\n",
    ),
    (
        "CREATE TABLE p (id INT PRIMARY KEY, a INT, b VARCHAR(5)); CREATE PROPERTY GRAPH g VERTEX TABLES (p PROPERTIES (id AS a, a))",
        "schema:120-121: 410 property columns differ\n",
    ),
    (
        "CREATE TABLE p (id INT PRIMARY KEY, a INT, b VARCHAR(5)); CREATE PROPERTY GRAPH g VERTEX TABLES (p LABEL l LABEL l)",
        "schema:113-114: 411 duplicate label\n",
    ),
    (
        "CREATE TABLE p (id INT PRIMARY KEY, a INT, b VARCHAR(5)); CREATE PROPERTY GRAPH g VERTEX TABLES (p DEFAULT LABEL LABEL p NO PROPERTIES)",
        "schema:119-120: 411 duplicate label\n",
    ),
    (
        "CREATE TABLE p (id INT PRIMARY KEY, a INT, b VARCHAR(5)); CREATE PROPERTY GRAPH g VERTEX TABLES (p LABEL p DEFAULT LABEL)",
        "schema:107-120: 411 duplicate label\n",
    ),
];

// Ninth names of lists and seventeenth labels, which come after all other rules.
static SIZES: [(&str, &str); 9] = [
    (
        "CREATE TABLE n (a INT, b INT, c INT, d INT, e INT, f INT, g INT, h INT, i INT, PRIMARY KEY (a, b, c, d, e, f, g, h, i))",
        "schema:116-117: 802 schema too large\n",
    ),
    (
        "CREATE TABLE n (a INT, b INT, c INT, d INT, e INT, f INT, g INT, h INT, i INT, UNIQUE (a, b, c, d, e, f, g, h, i))",
        "schema:111-112: 802 schema too large\n",
    ),
    (
        "CREATE TABLE n (a INT, b INT, c INT, d INT, e INT, f INT, g INT, h INT, i INT, FOREIGN KEY (a, b, c, d, e, f, g, h, i) REFERENCES n (a, b, c, d, e, f, g, h, i), PRIMARY KEY (i, h, g, f, e, d, c, b, a))",
        "schema:116-117: 802 schema too large\n",
    ),
    (
        "CREATE TABLE p (id INT PRIMARY KEY); CREATE PROPERTY GRAPH g VERTEX TABLES (p LABEL l1 NO PROPERTIES LABEL l2 NO PROPERTIES LABEL l3 NO PROPERTIES LABEL l4 NO PROPERTIES LABEL l5 NO PROPERTIES LABEL l6 NO PROPERTIES LABEL l7 NO PROPERTIES LABEL l8 NO PROPERTIES LABEL l9 NO PROPERTIES LABEL l10 NO PROPERTIES LABEL l11 NO PROPERTIES LABEL l12 NO PROPERTIES LABEL l13 NO PROPERTIES LABEL l14 NO PROPERTIES LABEL l15 NO PROPERTIES LABEL l16 NO PROPERTIES LABEL l17)",
        "schema:459-462: 802 schema too large\n",
    ),
    (
        "CREATE TABLE p (id INT PRIMARY KEY); CREATE PROPERTY GRAPH g VERTEX TABLES (p LABEL l1 NO PROPERTIES LABEL l2 NO PROPERTIES LABEL l3 NO PROPERTIES LABEL l4 NO PROPERTIES LABEL l5 NO PROPERTIES LABEL l6 NO PROPERTIES LABEL l7 NO PROPERTIES LABEL l8 NO PROPERTIES LABEL l9 NO PROPERTIES LABEL l10 NO PROPERTIES LABEL l11 NO PROPERTIES LABEL l12 NO PROPERTIES LABEL l13 NO PROPERTIES LABEL l14 NO PROPERTIES LABEL l15 NO PROPERTIES LABEL l16 NO PROPERTIES DEFAULT LABEL)",
        "schema:453-466: 802 schema too large\n",
    ),
    (
        "CREATE TABLE n (a INT, b INT, c INT, d INT, e INT, f INT, g INT, h INT, i INT); CREATE PROPERTY GRAPH g VERTEX TABLES (n KEY (a, b, c, d, e, f, g, h, i))",
        "schema:121-124: 404 key not unique\n",
    ),
    (
        "CREATE PROPERTY GRAPH g VERTEX TABLES (n KEY (a, b, c, d, e, f, g, h, i)); CREATE TABLE n (a INT, b INT, c INT, d INT, e INT, f INT, g INT, h INT, i INT, PRIMARY KEY (a, b, c, d, e, f, g, h, i))",
        "schema:70-71: 802 schema too large\n",
    ),
    (
        "CREATE PROPERTY GRAPH g VERTEX TABLES (n) EDGE TABLES (n AS e SOURCE KEY (a, b, c, d, e, f, g, h, i) REFERENCES n (a, b, c, d, e, f, g, h, i) DESTINATION KEY (a, b, c, d, e, f, g, h, i) REFERENCES n); CREATE TABLE n (a INT, b INT, c INT, d INT, e INT, f INT, g INT, h INT, i INT, PRIMARY KEY (a, b, c, d, e, f, g, h, i))",
        "schema:98-99: 802 schema too large\n",
    ),
    (
        "CREATE PROPERTY GRAPH g VERTEX TABLES (n) EDGE TABLES (m SOURCE n DESTINATION KEY (a, b, c, d, e, f, g, h, i) REFERENCES n); CREATE TABLE m (id INT PRIMARY KEY, a INT, b INT, c INT, d INT, e INT, f INT, g INT, h INT, i INT, FOREIGN KEY (a, b, c, d, e, f, g, h, i) REFERENCES n); CREATE TABLE n (a INT, b INT, c INT, d INT, e INT, f INT, g INT, h INT, i INT, PRIMARY KEY (a, b, c, d, e, f, g, h, i))",
        "schema:107-108: 802 schema too large\n",
    ),
];

// Texts without a fault.
static SOUND_TEXTS: [&str; 9] = [
    "CREATE TABLE t (a INT); CREATE TABLE \"t\" (a INT, \"a\" INT);",
    "CREATE TABLE t (a SMALLINT, b INTEGER, c INT, d BIGINT, e BOOLEAN, f VARCHAR(4000), g CHARACTER VARYING(1), h DECIMAL(18, 18), i NUMERIC(1), j DATE)",
    "CREATE TABLE t (a INT, b INT, UNIQUE (a, b), FOREIGN KEY (a, b) REFERENCES t (b, a) ON DELETE SET NULL ON UPDATE NO ACTION)",
    "CREATE TABLE t (a BIGINT PRIMARY KEY, b SMALLINT REFERENCES t, c DECIMAL(9, 2) REFERENCES t (a))",
    "CREATE PROPERTY GRAPH t NODE TABLES (t PROPERTIES (a, a)); CREATE TABLE t (a INT PRIMARY KEY);",
    "CREATE TABLE t (a INT NOT NULL UNIQUE); CREATE PROPERTY GRAPH g VERTEX TABLES (t KEY (a))",
    "CREATE TABLE p (id INT PRIMARY KEY, a INT, b VARCHAR(5)); CREATE TABLE e (id INT PRIMARY KEY, s INT REFERENCES p, d INT REFERENCES p); CREATE PROPERTY GRAPH g VERTEX TABLES (p LABEL l PROPERTIES (id)) RELATIONSHIP TABLES (e SOURCE KEY (s) REFERENCES p DESTINATION KEY (d) REFERENCES p (id) LABEL l PROPERTIES (id))",
    "CREATE TABLE p (id INT PRIMARY KEY); CREATE TABLE e (id INT PRIMARY KEY REFERENCES p); CREATE PROPERTY GRAPH g VERTEX TABLES (p) EDGE TABLES (e SOURCE p DESTINATION p NO PROPERTIES)",
    "CREATE TABLE n (a INT, b INT, c INT, d INT, e INT, f INT, g INT, h INT, i INT, PRIMARY KEY (a, b, c, d, e, f, g, h)); CREATE PROPERTY GRAPH g VERTEX TABLES (n KEY (h, g, f, e, d, c, b, a) LABEL l1 NO PROPERTIES LABEL l2 NO PROPERTIES LABEL l3 NO PROPERTIES LABEL l4 NO PROPERTIES LABEL l5 NO PROPERTIES LABEL l6 NO PROPERTIES LABEL l7 NO PROPERTIES LABEL l8 NO PROPERTIES LABEL l9 NO PROPERTIES LABEL l10 NO PROPERTIES LABEL l11 NO PROPERTIES LABEL l12 NO PROPERTIES LABEL l13 NO PROPERTIES LABEL l14 NO PROPERTIES LABEL l15 NO PROPERTIES DEFAULT LABEL NO PROPERTIES)",
];

// What `check` is to write of each text.
fn expect_lines(rt: &impl Abort, alloc: Global, rows: &[(&str, &str)]) -> Result<(), NoMemory> {
    for (schema, line) in rows {
        expect(
            rt,
            alloc,
            &CHECK,
            schema.as_bytes(),
            b"",
            SOUND,
            refused(line),
        )?;
    }
    Ok(())
}

#[test]
fn tells_forms(rt: HostRuntime) -> Result<(), Fail> {
    Ok(expect_lines(&rt, rt.alloc(), &FORMS)?)
}

#[test]
fn tells_tables(rt: HostRuntime) -> Result<(), Fail> {
    let alloc = rt.alloc();
    expect_lines(&rt, alloc, &TABLES)?;
    Ok(expect_lines(&rt, alloc, &REFERENCES)?)
}

#[test]
fn tells_types(rt: HostRuntime) -> Result<(), Fail> {
    Ok(expect_lines(&rt, rt.alloc(), &TYPES)?)
}

#[test]
fn tells_graphs(rt: HostRuntime) -> Result<(), Fail> {
    Ok(expect_lines(&rt, rt.alloc(), &GRAPHS)?)
}

#[test]
fn tells_elements(rt: HostRuntime) -> Result<(), Fail> {
    let alloc = rt.alloc();
    expect_lines(&rt, alloc, &ENDS)?;
    Ok(expect_lines(&rt, alloc, &LABELS)?)
}

#[test]
fn tells_sizes(rt: HostRuntime) -> Result<(), Fail> {
    Ok(expect_lines(&rt, rt.alloc(), &SIZES)?)
}

#[test]
fn finds_no_fault(rt: HostRuntime) -> Result<(), Fail> {
    let alloc = rt.alloc();
    for schema in &SOUND_TEXTS {
        expect(&rt, alloc, &CHECK, schema.as_bytes(), b"", SOUND, CHECKED)?;
    }
    Ok(())
}

// A text with so many numbered parts.
#[derive(Clone, Copy)]
struct Parts<'a> {
    front: &'a str,
    before: &'a str,
    after: &'a str,
    back: &'a str,
}

fn text_of_parts(alloc: Global, parts: Parts<'_>, count: u32) -> Result<List<u8>, NoMemory> {
    let mut text = bytes(alloc, parts.front.as_bytes())?;
    for number in 0..count {
        text.extend(parts.before.as_bytes())?;
        text.extend(number.to_string(alloc)?.as_bytes())?;
        text.extend(parts.after.as_bytes())?;
    }
    text.extend(parts.back.as_bytes())?;
    Ok(text)
}

// So many parts are none too many, and the next one is.
fn expect_most(
    rt: &impl Abort,
    alloc: Global,
    parts: Parts<'_>,
    most: u32,
    line: &str,
) -> Result<(), NoMemory> {
    let text = text_of_parts(alloc, parts, most)?;
    expect(rt, alloc, &CHECK, text.as_slice(), b"", SOUND, CHECKED)?;
    let text = text_of_parts(alloc, parts, most.saturating_add(1))?;
    expect(
        rt,
        alloc,
        &CHECK,
        text.as_slice(),
        b"",
        SOUND,
        refused(line),
    )
}

// 256 tables, 256 columns of a table, 64 elements of a graph; one part stands in the front.
#[test]
fn keeps_sizes(rt: HostRuntime) -> Result<(), Fail> {
    let alloc = rt.alloc();
    let parts = Parts {
        front: "CREATE TABLE t (c INT)",
        before: "; CREATE TABLE t",
        after: " (c INT)",
        back: "",
    };
    expect_most(
        &rt,
        alloc,
        parts,
        255,
        "schema:6812-6816: 802 schema too large\n",
    )?;
    let parts = Parts {
        front: "CREATE TABLE t (c INT",
        before: ", c",
        after: " INT",
        back: ")",
    };
    expect_most(
        &rt,
        alloc,
        parts,
        255,
        "schema:2463-2467: 802 schema too large\n",
    )?;
    let parts = Parts {
        front: "CREATE TABLE t (c INT PRIMARY KEY); CREATE PROPERTY GRAPH g VERTEX TABLES (t",
        before: ", t AS v",
        after: "",
        back: ")",
    };
    expect_most(
        &rt,
        alloc,
        parts,
        63,
        "schema:703-706: 802 schema too large\n",
    )?;
    Ok(())
}

// 65,536 tokens, and 64 open parentheses.
#[test]
fn keeps_counts(rt: HostRuntime) -> Result<(), Fail> {
    let alloc = rt.alloc();
    let most = filled(alloc, b"", b';', 65_536, b"")?;
    expect(
        &rt,
        alloc,
        &CHECK,
        most.as_slice(),
        b"",
        SOUND,
        refused("schema:0-1: 201 unexpected\n"),
    )?;
    let more = filled(alloc, b"", b';', 65_537, b"")?;
    expect(
        &rt,
        alloc,
        &CHECK,
        more.as_slice(),
        b"",
        SOUND,
        refused("schema:65536-65537: 106 too many tokens\n"),
    )?;
    let front = b"CREATE TABLE t (a INT, CHECK (";
    let deep = filled(alloc, front, b'(', 63, b"")?;
    expect(
        &rt,
        alloc,
        &CHECK,
        deep.as_slice(),
        b"",
        SOUND,
        refused("schema:92-93: 801 too deep\n"),
    )?;
    let deepest = filled(alloc, front, b'(', 62, b"")?;
    expect(
        &rt,
        alloc,
        &CHECK,
        deepest.as_slice(),
        b"",
        SOUND,
        refused("schema:92-92: 201 unexpected\n"),
    )?;
    Ok(())
}
