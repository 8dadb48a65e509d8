use crate::pattern_tests::{FRONT, wrong_verdicts};
use std::test::Fail;

// Whole texts: the end, the frame, and the first token that no text goes on with.
static WHOLE_TEXTS: [(&str, &str); 25] = [
    ("", "201 0-0"),
    ("  ", "201 2-2"),
    (";", "201 0-1"),
    ("SELECT", "201 6-6"),
    ("SELECT 1", "201 7-8"),
    ("SELECT * FROM person", "201 14-20"),
    ("SELECT * FROM GRAPH_TABLE", "201 25-25"),
    (
        "SELECT * FROM GRAPH_TABLE (g MATCH (x) COLUMNS (x.id))",
        "ok",
    ),
    (
        "SELECT * FROM GRAPH_TABLE (g MATCH (x) COLUMNS (x.id));",
        "ok",
    ),
    (
        "SELECT * FROM GRAPH_TABLE (g MATCH (x) COLUMNS (x.id));;",
        "201 55-56",
    ),
    (
        "SELECT * FROM GRAPH_TABLE (g MATCH (x) COLUMNS (x.id)) AS found;",
        "ok",
    ),
    (
        "SELECT * FROM GRAPH_TABLE (g MATCH (x) COLUMNS (x.id)) found",
        "ok",
    ),
    (
        "SELECT * FROM GRAPH_TABLE (g MATCH (x) COLUMNS (x.id)) AS",
        "201 57-57",
    ),
    (
        "SELECT * FROM GRAPH_TABLE (g MATCH (x) COLUMNS (x.id)) AS ;",
        "201 58-59",
    ),
    (
        "SELECT * FROM GRAPH_TABLE (g MATCH (x) COLUMNS (x.id)) found also",
        "201 61-65",
    ),
    (
        "SELECT * FROM GRAPH_TABLE (g MATCH (x) COLUMNS (x.id)) \"found\" -- so",
        "ok",
    ),
    (
        "SELECT * FROM GRAPH_TABLE (g MATCH (x) COLUMNS (x.id)), h",
        "201 54-55",
    ),
    (
        "SELECT * FROM GRAPH_TABLE (g MATCH (x) COLUMNS (x.id)) WHERE TRUE",
        "201 55-60",
    ),
    (
        "SELECT * FROM GRAPH_TABLE (g (x) COLUMNS (x.id))",
        "201 29-30",
    ),
    (
        "SELECT * FROM GRAPH_TABLE (g MATCH COLUMNS (x.id))",
        "201 43-44",
    ),
    (
        "SELECT * FROM GRAPH_TABLE (g MATCH (x) \"COLUMNS\" (x.id))",
        "201 39-48",
    ),
    (
        "SELECT * FROM GRAPH_TABLE (g MATCH (x) COLUMNS ())",
        "201 48-49",
    ),
    (
        "SELECT * FROM GRAPH_TABLE (g MATCH (x) COLUMNS (x.id,))",
        "201 53-54",
    ),
    (
        "SELECT * FROM GRAPH_TABLE (g MATCH (x), (y) COLUMNS (x.id))",
        "ok",
    ),
    (
        "SELECT * FROM GRAPH_TABLE (g MATCH (x), COLUMNS (x.id))",
        "201 48-49",
    ),
];

#[test]
fn whole_texts_are_read_or_refused(rt: HostRuntime) -> Result<(), Fail> {
    let wrong = wrong_verdicts(rt.alloc(), "", &WHOLE_TEXTS, "")?;
    assert_eq!(rt; wrong.as_str(), "");
    Ok(())
}

// All edge forms, and what is none.
static EDGE_TEXTS: [(&str, &str); 25] = [
    ("(x)-(y)", "ok"),
    ("(x)->(y)", "ok"),
    ("(x)<-(y)", "ok"),
    ("(x)<->(y)", "ok"),
    ("(x)-[e]-(y)", "ok"),
    ("(x)-[e]->(y)", "ok"),
    ("(x)<-[e]-(y)", "ok"),
    ("(x)<-[e]->(y)", "ok"),
    ("(x)~(y)", "ok"),
    ("(x)<~(y)", "ok"),
    ("(x)~>(y)", "ok"),
    ("(x)~[e]~(y)", "ok"),
    ("(x)~[e]~>(y)", "ok"),
    ("(x)<~[e]~(y)", "ok"),
    ("(x)<~>(y)", "201 40-41"),
    ("(x)<~[e]~>(y)", "201 44-45"),
    ("(x)-[e]~(y)", "201 42-43"),
    ("(x)~[e]-(y)", "201 42-43"),
    ("(x)-[e(y)", "201 41-42"),
    ("(x)-[]-(y)", "ok"),
    ("(x)--(y)", "201 61-61"),
    ("(x)<-5(y)", "201 40-41"),
    ("(x)<=(y)", "201 38-40"),
    ("(x)=>(y)", "201 38-39"),
    ("(x)<-[e](y)", "201 43-44"),
];

#[test]
fn edges_are_read_or_refused(rt: HostRuntime) -> Result<(), Fail> {
    let wrong = wrong_verdicts(rt.alloc(), FRONT, &EDGE_TEXTS, " COLUMNS (1 AS c))")?;
    assert_eq!(rt; wrong.as_str(), "");
    Ok(())
}

// All quantifiers, behind an edge, a part and a vertex.
static QUANTIFIER_TEXTS: [(&str, &str); 25] = [
    ("(x)->*(y)", "ok"),
    ("(x)->+(y)", "ok"),
    ("(x)->?(y)", "ok"),
    ("(x)->{2}(y)", "ok"),
    ("(x)->{2,}(y)", "ok"),
    ("(x)->{2,3}(y)", "ok"),
    ("(x)->{,3}(y)", "ok"),
    ("(x)->{0}(y)", "ok"),
    ("(x)->{3,2}(y)", "ok"),
    ("(x)->{9223372036854775807}(y)", "ok"),
    ("(x)->{9223372036854775808}(y)", "201 41-60"),
    ("(x)->{}(y)", "201 41-42"),
    ("(x)->{,}(y)", "201 42-43"),
    ("(x)->{2,3,4}(y)", "201 44-45"),
    ("(x)->{2.0}(y)", "201 41-44"),
    ("(x)->{-1}(y)", "201 41-42"),
    ("(x)->{x}(y)", "201 41-42"),
    ("(x)->{2(y)", "201 42-43"),
    ("(x)->**(y)", "201 41-42"),
    ("(x)->{2}{3}(y)", "201 43-44"),
    ("((x)->(y)){1,2}", "ok"),
    ("((x)->(y))?", "ok"),
    ("((x)->(y))+", "ok"),
    ("(x){2}", "201 38-39"),
    ("(x)?", "201 38-39"),
];

#[test]
fn quantifiers_are_read_or_refused(rt: HostRuntime) -> Result<(), Fail> {
    let wrong = wrong_verdicts(rt.alloc(), FRONT, &QUANTIFIER_TEXTS, " COLUMNS (1 AS c))")?;
    assert_eq!(rt; wrong.as_str(), "");
    Ok(())
}

// Prefixes and path variables.
static PREFIX_TEXTS: [(&str, &str); 25] = [
    ("WALK (x)", "ok"),
    ("TRAIL (x)", "ok"),
    ("ACYCLIC (x)", "ok"),
    ("SIMPLE (x)", "ok"),
    ("TRAIL PATH (x)", "ok"),
    ("TRAIL PATHS (x)", "ok"),
    ("TRAIL TRAIL (x)", "201 41-46"),
    ("ALL SHORTEST (x)", "ok"),
    ("ALL SHORTEST TRAIL PATHS (x)", "ok"),
    ("ALL (x)", "201 39-40"),
    ("ALL 2 (x)", "201 39-40"),
    ("ANY (x)", "ok"),
    ("ANY SHORTEST (x)", "ok"),
    ("ANY 3 (x)", "ok"),
    ("ANY 3 SIMPLE PATH (x)", "ok"),
    ("ANY PATH (x)", "ok"),
    ("SHORTEST 2 (x)", "ok"),
    ("SHORTEST (x)", "201 44-45"),
    ("SHORTEST 2 WALK PATHS GROUP (x)", "ok"),
    ("SHORTEST 2 GROUPS (x)", "ok"),
    ("SHORTEST 2 GROUP PATH (x)", "201 52-56"),
    ("SHORTEST GROUP (x)", "201 44-49"),
    ("p = (x)", "ok"),
    ("p = ANY (x)", "ok"),
    ("PATH = (x)", "ok"),
];

#[test]
fn prefixes_are_read_or_refused(rt: HostRuntime) -> Result<(), Fail> {
    let wrong = wrong_verdicts(rt.alloc(), FRONT, &PREFIX_TEXTS, " COLUMNS (1 AS c))")?;
    assert_eq!(rt; wrong.as_str(), "");
    Ok(())
}

// Vertices, parts, sequences and unions.
static PATTERN_TEXTS: [(&str, &str); 25] = [
    ("()", "ok"),
    ("(x)(y)", "ok"),
    ("(x y)", "201 38-39"),
    ("(x IS a)", "ok"),
    ("(x:a)", "ok"),
    ("(IS a)", "ok"),
    ("(WHERE TRUE)", "ok"),
    ("(x IS a WHERE x.b = 1)", "ok"),
    ("(x WHERE TRUE IS a)", "201 52-53"),
    ("((x))", "ok"),
    ("((x)->(y))", "ok"),
    ("((x)->(y)", "201 45-52"),
    ("(TRAIL (x)->(y))", "ok"),
    ("(TRAIL x)", "201 42-43"),
    ("(->)", "ok"),
    ("(->{2})", "ok"),
    ("(TRAIL PATHS -> WHERE TRUE)", "ok"),
    ("((x) WHERE x.a = 1)", "ok"),
    ("(ANY (x))", "201 36-39"),
    ("(x)|(y)", "ok"),
    ("(x)|+|(y)", "ok"),
    ("(x)|+(y)", "201 40-41"),
    ("(x)||(y)", "201 39-40"),
    ("(x)|", "201 40-47"),
    ("((x)|(y)->|+|(z)){1,2}", "ok"),
];

#[test]
fn patterns_are_read_or_refused(rt: HostRuntime) -> Result<(), Fail> {
    let wrong = wrong_verdicts(rt.alloc(), FRONT, &PATTERN_TEXTS, " COLUMNS (1 AS c))")?;
    assert_eq!(rt; wrong.as_str(), "");
    Ok(())
}

// Label expressions.
static LABEL_TEXTS: [(&str, &str); 24] = [
    ("(x IS a|b)", "ok"),
    ("(x IS a&b)", "ok"),
    ("(x IS !a)", "ok"),
    ("(x IS !!a)", "201 42-43"),
    ("(x IS %)", "ok"),
    ("(x IS !%)", "ok"),
    ("(x IS (a))", "ok"),
    ("(x IS ((a|b)&!c)|d)", "ok"),
    ("(x IS a|)", "201 43-44"),
    ("(x IS a&|b)", "201 43-44"),
    ("(x IS ())", "201 42-43"),
    ("(x IS a b)", "201 43-44"),
    ("(x IS a!b)", "201 42-43"),
    ("(x IS \"a\")", "ok"),
    ("(x IS SOURCE)", "ok"),
    ("(x IS COUNT|PATH)", "ok"),
    ("(x IS 1)", "201 41-42"),
    ("(x IS a|+|b)", "201 43-44"),
    ("(x IS (a)", "201 45-52"),
    ("(x IS a)))", "201 43-44"),
    ("(x IS a:b)", "201 42-43"),
    ("(x IS [a])", "201 41-42"),
    ("(x IS (x IS a))", "201 44-46"),
    ("(x IS NOT a)", "201 41-44"),
];

#[test]
fn labels_are_read_or_refused(rt: HostRuntime) -> Result<(), Fail> {
    let wrong = wrong_verdicts(rt.alloc(), FRONT, &LABEL_TEXTS, " COLUMNS (1 AS c))")?;
    assert_eq!(rt; wrong.as_str(), "");
    Ok(())
}

// Words that are names too.
static NAME_TEXTS: [(&str, &str); 24] = [
    ("(PATH) COLUMNS (1 AS c))", "ok"),
    ("(COUNT) COLUMNS (1 AS c))", "ok"),
    ("(SAME) COLUMNS (1 AS c))", "ok"),
    ("(DATE) COLUMNS (1 AS c))", "ok"),
    ("(SOURCE)->(OF) COLUMNS (1 AS c))", "ok"),
    ("(ALL_DIFFERENT) COLUMNS (1 AS c))", "ok"),
    ("(COLUMNS) COLUMNS (1 AS c))", "ok"),
    ("(GROUPS) COLUMNS (1 AS c))", "ok"),
    ("(MATCH) COLUMNS (1 AS c))", "201 36-41"),
    ("(x) COLUMNS (COLUMNS.COLUMNS)", "201 64-64"),
    ("(x) WHERE SAME.a = 1 COLUMNS (1 AS c))", "ok"),
    ("(x) WHERE DATE.a = 1 COLUMNS (1 AS c))", "ok"),
    ("(x) WHERE COUNT.a = 1 COLUMNS (1 AS c))", "ok"),
    ("(x) WHERE SOURCE.of = 1 COLUMNS (1 AS c))", "ok"),
    ("(x) WHERE OF IS SOURCE OF SOURCE COLUMNS (1 AS c))", "ok"),
    ("(x) WHERE DATE IS SOURCE OF e COLUMNS (1 AS c))", "ok"),
    ("(x) WHERE SAME IS SOURCE OF e COLUMNS (1 AS c))", "ok"),
    ("(x) WHERE \"SAME\" (x, y) COLUMNS (1 AS c))", "201 52-53"),
    (
        "(x) WHERE \"DATE\" '2020-02-29' = x.d COLUMNS (1 AS c))",
        "201 52-64",
    ),
    (
        "(x) WHERE x IS \"SOURCE\" OF e COLUMNS (1 AS c))",
        "201 50-58",
    ),
    (
        "(x) WHERE x IS SOURCE \"OF\" e COLUMNS (1 AS c))",
        "201 57-61",
    ),
    ("PATHS (x) COLUMNS (1 AS c))", "201 41-42"),
    ("(x) COLUMNS (x.DATE AS DATE))", "ok"),
    ("(x) COLUMNS (MIN.MAX AS SUM, COUNT.COUNT AS COUNT))", "ok"),
];

#[test]
fn words_as_names_are_read_or_refused(rt: HostRuntime) -> Result<(), Fail> {
    let wrong = wrong_verdicts(rt.alloc(), FRONT, &NAME_TEXTS, "")?;
    assert_eq!(rt; wrong.as_str(), "");
    Ok(())
}

// Predicates on elements, and dates.
static PREDICATE_TEXTS: [(&str, &str); 25] = [
    ("SAME(x, y)", "ok"),
    ("SAME(x)", "201 51-52"),
    ("SAME()", "201 50-51"),
    ("SAME(x, y, z) IS NOT TRUE", "ok"),
    ("SAME(x, y) IS NULL", "201 59-63"),
    ("SAME(x, y) = TRUE", "201 56-57"),
    ("SAME(x, y.a)", "201 54-55"),
    ("SAME(x,", "201 61-62"),
    ("NOT SAME(x, y) AND TRUE", "ok"),
    ("(SAME(x, y))", "ok"),
    ("(SAME(x, y)) IS NULL", "ok"),
    ("ALL_DIFFERENT(x, y)", "ok"),
    ("ALL_DIFFERENT x", "201 59-60"),
    ("x IS SOURCE OF e", "ok"),
    ("x IS NOT DESTINATION OF e", "ok"),
    ("x IS SOURCE OF e IS UNKNOWN", "ok"),
    ("x IS SOURCE OF e IS NULL", "201 65-69"),
    ("x IS SOURCE e", "201 57-58"),
    ("x IS SOURCE OF e.a", "201 61-62"),
    ("x IS NULL", "201 50-54"),
    ("x = 1", "201 47-48"),
    ("DATE '2020-02-29' = x.d", "ok"),
    ("DATE '2023-02-30' = x.d", "201 50-62"),
    ("DATE 'x' = x.d", "201 50-53"),
    ("DATE = 1", "201 50-51"),
];

#[test]
fn element_predicates_are_read_or_refused(rt: HostRuntime) -> Result<(), Fail> {
    let wrong = wrong_verdicts(
        rt.alloc(),
        "SELECT * FROM GRAPH_TABLE (g MATCH (x) WHERE ",
        &PREDICATE_TEXTS,
        " COLUMNS (1 AS c))",
    )?;
    assert_eq!(rt; wrong.as_str(), "");
    Ok(())
}

// Conditions.
static CONDITION_TEXTS: [(&str, &str); 25] = [
    ("x.a", "ok"),
    ("x.a = 1 AND x.b = 2 OR NOT x.c", "ok"),
    ("NOT NOT TRUE", "201 49-52"),
    ("x.a IS NULL", "ok"),
    ("x.a IS NULL IS TRUE", "ok"),
    ("x.id = 1 IS NULL", "201 57-61"),
    ("x.id = 1 IS NOT UNKNOWN", "ok"),
    ("x.a IS NOT", "201 56-63"),
    ("x.a <-5", "ok"),
    ("x.a = - 5", "ok"),
    ("x.a = --5\n5", "ok"),
    ("x.a = -9223372036854775808", "ok"),
    ("x.a = 9223372036854775808", "201 51-70"),
    ("x.a = -x.b", "201 52-53"),
    ("x.a BETWEEN 1 AND 2 AND TRUE", "ok"),
    ("x.a NOT BETWEEN 1 AND", "201 75-76"),
    ("x.a IN (1, 'b', NULL)", "201 61-65"),
    ("x.a NOT IN (1)", "ok"),
    ("x.a IN ()", "201 53-54"),
    ("COALESCE(x.a, 1.5) > 1", "ok"),
    ("COALESCE(x.a)", "201 57-58"),
    ("(x.a = 1) = TRUE", "ok"),
    ("x.a = 1 = 2", "201 53-54"),
    ("x.a <= 'it''s' OR", "201 71-72"),
    ("x.a.b", "201 48-49"),
];

#[test]
fn conditions_are_read_or_refused(rt: HostRuntime) -> Result<(), Fail> {
    let wrong = wrong_verdicts(
        rt.alloc(),
        "SELECT * FROM GRAPH_TABLE (g MATCH (x) WHERE ",
        &CONDITION_TEXTS,
        " COLUMNS (1 AS c))",
    )?;
    assert_eq!(rt; wrong.as_str(), "");
    Ok(())
}

// Items.
static ITEM_TEXTS: [(&str, &str); 25] = [
    ("(x) COLUMNS (x.a AS b))", "ok"),
    ("(x) COLUMNS (x.a b))", "201 52-53"),
    ("(x) COLUMNS (x.a = 1 AS c, TRUE))", "ok"),
    ("(x) COLUMNS (((x.id))))", "ok"),
    ("(x) COLUMNS (COUNT(x) AS n))", "ok"),
    ("(x) COLUMNS (COUNT(x.a) AS n))", "ok"),
    ("(x) COLUMNS (COUNT(x)))", "201 56-57"),
    ("(x) COLUMNS (COUNT(x) n))", "201 57-58"),
    ("(x) COLUMNS (COUNT()))", "201 54-55"),
    ("(x) COLUMNS (COUNT(*) AS n))", "201 54-55"),
    ("(x) COLUMNS (COUNT(x) + 1))", "201 57-58"),
    ("(x) COLUMNS (COUNT(x) AS n AND TRUE))", "201 62-65"),
    ("(x) COLUMNS (NOT COUNT(x) AS n))", "201 57-58"),
    ("(x) COLUMNS (COUNT.a = 1 AND COUNT(x)))", "201 69-70"),
    ("(x) COLUMNS (MIN(x.a) AS m))", "ok"),
    ("(x) COLUMNS (MIN(x) AS m))", "201 53-54"),
    ("(x) COLUMNS (MAX(x.a.b) AS m))", "201 55-56"),
    ("(x) COLUMNS (SUM(x.a) AS s, x.b))", "ok"),
    ("(x) COLUMNS (SUM.a IS NULL OR TRUE))", "ok"),
    ("(x) COLUMNS (SUM IS SOURCE OF e))", "ok"),
    ("(x) COLUMNS (MIN = 1))", "201 52-53"),
    ("(x) COLUMNS (\"COUNT\" (x) AS n))", "201 56-57"),
    ("(x) COLUMNS (SAME(x, y) AS s))", "ok"),
    ("(x) COLUMNS (1))", "ok"),
    ("(x) COLUMNS (*))", "201 48-49"),
];

#[test]
fn items_are_read_or_refused(rt: HostRuntime) -> Result<(), Fail> {
    let wrong = wrong_verdicts(rt.alloc(), FRONT, &ITEM_TEXTS, "")?;
    assert_eq!(rt; wrong.as_str(), "");
    Ok(())
}

// What later rules refuse, and the first token that no text goes on with.
static OTHER_TEXTS: [(&str, &str); 25] = [
    ("(x)-[e]->*(y) COLUMNS (x.name))", "ok"),
    ("ANY SHORTEST (x)->{1,2}(y) COLUMNS (x.name))", "ok"),
    ("(x)~(y) COLUMNS (x.name))", "ok"),
    (
        "((a)-[e]->(b)){1,2} WHERE e.since > 1 COLUMNS (1 AS c))",
        "ok",
    ),
    ("(x) COLUMNS (x.city))", "ok"),
    ("(x) WHERE x.age = 'a' COLUMNS (x.name))", "ok"),
    ("(x) COLUMNS (x.name", "201 54-54"),
    ("(x)-[e]->{1,33}(y) COLUMNS (x.id AS i))", "ok"),
    ("(x)-[e->(y) COLUMNS (x.id))", "201 41-42"),
    ("ALL (x) COLUMNS (1 AS c))", "201 39-40"),
    ("KEEP (x) COLUMNS (1 AS c))", "201 40-41"),
    ("(x)->[e]-(y) COLUMNS (1 AS c))", "201 40-41"),
    ("(x) KEEP COLUMNS (1 AS c))", "201 39-43"),
    ("(x), p = (y)->(z), TRAIL (w) COLUMNS (1 AS c))", "ok"),
    (
        "(x) WHERE x.a = 1 WHERE TRUE COLUMNS (1 AS c))",
        "201 53-58",
    ),
    ("(x) COLUMNS (x.a) WHERE TRUE", "201 53-58"),
    ("(x) COLUMNS (x.a)", "201 52-52"),
    ("(x) COLUMNS (x.a)))", "201 53-54"),
    ("(x), (y) (z) COLUMNS (1 AS c))", "ok"),
    ("[x] COLUMNS (1 AS c))", "201 35-36"),
    ("(x{2}) COLUMNS (1 AS c))", "201 37-38"),
    ("(x) COLUMNS (x.a AS b c))", "201 57-58"),
    ("(x) COLUMNS (x.a, AS b))", "201 53-55"),
    ("(x) COLUMNS x.a)", "201 47-48"),
    ("(x)->(y)->(z)<-(w)-() COLUMNS (1 AS c))", "ok"),
];

#[test]
fn other_texts_are_read_or_refused(rt: HostRuntime) -> Result<(), Fail> {
    let wrong = wrong_verdicts(rt.alloc(), FRONT, &OTHER_TEXTS, "")?;
    assert_eq!(rt; wrong.as_str(), "");
    Ok(())
}
