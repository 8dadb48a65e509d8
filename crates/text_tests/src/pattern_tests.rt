use crate::pattern_shown::show_tree;
use pattern_parser::parse_query;
use pgq_base::{List, Role, Stop};
use sql_lexer::{Token, lex};
use std::alloc::Global;
use std::test::Fail;

const MOST_BYTES: usize = 1048576;

// How the texts of the tables begin, but for whole texts. It has 35 bytes.
pub(crate) const FRONT: &str = "SELECT * FROM GRAPH_TABLE (g MATCH ";

const BANK: &str =
    "SELECT * FROM GRAPH_TABLE (bank MATCH\n  TRAIL (a IS account WHERE a.blocked IS TRUE)\n        -[t IS moved WHERE t.cents >= 100000]->{1,4}(b IS account)\n  WHERE a.id <> b.id COLUMNS (a.owner AS a, b.owner AS b)) AS found;";

fn tokens_of(alloc: Global, text: &str) -> Result<List<Token>, Fail> {
    let bytes = text.as_bytes();
    if bytes.len() > MOST_BYTES {
        return Err("the text is too long")?;
    }
    match lex(alloc, bytes, Role::Query) {
        Ok(tokens) => Ok(tokens),
        Err(_) => Err("the text has no tokens")?,
    }
}

// `ok`, or the code and the bytes of the refusal.
fn verdict(alloc: Global, tokens: &[Token], end: u32) -> Result<String, Fail> {
    match parse_query(alloc, tokens, end) {
        Ok(_) => Ok(String::from_str(alloc, "ok")?),
        Err(Stop::NoMemory) => Ok(String::from_str(alloc, "no memory")?),
        Err(Stop::Refused(refusal)) => {
            let code = refusal.code.number();
            let from = refusal.span.from;
            let to = refusal.span.to;
            if refusal.role == Role::Query {
                Ok(format!(in alloc; "{code} {from}-{to}")?)
            } else {
                Ok(String::from_str(alloc, "another role")?)
            }
        }
    }
}

fn verdict_of(alloc: Global, text: &str) -> Result<String, Fail> {
    let tokens = tokens_of(alloc, text)?;
    if text.len() > MOST_BYTES {
        return Err("the text is too long")?;
    }
    verdict(alloc, tokens.as_slice(), text.len() as u32)
}

// The tree that a text spells, in the notation of `show_tree`.
fn tree_of(alloc: Global, text: &str) -> Result<String, Fail> {
    let tokens = tokens_of(alloc, text)?;
    if text.len() > MOST_BYTES {
        return Err("the text is too long")?;
    }
    match parse_query(alloc, tokens.as_slice(), text.len() as u32) {
        Ok(tree) => show_tree(alloc, &tree),
        Err(_) => Err("the text is refused")?,
    }
}

fn joined(alloc: Global, front: &str, middle: &str, back: &str) -> Result<String, Fail> {
    let mut text = String::from_str(alloc, front)?;
    text.push_str(middle)?;
    text.push_str(back)?;
    Ok(text)
}

fn repeated(
    alloc: Global,
    front: &str,
    part: &str,
    count: u32,
    back: &str,
) -> Result<String, Fail> {
    let mut text = String::from_str(alloc, front)?;
    for turn in 0..count {
        text.push_str(part)?;
    }
    text.push_str(back)?;
    Ok(text)
}

// The texts of the table, between what stands before and behind each, whose verdicts are not those beside them.
pub(crate) fn wrong_verdicts(
    alloc: Global,
    front: &str,
    rows: &[(&str, &str)],
    back: &str,
) -> Result<String, Fail> {
    let mut wrong = String::new(alloc);
    for row in rows {
        let text = joined(alloc, front, row.0, back)?;
        let shown = verdict_of(alloc, text.as_str())?;
        if shown.as_str() != row.1 {
            wrong.push_str(row.0)?;
            wrong.push_str(" is ")?;
            wrong.push_str(shown.as_str())?;
            wrong.push_str("; ")?;
        }
    }
    Ok(wrong)
}

// The trees that texts of the table have, where they are not those beside them.
fn wrong_trees(
    alloc: Global,
    front: &str,
    rows: &[(&str, &str)],
    back: &str,
) -> Result<String, Fail> {
    let mut wrong = String::new(alloc);
    for row in rows {
        let text = joined(alloc, front, row.0, back)?;
        let shown = tree_of(alloc, text.as_str())?;
        if shown.as_str() != row.1 {
            wrong.push_str(shown.as_str())?;
            wrong.push_str("; ")?;
        }
    }
    Ok(wrong)
}

#[test]
fn depth_has_a_limit(rt: HostRuntime) -> Result<(), Fail> {
    let alloc = rt.alloc();
    // 63 parentheses round a condition, behind the one of GRAPH_TABLE, and 64
    let deepest = repeated(
        alloc,
        "SELECT * FROM GRAPH_TABLE (g MATCH (x) WHERE ",
        "(",
        63,
        "x.age > 25",
    )?;
    let shown = verdict_of(
        alloc,
        repeated(alloc, deepest.as_str(), ")", 63, " COLUMNS (1 AS c))")?.as_str(),
    )?;
    assert_eq!(rt; shown.as_str(), "ok");
    let deeper = repeated(
        alloc,
        "SELECT * FROM GRAPH_TABLE (g MATCH (x) WHERE ",
        "(",
        64,
        "x.age > 25",
    )?;
    let shown = verdict_of(
        alloc,
        repeated(alloc, deeper.as_str(), ")", 64, " COLUMNS (1 AS c))")?.as_str(),
    )?;
    assert_eq!(rt; shown.as_str(), "801 108-109");
    // parentheses of parts, labels, brackets of edges, and of items
    let rows = [
        (repeated(alloc, FRONT, "(", 62, "x")?, "201 98-98"),
        (repeated(alloc, FRONT, "(", 63, "x")?, "201 99-99"),
        (repeated(alloc, FRONT, "(", 64, "x")?, "801 98-99"),
        (repeated(alloc, FRONT, "(", 65, "x")?, "801 98-99"),
        (
            repeated(
                alloc,
                "SELECT * FROM GRAPH_TABLE (g MATCH (x IS ",
                "(",
                62,
                "a",
            )?,
            "201 104-104",
        ),
        (
            repeated(
                alloc,
                "SELECT * FROM GRAPH_TABLE (g MATCH (x IS ",
                "(",
                63,
                "a",
            )?,
            "801 103-104",
        ),
        (
            repeated(
                alloc,
                "SELECT * FROM GRAPH_TABLE (g MATCH (x IS ",
                "(",
                64,
                "a",
            )?,
            "801 103-104",
        ),
        (repeated(alloc, FRONT, "(->", 62, "-[")?, "201 223-223"),
        (repeated(alloc, FRONT, "(->", 63, "-[")?, "801 225-226"),
        (repeated(alloc, FRONT, "(->", 64, "-[")?, "801 224-225"),
        (repeated(alloc, FRONT, "(->", 63, "-[(")?, "801 225-226"),
        (
            repeated(
                alloc,
                "SELECT * FROM GRAPH_TABLE (g MATCH (x)-[e WHERE ",
                "(",
                62,
                "x",
            )?,
            "201 111-111",
        ),
        (
            repeated(
                alloc,
                "SELECT * FROM GRAPH_TABLE (g MATCH (x)-[e WHERE ",
                "(",
                63,
                "x",
            )?,
            "801 110-111",
        ),
        (
            repeated(
                alloc,
                "SELECT * FROM GRAPH_TABLE (g MATCH (x) COLUMNS (",
                "(",
                62,
                "1",
            )?,
            "201 111-111",
        ),
        (
            repeated(
                alloc,
                "SELECT * FROM GRAPH_TABLE (g MATCH (x) COLUMNS (",
                "(",
                63,
                "1",
            )?,
            "801 110-111",
        ),
        (repeated(alloc, FRONT, "(x)", 64, "(")?, "201 228-228"),
        (repeated(alloc, FRONT, "-[e]->", 300, "[")?, "201 1835-1836"),
        (
            repeated(alloc, "SELECT * FROM GRAPH_TABLE (g MATCH (x", "(", 64, "")?,
            "201 37-38",
        ),
        (
            repeated(
                alloc,
                "SELECT * FROM GRAPH_TABLE (g MATCH (x) WHERE x.a IN ",
                "(",
                63,
                "1",
            )?,
            "201 116-116",
        ),
        (
            repeated(
                alloc,
                "SELECT * FROM GRAPH_TABLE (g MATCH (x) WHERE x.a IN ",
                "(",
                64,
                "1",
            )?,
            "801 115-116",
        ),
    ];
    for (text, wanted) in &rows {
        assert_eq!(rt; verdict_of(alloc, text.as_str())?.as_str(), *wanted);
    }
    Ok(())
}

#[test]
fn long_texts_are_read(rt: HostRuntime) -> Result<(), Fail> {
    let alloc = rt.alloc();
    let rows = [
        (
            repeated(
                alloc,
                "SELECT * FROM GRAPH_TABLE (g MATCH (x)",
                "->(y)",
                3000,
                " COLUMNS (1 AS c))",
            )?,
            "ok",
        ),
        (
            repeated(
                alloc,
                "SELECT * FROM GRAPH_TABLE (g MATCH (x)",
                "|(y)",
                4000,
                " COLUMNS (1 AS c))",
            )?,
            "ok",
        ),
        (
            repeated(
                alloc,
                "SELECT * FROM GRAPH_TABLE (g MATCH (x)",
                ", (y)",
                4000,
                " COLUMNS (1 AS c))",
            )?,
            "ok",
        ),
        (
            repeated(
                alloc,
                "SELECT * FROM GRAPH_TABLE (g MATCH (x IS a",
                "&b",
                8000,
                ") COLUMNS (1 AS c))",
            )?,
            "ok",
        ),
        (
            repeated(
                alloc,
                "SELECT * FROM GRAPH_TABLE (g MATCH (x) WHERE TRUE",
                " AND TRUE",
                8000,
                " COLUMNS (1 AS c))",
            )?,
            "ok",
        ),
        (
            repeated(
                alloc,
                "SELECT * FROM GRAPH_TABLE (g MATCH (x) WHERE TRUE",
                " OR TRUE",
                8000,
                " COLUMNS (1 AS c))",
            )?,
            "ok",
        ),
        (
            repeated(
                alloc,
                "SELECT * FROM GRAPH_TABLE (g MATCH (x) WHERE 1 IN (1",
                ", 1",
                8000,
                ") COLUMNS (1 AS c))",
            )?,
            "ok",
        ),
        (
            repeated(
                alloc,
                "SELECT * FROM GRAPH_TABLE (g MATCH (x) COLUMNS (1",
                ", 1",
                8000,
                "))",
            )?,
            "ok",
        ),
        (
            repeated(
                alloc,
                "SELECT * FROM GRAPH_TABLE (g MATCH (x)",
                ",",
                20000,
                "",
            )?,
            "201 39-40",
        ),
    ];
    for (text, wanted) in &rows {
        assert_eq!(rt; verdict_of(alloc, text.as_str())?.as_str(), *wanted);
    }
    // a text of spaces has no tokens
    assert_eq!(rt;
        verdict(alloc, &[], 1048576)?.as_str(),
        "201 1048576-1048576"
    );
    Ok(())
}

#[test]
fn cut_texts_are_refused_at_their_end(rt: HostRuntime) -> Result<(), Fail> {
    let alloc = rt.alloc();
    let tokens = tokens_of(alloc, BANK)?;
    let tokens = tokens.as_slice();
    let mut whole = String::new(alloc);
    for count in 0..tokens.len() {
        let cut = &tokens[..count];
        let mut end = 0;
        for token in cut {
            end = token.span.to;
        }
        let shown = verdict(alloc, cut, end)?;
        if shown.as_str() == "ok" {
            whole.push_str(format!(in alloc; "{count} ")?.as_str())?;
        } else {
            let wanted = format!(in alloc; "201 {end}-{end}")?;
            assert_eq!(rt; shown.as_str(), wanted.as_str());
        }
    }
    // The query may end behind the parenthesis of GRAPH_TABLE, behind its alias and behind the semicolon.
    assert_eq!(rt; whole.as_str(), "66 68 ");
    Ok(())
}

static PATTERN_TREES: [(&str, &str); 12] = [
    (
        "(x) COLUMNS (x.a))",
        "G@27-28 match@29-34; path@35-38 <(@35-38 X@36-37)>; item@48-51 X@48-49.A@50-51@48-51",
    ),
    (
        "(x)-(y)->()<-(z)<->(w) COLUMNS (1 AS c))",
        "G@27-28 match@29-34; path@35-57 <(@35-38 X@36-37)Any[@38-39](@39-42 Y@40-41)Right[@42-44](@44-46)Left[@46-48](@48-51 Z@49-50)Either[@51-54](@54-57 W@55-56)>; item@67-68 Number(1)@67-68 as C@72-73",
    ),
    (
        "()-[a]-()-[b]->()<-[c]-()<-[d]->() COLUMNS (1))",
        "G@27-28 match@29-34; path@35-69 <(@35-37)Any[@37-42 A@39-40](@42-44)Right[@44-50 B@46-47](@50-52)Left[@52-58 C@55-56](@58-60)Either[@60-67 D@63-64](@67-69)>; item@79-80 Number(1)@79-80",
    ),
    (
        "()~()<~()~>()~[a]~()~[b]~>()<~[c]~() COLUMNS (1))",
        "G@27-28 match@29-34; path@35-71 <(@35-37)Undirected[@37-38](@38-40)Undirected[@40-42](@42-44)Undirected[@44-46](@46-48)Undirected[@48-53 A@50-51](@53-55)Undirected[@55-61 B@57-58](@61-63)Undirected[@63-69 C@66-67](@69-71)>; item@81-82 Number(1)@81-82",
    ),
    (
        "(x)->*(y)->+(z)->?(w)->{2}->{2,}->{2,3}->{,3}() COLUMNS (1))",
        "G@27-28 match@29-34; path@35-82 <(@35-38 X@36-37)Right[@38-40]AtLeast(0)@40-41(@41-44 Y@42-43)Right[@44-46]AtLeast(1)@46-47(@47-50 Z@48-49)Right[@50-52]Optional@52-53(@53-56 W@54-55)Right[@56-58]Between(2, 2)@58-61Right[@61-63]AtLeast(2)@63-67Right[@67-69]Between(2, 3)@69-74Right[@74-76]Between(0, 3)@76-80(@80-82)>; item@92-93 Number(1)@92-93",
    ),
    (
        "((x)->(y)){1,2} (TRAIL PATH -[e]-> WHERE e.a = 1)? (z) COLUMNS (1))",
        "G@27-28 match@29-34; path@35-89 <{@35-45 <(@36-39 X@37-38)Right[@39-41](@41-44 Y@42-43)>}Between(1, 2)@45-50{@51-84 Trail@52-57 <Right[@63-69 E@65-66]> where Equal(E@76-77.A@78-79, Number(1))@76-83@76-79@82-83}Optional@84-85(@86-89 Z@87-88)>; item@99-100 Number(1)@99-100",
    ),
    (
        "(((x)) -> (())){2} COLUMNS (1))",
        "G@27-28 match@29-34; path@35-53 <{@35-50 <{@36-41 <(@37-40 X@38-39)>}Right[@42-44]{@45-49 <(@46-48)>}>}Between(2, 2)@50-53>; item@63-64 Number(1)@63-64",
    ),
    (
        "p = ANY 3 SIMPLE PATHS (x), ALL SHORTEST (y), ANY (z), ANY SHORTEST WALK (w) COLUMNS (1))",
        "G@27-28 match@29-34; path@35-61 P@35-36= AnyCount(3)@39-44 Simple@45-51 <(@58-61 X@59-60)>; path@63-79 AllShortest@63-75 <(@76-79 Y@77-78)>; path@81-88 Any@81-84 <(@85-88 Z@86-87)>; path@90-111 AnyShortest@90-102 Walk@103-107 <(@108-111 W@109-110)>; item@121-122 Number(1)@121-122",
    ),
    (
        "SHORTEST 2 (x), SHORTEST 2 PATH (y), SHORTEST 2 TRAIL PATHS GROUPS (z), ACYCLIC PATH (w) COLUMNS (1))",
        "G@27-28 match@29-34; path@35-49 Shortest(2)@35-45 <(@46-49 X@47-48)>; path@51-70 Shortest(2)@51-61 <(@67-70 Y@68-69)>; path@72-105 ShortestGroup(2)@72-101 Trail@83-88 <(@102-105 Z@103-104)>; path@107-123 Acyclic@107-114 <(@120-123 W@121-122)>; item@133-134 Number(1)@133-134",
    ),
    (
        "(x)|(y)->(z)|+|->{2} , (w) COLUMNS (1))",
        "G@27-28 match@29-34; path@35-55 <(@35-38 X@36-37)> <(@39-42 Y@40-41)Right[@42-44](@44-47 Z@45-46)> <Right[@50-52]Between(2, 2)@52-55> |@38-39 |+|@47-50; path@58-61 <(@58-61 W@59-60)>; item@71-72 Number(1)@71-72",
    ),
    (
        "(x IS a|b&!c)-[:(a|b)&%]->(\"y\":!(a)) COLUMNS (1))",
        "G@27-28 match@29-34; path@35-71 <(@35-48 X@36-37 :or( A@41-42 and( B@43-44 !C@46-47)))Right[@48-61 :and( or( A@52-53 B@54-55) %)](@61-71 y@62-65 :!A@68-69)>; item@81-82 Number(1)@81-82",
    ),
    (
        "(x WHERE x.a = 1)-[e IS f WHERE e.b]->(WHERE TRUE) WHERE FALSE COLUMNS (1))",
        "G@27-28 match@29-34; path@35-85 <(@35-52 X@36-37 where Equal(X@44-45.A@46-47, Number(1))@44-51@44-47@50-51)Right[@52-73 E@54-55 :F@59-60 where E@67-68.B@69-70@67-70](@73-85 where Truth(true)@80-84)> where Truth(false)@92-97; item@107-108 Number(1)@107-108",
    ),
];

#[test]
fn trees_of_patterns(rt: HostRuntime) -> Result<(), Fail> {
    let wrong = wrong_trees(rt.alloc(), FRONT, &PATTERN_TREES, "")?;
    assert_eq!(rt; wrong.as_str(), "");
    Ok(())
}

static CONDITION_TREES: [(&str, &str); 10] = [
    (
        "x.a = 1 AND x.b <> 'it''s' AND NOT x.c OR x.d < -5 OR x.e >= -9223372036854775808",
        "G@27-28 match@29-34; path@35-38 <(@35-38 X@36-37)> where any( all( Equal(X@45-46.A@47-48, Number(1)) NotEqual(X@57-58.B@59-60, 'it's') not X@80-81.C@82-83) Less(X@87-88.D@89-90, Number(-5)) GreaterOrEqual(X@99-100.E@101-102, Number(-9223372036854775808)))@45-126@45-83@45-52@45-48@51-52@57-71@57-60@64-71@76-83@80-83@87-95@87-90@93-95@99-126@99-102@106-126; item@136-137 Number(1)@136-137",
    ),
    (
        "(x.a = 1 OR TRUE) AND ((x.b))",
        "G@27-28 match@29-34; path@35-38 <(@35-38 X@36-37)> where all( any( Equal(X@46-47.A@48-49, Number(1)) Truth(true)) X@69-70.B@71-72)@45-74@45-62@46-53@46-49@52-53@57-61@67-74; item@84-85 Number(1)@84-85",
    ),
    (
        "x.a IS NOT NULL IS FALSE OR x.b <= 2 IS UNKNOWN",
        "G@27-28 match@29-34; path@35-38 <(@35-38 X@36-37)> where any( False false Null true X@45-46.A@47-48 Unknown false LessOrEqual(X@73-74.B@75-76, Number(2)))@45-92@45-69@45-60@45-48@73-92@73-81@73-76@80-81; item@102-103 Number(1)@102-103",
    ),
    (
        "x.a BETWEEN 1 AND 2 AND x.b NOT BETWEEN x.c AND (3)",
        "G@27-28 match@29-34; path@35-38 <(@35-38 X@36-37)> where all( between false X@45-46.A@47-48, Number(1), Number(2) between true X@69-70.B@71-72, X@85-86.C@87-88, Number(3))@45-96@45-64@45-48@57-58@63-64@69-96@69-72@85-88@93-96; item@106-107 Number(1)@106-107",
    ),
    (
        "x.a IN (1, x.b) OR x.a NOT IN ('c') IS NOT TRUE",
        "G@27-28 match@29-34; path@35-38 <(@35-38 X@36-37)> where any( in false X@45-46.A@47-48( Number(1) X@56-57.B@58-59) True true in true X@64-65.A@66-67( 'c'))@45-92@45-60@45-48@53-54@56-59@64-92@64-80@64-67@76-79; item@102-103 Number(1)@102-103",
    ),
    (
        "COALESCE(x.a, COALESCE(1, 2), (TRUE)) > 1",
        "G@27-28 match@29-34; path@35-38 <(@35-38 X@36-37)> where Greater(coalesce( X@54-55.A@56-57 coalesce( Number(1) Number(2)) Truth(true)), Number(1))@45-86@45-82@54-57@59-73@68-69@71-72@75-81@85-86; item@96-97 Number(1)@96-97",
    ),
    (
        "SAME(x, y) AND ALL_DIFFERENT(x, y, z) IS NOT TRUE OR NOT (SAME(a, b))",
        "G@27-28 match@29-34; path@35-38 <(@35-38 X@36-37)> where any( all( X@50-51.SAME@45-49 same X@50-51 Y@53-54 True true X@74-75.ALL_DIFFERENT@60-73 all-different X@74-75 Y@77-78 Z@80-81) not A@108-109.SAME@103-107 same A@108-109 B@111-112)@45-114@45-94@45-55@60-94@60-82@98-114@102-114; item@124-125 Number(1)@124-125",
    ),
    (
        "x IS SOURCE OF e AND y IS NOT DESTINATION OF f IS TRUE",
        "G@27-28 match@29-34; path@35-38 <(@35-38 X@36-37)> where all( X@45-46.SOURCE@50-56 source X@45-46E@60-61 True false not Y@66-67.DESTINATION@75-86 destination Y@66-67F@90-91)@45-99@45-61@66-99@66-91@66-91; item@109-110 Number(1)@109-110",
    ),
    (
        "SAME.a = DATE.b AND COUNT IS SOURCE OF source",
        "G@27-28 match@29-34; path@35-38 <(@35-38 X@36-37)> where all( Equal(SAME@45-49.A@50-51, DATE@54-58.B@59-60) COUNT@65-70.SOURCE@74-80 source COUNT@65-70SOURCE@84-90)@45-90@45-60@45-51@54-60@65-90; item@100-101 Number(1)@100-101",
    ),
    (
        "((x.a)) IS NULL AND (NOT x.b) = FALSE",
        "G@27-28 match@29-34; path@35-38 <(@35-38 X@36-37)> where all( Null false X@47-48.A@49-50 Equal(not X@70-71.B@72-73, Truth(false)))@45-82@45-60@45-52@65-82@65-74@70-73@77-82; item@92-93 Number(1)@92-93",
    ),
];

#[test]
fn trees_of_conditions(rt: HostRuntime) -> Result<(), Fail> {
    let wrong = wrong_trees(
        rt.alloc(),
        "SELECT * FROM GRAPH_TABLE (g MATCH (x) WHERE ",
        &CONDITION_TREES,
        " COLUMNS (1))",
    )?;
    assert_eq!(rt; wrong.as_str(), "");
    Ok(())
}

static ITEM_TREES: [(&str, &str); 3] = [
    (
        "x.a AS b, x.c, x.a = 1 AND TRUE OR FALSE AS d, ((x.e))",
        "G@27-28 match@29-34; path@35-38 <(@35-38 X@36-37)>; item@48-51 X@48-49.A@50-51@48-51 as B@55-56 item@58-61 X@58-59.C@60-61@58-61 item@63-88 any( all( Equal(X@63-64.A@65-66, Number(1)) Truth(true)) Truth(false))@63-88@63-79@63-70@63-66@69-70@75-79@83-88 as D@92-93 item@95-102 X@97-98.E@99-100@95-102",
    ),
    (
        "COUNT(e) AS n, COUNT(e.a) AS m, MIN(e.a) AS i, MAX(e.b) AS j, SUM(e.c) AS k",
        "G@27-28 match@29-34; path@35-38 <(@35-38 X@36-37)>; item@48-56 Number(1)@48-56 as N@60-61 Count E@54-55 item@63-73 Number(1)@63-73 as M@77-78 Count E@69-70.A@71-72 item@80-88 Number(1)@80-88 as I@92-93 Min E@84-85.A@86-87 item@95-103 Number(1)@95-103 as J@107-108 Max E@99-100.B@101-102 item@110-118 Number(1)@110-118 as K@122-123 Sum E@114-115.C@116-117",
    ),
    (
        "COUNT.a = 1 AND TRUE AS b, MIN IS SOURCE OF e, NOT SUM.a, \"COUNT\".a",
        "G@27-28 match@29-34; path@35-38 <(@35-38 X@36-37)>; item@48-68 all( Equal(COUNT@48-53.A@54-55, Number(1)) Truth(true))@48-68@48-59@48-55@58-59@64-68 as B@72-73 item@75-93 MIN@75-78.SOURCE@82-88 source MIN@75-78E@92-93@75-93 item@95-104 not SUM@99-102.A@103-104@95-104@99-104 item@106-115 COUNT@106-113.A@114-115@106-115",
    ),
];

#[test]
fn trees_of_items(rt: HostRuntime) -> Result<(), Fail> {
    let wrong = wrong_trees(
        rt.alloc(),
        "SELECT * FROM GRAPH_TABLE (g MATCH (x) COLUMNS (",
        &ITEM_TREES,
        "))",
    )?;
    assert_eq!(rt; wrong.as_str(), "");
    Ok(())
}
