use crate::sql_shown::show_text;
use pgq_base::{List, Role, Stop};
use sql_lexer::{Token, lex};
use sql_parser::parse_sql;
use std::alloc::Global;
use std::test::Fail;

const MOST_BYTES: usize = 1048576;

fn tokens_of(alloc: Global, text: &str) -> Result<List<Token>, Fail> {
    let bytes = text.as_bytes();
    if bytes.len() > MOST_BYTES {
        return Err("the text is too long")?;
    }
    match lex(alloc, bytes, Role::Sql) {
        Ok(tokens) => Ok(tokens),
        Err(_) => Err("the text has no tokens")?,
    }
}

// `ok`, or the code and the bytes of the refusal.
fn verdict(alloc: Global, tokens: &[Token], end: u32) -> Result<String, Fail> {
    match parse_sql(alloc, tokens, end) {
        Ok(_) => Ok(String::from_str(alloc, "ok")?),
        Err(Stop::NoMemory) => Ok(String::from_str(alloc, "no memory")?),
        Err(Stop::Refused(refusal)) => {
            let code = refusal.code.number();
            let from = refusal.span.from;
            let to = refusal.span.to;
            if refusal.role == Role::Sql {
                Ok(format!(in alloc; "{code} {from}-{to}")?)
            } else {
                Ok(String::from_str(alloc, "another role")?)
            }
        }
    }
}

fn verdict_of(alloc: Global, text: &str) -> Result<String, Fail> {
    let tokens = tokens_of(alloc, text)?;
    if text.len() > MOST_BYTES {
        return Err("the text is too long")?;
    }
    verdict(alloc, tokens.as_slice(), text.len() as u32)
}

// The tree that a text spells, in the notation of `show_text`.
fn tree_of(alloc: Global, text: &str) -> Result<String, Fail> {
    let tokens = tokens_of(alloc, text)?;
    if text.len() > MOST_BYTES {
        return Err("the text is too long")?;
    }
    match parse_sql(alloc, tokens.as_slice(), text.len() as u32) {
        Ok(tree) => show_text(alloc, &tree),
        Err(_) => Err("the text is refused")?,
    }
}

// The part so many times, between the front and the end, and another part as often behind it.
fn nested(
    alloc: Global,
    front: &str,
    part: &str,
    count: u32,
    middle: &str,
    closing: &str,
    back: &str,
) -> Result<String, Fail> {
    let mut text = String::from_str(alloc, front)?;
    for turn in 0..count {
        text.push_str(part)?;
    }
    text.push_str(middle)?;
    for turn in 0..count {
        text.push_str(closing)?;
    }
    text.push_str(back)?;
    Ok(text)
}

// Texts and what is said of each.
static TEXTS: [(&str, &str); 28] = [
    ("SELECT A0.ID AS N FROM PERSON AS A0 WHERE", "201 41-41"),
    ("SELECT 1 AS N FROM PERSON WHERE", "201 26-31"),
    ("", "201 0-0"),
    ("  ", "201 2-2"),
    (";", "201 0-1"),
    ("SELECT", "201 6-6"),
    ("SELECT 1", "201 8-8"),
    ("SELECT 1 AS", "201 11-11"),
    ("SELECT 1 AS N", "201 13-13"),
    ("SELECT 1 AS N FROM T", "201 20-20"),
    ("SELECT 1 AS N FROM T AS", "201 23-23"),
    ("SELECT 1 AS N FROM T AS A", "ok"),
    ("SELECT 1 AS N FROM T AS A;", "ok"),
    ("SELECT 1 AS N FROM T AS A;;", "201 26-27"),
    ("SELECT 1 N FROM T AS A", "201 9-10"),
    ("SELECT * FROM T AS A", "201 7-8"),
    ("SELECT DISTINCT 1 AS N FROM T AS A", "201 7-15"),
    ("SELECT 1 AS N, FROM T AS A", "201 15-19"),
    ("SELECT 1 AS N, 2 AS M FROM T AS A, U AS B", "ok"),
    (
        "SELECT 1 AS N FROM T AS A, JOIN U AS B ON TRUE",
        "201 27-31",
    ),
    ("SELECT A AS N FROM T AS A", "201 9-11"),
    ("SELECT A.B.C AS N FROM T AS A", "201 10-11"),
    ("SELECT 1 AS select FROM T AS A", "201 12-18"),
    ("SELECT 1 AS \"select\" FROM T AS A", "ok"),
    ("select 1 as key from t as a", "ok"),
    (
        "SELECT 1 AS N FROM T AS A UNION SELECT 1 AS N FROM T AS A",
        "201 32-38",
    ),
    ("SELECT 1 AS N FROM T AS A UNION ALL", "201 35-35"),
    (
        "SELECT 1 AS N FROM T AS A; UNION ALL SELECT 1 AS N FROM T AS A",
        "201 27-32",
    ),
];

#[test]
fn texts_are_read_or_refused(rt: HostRuntime) -> Result<(), Fail> {
    let alloc = rt.alloc();
    for (text, wanted) in TEXTS {
        let shown = verdict_of(alloc, text)?;
        assert_eq!(rt; shown.as_str(), wanted, "at {text}");
    }
    Ok(())
}

// Texts and what is said of each.
static JOINS: [(&str, &str); 23] = [
    ("SELECT 1 AS N FROM T AS A JOIN U AS B", "201 37-37"),
    ("SELECT 1 AS N FROM T AS A JOIN U ON TRUE", "201 33-35"),
    ("SELECT 1 AS N FROM T AS A JOIN U AS B ON", "201 40-40"),
    (
        "SELECT 1 AS N FROM T AS A JOIN U AS B ON TRUE OR FALSE",
        "201 46-48",
    ),
    (
        "SELECT 1 AS N FROM T AS A JOIN U AS B ON NOT A.X = B.Y AND NOT NOT TRUE",
        "201 63-66",
    ),
    (
        "SELECT 1 AS N FROM T AS A JOIN U AS B ON EXISTS (SELECT 1 AS N FROM T AS A)",
        "201 41-47",
    ),
    (
        "SELECT 1 AS N FROM T AS A JOIN U AS B ON NOT EXISTS (SELECT 1 AS N FROM T AS A)",
        "201 45-51",
    ),
    (
        "SELECT 1 AS N FROM T AS A WHERE A.X = 1 OR A.Y = 2",
        "201 40-42",
    ),
    (
        "SELECT 1 AS N FROM T AS A WHERE (A.X = 1 OR A.Y = 2) AND TRUE",
        "ok",
    ),
    (
        "SELECT 1 AS N FROM T AS A WHERE EXISTS (SELECT 1 AS N FROM T AS B)",
        "201 32-38",
    ),
    (
        "SELECT 1 AS N FROM T AS A WHERE NOT EXISTS (SELECT 1 AS N FROM T AS B",
        "201 69-69",
    ),
    (
        "SELECT 1 AS N FROM T AS A WHERE NOT EXISTS SELECT",
        "201 43-49",
    ),
    (
        "SELECT 1 AS N FROM T AS A WHERE NOT EXISTS (TRUE)",
        "201 44-48",
    ),
    (
        "SELECT 1 AS N FROM T AS A WHERE NOT (NOT EXISTS (SELECT 1 AS N FROM T AS B))",
        "201 41-47",
    ),
    ("SELECT 1 AS N FROM T AS A WHERE NOT NOT TRUE", "201 36-39"),
    ("SELECT 1 AS N FROM T AS A WHERE TRUE AND", "201 40-40"),
    ("SELECT 1 AS N FROM T AS A WHERE TRUE, TRUE", "201 36-37"),
    (
        "SELECT 1 AS N FROM T AS A WHERE TRUE JOIN U AS B ON TRUE",
        "201 37-41",
    ),
    (
        "SELECT 1 AS N FROM T AS A WHERE NOT EXISTS (SELECT 1 AS N FROM T AS B UNION ALL SELECT 1 AS N FROM T AS B)",
        "201 70-75",
    ),
    (
        "SELECT 1 AS N FROM T AS A WHERE NOT EXISTS (SELECT 1 AS N FROM T AS B;)",
        "201 69-70",
    ),
    ("SELECT 1 AS N FROM (T AS A)", "201 19-20"),
    (
        "SELECT 1 AS N FROM T AS A LEFT JOIN U AS B ON TRUE",
        "201 26-30",
    ),
    ("SELECT 1 AS N FROM T AS A CROSS JOIN U AS B", "201 26-31"),
];

#[test]
fn joins_and_members_are_read_or_refused(rt: HostRuntime) -> Result<(), Fail> {
    let alloc = rt.alloc();
    for (text, wanted) in JOINS {
        let shown = verdict_of(alloc, text)?;
        assert_eq!(rt; shown.as_str(), wanted, "at {text}");
    }
    Ok(())
}

// Texts and what is said of each.
static CONDITIONS: [(&str, &str); 30] = [
    ("SELECT 9223372036854775807 AS N FROM T AS A", "ok"),
    ("SELECT 9223372036854775808 AS N FROM T AS A", "201 7-26"),
    ("SELECT -9223372036854775808 AS N FROM T AS A", "ok"),
    ("SELECT 1.50 AS N FROM T AS A", "ok"),
    ("SELECT -1.50 AS N FROM T AS A", "ok"),
    ("SELECT - 'x' AS N FROM T AS A", "201 9-12"),
    ("SELECT DATE '2024-02-29' AS N FROM T AS A", "ok"),
    ("SELECT DATE '2023-02-29' AS N FROM T AS A", "201 12-24"),
    ("SELECT DATE.X AS N FROM T AS A", "ok"),
    ("SELECT DATE AS N FROM T AS A", "201 12-14"),
    ("SELECT NULL AS N FROM T AS A", "201 7-11"),
    ("SELECT CAST(NULL AS VARCHAR(0)) AS N FROM T AS A", "ok"),
    ("SELECT CAST(NULL AS VARCHAR) AS N FROM T AS A", "201 27-28"),
    ("SELECT CAST(NULL AS INTEGER) AS N FROM T AS A", "201 20-27"),
    ("SELECT CAST(1 AS BIGINT) AS N FROM T AS A", "201 12-13"),
    ("SELECT COALESCE(1) AS N FROM T AS A", "201 17-18"),
    ("SELECT COALESCE(1, 2, A.X) AS N FROM T AS A", "ok"),
    ("SELECT COALESCE() AS N FROM T AS A", "201 16-17"),
    ("SELECT (1 AS N FROM T AS A", "201 10-12"),
    ("SELECT () AS N FROM T AS A", "201 8-9"),
    ("SELECT ((1)) AS N FROM T AS A", "ok"),
    ("SELECT A.X IS NULL IS TRUE AS N FROM T AS A", "ok"),
    ("SELECT A.X = 1 IS NULL AS N FROM T AS A", "201 18-22"),
    ("SELECT A.X IS TRUE IS FALSE AS N FROM T AS A", "201 19-21"),
    ("SELECT A.X IN () AS N FROM T AS A", "201 15-16"),
    ("SELECT A.X IN ((1), 2) AS N FROM T AS A", "ok"),
    ("SELECT A.X NOT AS N FROM T AS A", "201 15-17"),
    (
        "SELECT A.X NOT BETWEEN 1 AND 2 AND TRUE AS N FROM T AS A",
        "ok",
    ),
    ("SELECT A.X = 1 = 2 AS N FROM T AS A", "201 15-16"),
    ("SELECT TRUE AND OR TRUE AS N FROM T AS A", "201 16-18"),
];

#[test]
fn conditions_are_read_or_refused(rt: HostRuntime) -> Result<(), Fail> {
    let alloc = rt.alloc();
    for (text, wanted) in CONDITIONS {
        let shown = verdict_of(alloc, text)?;
        assert_eq!(rt; shown.as_str(), wanted, "at {text}");
    }
    Ok(())
}

// Texts and their trees.
static TREES: [(&str, &str); 6] = [
    (
        "SELECT A0.NAME AS X, A2.NAME AS Y FROM PERSON AS A0 JOIN KNOWS AS A1 ON A1.A = A0.ID JOIN PERSON AS A2 ON (A1.A = A0.ID AND A1.B = A2.ID OR A1.A = A2.ID AND A1.B = A0.ID)",
        "select@0-6 {A0@7-9.NAME@10-14 [7-14 ] as X@18-19} {A2@21-23.NAME@24-28 [21-28 ] as Y@32-33} from PERSON@39-45 as A0@49-51 from KNOWS@57-62 as A1@66-68 on {(= A1@72-74.A@75-76 A0@79-81.ID@82-84) [72-84 72-76 79-84 ]} from PERSON@90-96 as A2@100-102 on {(or (and (= A1@107-109.A@110-111 A0@114-116.ID@117-119) (= A1@124-126.B@127-128 A2@131-133.ID@134-136)) (and (= A1@140-142.A@143-144 A2@147-149.ID@150-152) (= A1@157-159.B@160-161 A0@164-166.ID@167-169))) [106-170 107-136 107-119 107-111 114-119 124-136 124-128 131-136 140-169 140-152 140-144 147-152 157-169 157-161 164-169 ]}; ",
    ),
    (
        "SELECT 1 AS A FROM T AS A JOIN U AS B ON A.X = B.X AND TRUE, V AS C JOIN W AS D ON NOT FALSE WHERE A.X <> 1 AND NOT B.Y < 2 UNION ALL SELECT 2 AS A FROM U AS B",
        "select@0-6 {1 [7-8 ] as A@12-13} from T@19-20 as A@24-25 from U@31-32 as B@36-37 on {(= A@41-42.X@43-44 B@47-48.X@49-50) [41-50 41-44 47-50 ]} {true [55-59 ]} from V@61-62 as C@66-67 from W@73-74 as D@78-79 on {(not false) [83-92 87-92 ]} where {(<> A@99-100.X@101-102 1) [99-107 99-102 106-107 ]} where {(not (< B@116-117.Y@118-119 2)) [112-123 116-123 116-119 122-123 ]}; select@134-140 {2 [141-142 ] as A@146-147} from U@153-154 as B@158-159; ",
    ),
    (
        "SELECT 1 AS C FROM T AS A WHERE NOT EXISTS (SELECT 1 AS C FROM U AS B WHERE NOT EXISTS (SELECT 2 AS D FROM V AS E) AND B.X IS NOT UNKNOWN) AND (A.X) IS NULL IS NOT TRUE",
        "select@0-6 {1 [7-8 ] as C@12-13} from T@19-20 as A@24-25 where-not-exists {select@44-50 {1 [51-52 ] as C@56-57} from U@63-64 as B@68-69 where-not-exists {select@88-94 {2 [95-96 ] as D@100-101} from V@107-108 as E@112-113} where {(not-is-unknown B@119-120.X@121-122) [119-137 119-122 ]}} where {(not-is-true (is-null A@144-145.X@146-147)) [143-168 143-156 143-148 ]}; ",
    ),
    (
        "SELECT NOT A.X = 1 AND A.Y IS FALSE OR A.Z AS N, (((A.X))) AS M, COALESCE((1), -2, CAST(NULL AS BIGINT)) AS K FROM T AS A",
        "select@0-6 {(or (and (not (= A@11-12.X@13-14 1)) (is-false A@23-24.Y@25-26)) A@39-40.Z@41-42) [7-42 7-35 7-18 11-18 11-14 17-18 23-35 23-26 39-42 ] as N@46-47} {A@52-53.X@54-55 [49-58 ] as M@62-63} {(coalesce 1 -2 null-number) [65-104 74-77 79-81 83-103 ] as K@108-109} from T@115-116 as A@120-121; ",
    ),
    (
        "SELECT A.X BETWEEN 1 AND 2 AND A.X NOT BETWEEN (3) AND 4 AS N, A.X IN (1, (2)) OR A.X NOT IN (3) OR TRUE AS M FROM T AS A",
        "select@0-6 {(and (between A@7-8.X@9-10 1 2) (not-between A@31-32.X@33-34 3 4)) [7-56 7-26 7-10 19-20 25-26 31-56 31-34 47-50 55-56 ] as N@60-61} {(or (in A@63-64.X@65-66 1 2) (not-in A@82-83.X@84-85 3) true) [63-104 63-78 63-66 71-72 74-77 82-96 82-85 94-95 100-104 ] as M@108-109} from T@115-116 as A@120-121; ",
    ),
    (
        "SELECT 1.50 = -0.25 AS N, DATE '2024-02-29' >= DATE.D AS M, 'it''s' <= 'x' AS K, CAST(NULL AS VARCHAR(9)) > CAST(NULL AS DATE) AS L, CAST(NULL AS BOOLEAN) IS TRUE AS J FROM \"we\"\"ird\" AS date",
        "select@0-6 {(= decimal 15 1 decimal -25 2) [7-19 7-11 14-19 ] as N@23-24} {(>= date 19782 DATE@47-51.D@52-53) [26-53 26-43 47-53 ] as M@57-58} {(<= 'it's' 'x') [60-74 60-67 71-74 ] as K@78-79} {(> null-text null-date) [81-126 81-105 108-126 ] as L@130-131} {(is-true null-truth) [133-162 133-154 ] as J@166-167} from we\"ird@173-182 as DATE@186-190; ",
    ),
];

#[test]
fn trees_are_those_of_the_tokens(rt: HostRuntime) -> Result<(), Fail> {
    let alloc = rt.alloc();
    for (text, wanted) in TREES {
        let shown = tree_of(alloc, text)?;
        assert_eq!(rt; shown.as_str(), wanted, "at {text}");
    }
    Ok(())
}

const ONE_ROW: &str =
    "SELECT A0.NAME AS X, A0.NAME AS Y FROM PERSON AS A0\nUNION ALL\nSELECT A0.NAME AS X, A2.NAME AS Y FROM PERSON AS A0 JOIN KNOWS AS A1 ON A1.A = A0.ID JOIN PERSON AS A2 ON A1.B = A2.ID WHERE NOT EXISTS (SELECT 1 AS C FROM PERSON AS S0 WHERE S0.ID = A0.ID AND S0.ID = A2.ID)\n";

#[test]
fn cut_texts_are_refused_at_their_end(rt: HostRuntime) -> Result<(), Fail> {
    let alloc = rt.alloc();
    let tokens = tokens_of(alloc, ONE_ROW)?;
    let tokens = tokens.as_slice();
    let mut whole = String::new(alloc);
    for count in 0..tokens.len() {
        let cut = &tokens[..count];
        let mut end = 0;
        for token in cut {
            end = token.span.to;
        }
        let shown = verdict(alloc, cut, end)?;
        if shown.as_str() == "ok" {
            whole.push_str(format!(in alloc; "{count} ")?.as_str())?;
        } else {
            let wanted = format!(in alloc; "201 {end}-{end}")?;
            assert_eq!(rt; shown.as_str(), wanted.as_str());
        }
    }
    // The selects end at the 16th and the 87th token, and a text may end behind each FROM item of the last one.
    assert_eq!(rt; whole.as_str(), "16 34 42 46 54 58 ");
    Ok(())
}

// Fronts, parts and how often they stand, what they hold, how each is closed, what follows, and what is said of it.
static DEEP: [(&str, &str, u32, &str, &str, &str, &str); 14] = [
    ("SELECT ", "(", 128, "1", ")", " AS N FROM T AS A", "ok"),
    ("SELECT ", "(", 128, "", "", "", "201 135-135"),
    (
        "SELECT ",
        "(",
        129,
        "1",
        ")",
        " AS N FROM T AS A",
        "801 135-136",
    ),
    (
        "SELECT 1 AS N FROM T AS A WHERE ",
        "NOT EXISTS (SELECT 1 AS N FROM T AS A WHERE ",
        128,
        "TRUE",
        ")",
        "",
        "ok",
    ),
    (
        "SELECT 1 AS N FROM T AS A WHERE ",
        "NOT EXISTS (SELECT 1 AS N FROM T AS A WHERE ",
        129,
        "TRUE",
        ")",
        "",
        "801 5675-5676",
    ),
    (
        "SELECT ",
        "COALESCE(1, ",
        128,
        "1",
        ")",
        " AS N FROM T AS A",
        "ok",
    ),
    (
        "SELECT ",
        "COALESCE(1, ",
        129,
        "1",
        ")",
        " AS N FROM T AS A",
        "801 1551-1552",
    ),
    (
        "SELECT 1 AS N FROM T AS A WHERE ",
        "1 IN ((",
        64,
        "1",
        "))",
        "",
        "ok",
    ),
    (
        "SELECT 1 AS N FROM T AS A WHERE (",
        "1 IN ((",
        64,
        "1",
        "))",
        ")",
        "801 480-481",
    ),
    (
        "SELECT ",
        "(",
        128,
        "CAST(NULL AS DATE)",
        "",
        "",
        "801 139-140",
    ),
    (
        "SELECT ",
        "(",
        127,
        "CAST(NULL AS VARCHAR(1)",
        "",
        "",
        "801 154-155",
    ),
    (
        "SELECT ",
        "(",
        127,
        "CAST(NULL AS DATE)",
        "",
        "",
        "201 152-152",
    ),
    (
        "SELECT ",
        "(1) = (1) AS N, ",
        130,
        "1 AS N FROM T AS A",
        "",
        "",
        "ok",
    ),
    ("SELECT AS ", "(", 129, "", "", "", "201 7-9"),
];

#[test]
fn depth_has_a_limit(rt: HostRuntime) -> Result<(), Fail> {
    let alloc = rt.alloc();
    for (front, part, count, middle, closing, back, wanted) in DEEP {
        let text = nested(alloc, front, part, count, middle, closing, back)?;
        assert_eq!(rt;
            verdict_of(alloc, text.as_str())?.as_str(),
            wanted,
            "at {part} {count}"
        );
    }
    Ok(())
}

// `ok`, or the code and the bytes of what lexing refuses.
fn lexed(alloc: Global, text: &str) -> Result<String, Fail> {
    let bytes = text.as_bytes();
    if bytes.len() > MOST_BYTES {
        return Err("the text is too long")?;
    }
    match lex(alloc, bytes, Role::Sql) {
        Ok(_) => Ok(String::from_str(alloc, "ok")?),
        Err(Stop::NoMemory) => Ok(String::from_str(alloc, "no memory")?),
        Err(Stop::Refused(refusal)) => {
            let code = refusal.code.number();
            let from = refusal.span.from;
            let to = refusal.span.to;
            Ok(format!(in alloc; "{code} {from}-{to}")?)
        }
    }
}

#[test]
fn long_texts_are_read(rt: HostRuntime) -> Result<(), Fail> {
    let alloc = rt.alloc();
    // A column and its comma have four tokens, and all else has eight: 65,536 tokens.
    let long = nested(
        alloc,
        "SELECT ",
        "1 AS N,",
        16382,
        "1 AS N FROM T AS A",
        "",
        "",
    )?;
    assert_eq!(rt; verdict_of(alloc, long.as_str())?.as_str(), "ok");
    // Lexing refuses one token more.
    let longer = nested(
        alloc,
        "SELECT ",
        "1 AS N,",
        16382,
        "1 AS N FROM T AS A",
        "",
        ";",
    )?;
    assert_eq!(rt;
        lexed(alloc, longer.as_str())?.as_str(),
        "106 114699-114700"
    );
    // Selects, tables and members in a row.
    let selects = nested(
        alloc,
        "SELECT 1 AS N FROM T AS A",
        " UNION ALL SELECT 1 AS N FROM T AS A",
        6000,
        "",
        "",
        ";",
    )?;
    assert_eq!(rt; verdict_of(alloc, selects.as_str())?.as_str(), "ok");
    let tables = nested(
        alloc,
        "SELECT 1 AS N FROM T AS A",
        " JOIN U AS B ON TRUE",
        9000,
        "",
        "",
        " WHERE",
    )?;
    assert_eq!(rt;
        verdict_of(alloc, tables.as_str())?.as_str(),
        "201 180031-180031"
    );
    let members = nested(
        alloc,
        "SELECT 1 AS N FROM T AS A WHERE TRUE",
        " AND 1 IN (1,1)",
        6000,
        "",
        "",
        " AND",
    )?;
    assert_eq!(rt;
        verdict_of(alloc, members.as_str())?.as_str(),
        "201 90040-90040"
    );
    Ok(())
}
