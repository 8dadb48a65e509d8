use expr_tree::{Comparison, Expr, Test};
use pgq_base::{Class, Date, Decimal, List, Name, NoMemory, Role, Stop, Text, Value};
use sql_algebra::{ColumnLeaf, Conjunct, FromItem, Select, SelectColumn, SqlQuery};
use sql_lexer::{Kind, Token, lex};
use sql_printer::{print, print_literal, print_name};
use sqlite_items::Boxed;
use std::alloc::Global;
use std::process::Abort;
use std::str;
use std::test::Fail;
use word_table::reserved_words;

type Tree = Expr<ColumnLeaf>;

fn name(alloc: Global, text: &str) -> Result<Name, NoMemory> {
    let bytes = text.as_bytes();
    if bytes.is_empty() || bytes.len() > 128 {
        return Err(NoMemory);
    }
    Name::from_bytes(alloc, bytes)
}

fn leaf(alloc: Global, alias: &str, column: &str, class: Class) -> Result<Tree, NoMemory> {
    let alias = name(alloc, alias)?;
    let column = name(alloc, column)?;
    Ok(Expr::Leaf(ColumnLeaf {
        alias,
        column,
        class,
    }))
}

fn compared(alloc: Global, op: Comparison, a: Tree, b: Tree) -> Result<Tree, NoMemory> {
    let a = Boxed::new(alloc, a)?;
    let b = Boxed::new(alloc, b)?;
    Ok(Expr::Compare(op, a, b))
}

// An equality of two columns of numbers.
fn equal(
    alloc: Global,
    (a, c): (&'static str, &'static str),
    (b, d): (&'static str, &'static str),
) -> Result<Tree, NoMemory> {
    let a = leaf(alloc, a, c, Class::Number)?;
    let b = leaf(alloc, b, d, Class::Number)?;
    compared(alloc, Comparison::Equal, a, b)
}

fn two<T: Drop>(alloc: Global, a: T, b: T) -> Result<List<T>, NoMemory> {
    let mut list = List::new(alloc);
    list.push(a)?;
    list.push(b)?;
    Ok(list)
}

fn one<T: Drop>(alloc: Global, a: T) -> Result<List<T>, NoMemory> {
    let mut list = List::new(alloc);
    list.push(a)?;
    Ok(list)
}

fn column(alloc: Global, value: Tree, as_name: &str) -> Result<SelectColumn, NoMemory> {
    let name = name(alloc, as_name)?;
    Ok(SelectColumn { value, name })
}

fn item(
    alloc: Global,
    table: &str,
    alias: &str,
    on: Option<List<Tree>>,
) -> Result<FromItem, NoMemory> {
    let table = name(alloc, table)?;
    let alias = name(alloc, alias)?;
    Ok(FromItem { table, alias, on })
}

fn names_of_ends(alloc: Global) -> Result<List<SelectColumn>, NoMemory> {
    let x = column(alloc, leaf(alloc, "A0", "NAME", Class::Text)?, "X")?;
    let y = column(alloc, leaf(alloc, "A2", "NAME", Class::Text)?, "Y")?;
    two(alloc, x, y)
}

// One edge between two vertices, with the two ONs.
fn edge(alloc: Global, first: Tree, second: Tree) -> Result<Select, NoMemory> {
    let columns = names_of_ends(alloc)?;
    let person = item(alloc, "PERSON", "A0", None)?;
    let knows = item(alloc, "KNOWS", "A1", Some(one(alloc, first)?))?;
    let mut from = two(alloc, person, knows)?;
    from.push(item(alloc, "PERSON", "A2", Some(one(alloc, second)?))?)?;
    Ok(Select {
        columns,
        from,
        conjuncts: List::new(alloc),
    })
}

fn right_edge(alloc: Global) -> Result<Select, NoMemory> {
    let first = equal(alloc, ("A1", "A"), ("A0", "ID"))?;
    let second = equal(alloc, ("A1", "B"), ("A2", "ID"))?;
    edge(alloc, first, second)
}

fn either_edge(alloc: Global) -> Result<Select, NoMemory> {
    let a = equal(alloc, ("A1", "A"), ("A0", "ID"))?;
    let b = equal(alloc, ("A1", "B"), ("A2", "ID"))?;
    let right = Expr::All(two(alloc, a, b)?);
    let a = equal(alloc, ("A1", "A"), ("A2", "ID"))?;
    let b = equal(alloc, ("A1", "B"), ("A0", "ID"))?;
    let left = Expr::All(two(alloc, a, b)?);
    edge(
        alloc,
        Expr::Lit(Value::Truth(true)),
        Expr::Any(two(alloc, right, left)?),
    )
}

// A path without an edge.
fn no_edge(alloc: Global) -> Result<Select, NoMemory> {
    let x = column(alloc, leaf(alloc, "A0", "NAME", Class::Text)?, "X")?;
    let y = column(alloc, leaf(alloc, "A0", "NAME", Class::Text)?, "Y")?;
    let columns = two(alloc, x, y)?;
    let from = one(alloc, item(alloc, "PERSON", "A0", None)?)?;
    Ok(Select {
        columns,
        from,
        conjuncts: List::new(alloc),
    })
}

fn same_ends(alloc: Global) -> Result<List<Conjunct>, NoMemory> {
    let first = Conjunct::Plain(equal(alloc, ("S0", "ID"), ("A0", "ID"))?);
    let last = Conjunct::Plain(equal(alloc, ("S0", "ID"), ("A2", "ID"))?);
    two(alloc, first, last)
}

// The shorter path between two persons.
fn shorter(alloc: Global) -> Result<Select, NoMemory> {
    let columns = one(alloc, column(alloc, Expr::Lit(Value::Number(1)), "C")?)?;
    let from = one(alloc, item(alloc, "PERSON", "S0", None)?)?;
    let conjuncts = same_ends(alloc)?;
    Ok(Select {
        columns,
        from,
        conjuncts,
    })
}

// No edge, and an edge between two persons that differ.
fn shortest(alloc: Global) -> Result<List<Select>, NoMemory> {
    let inner = Boxed::new(alloc, shorter(alloc)?)?;
    let mut longer = right_edge(alloc)?;
    longer.conjuncts.push(Conjunct::NotExists(inner))?;
    let empty = no_edge(alloc)?;
    two(alloc, empty, longer)
}

// No element has the labels.
fn nothing(alloc: Global) -> Result<Select, NoMemory> {
    let value = column(alloc, Expr::Null(Class::Text), "X")?;
    Ok(Select {
        columns: one(alloc, value)?,
        from: one(alloc, item(alloc, "PERSON", "A0", None)?)?,
        conjuncts: one(alloc, Conjunct::Plain(Expr::Lit(Value::Truth(false))))?,
    })
}

// A delimited name and a key of two columns.
fn weird(alloc: Global) -> Result<Select, NoMemory> {
    let a = column(alloc, leaf(alloc, "A0", "N", Class::Text)?, "A")?;
    let b = column(alloc, leaf(alloc, "A2", "N", Class::Text)?, "B")?;
    let p = equal(alloc, ("A1", "P1"), ("A0", "P"))?;
    let q = equal(alloc, ("A1", "Q1"), ("A0", "Q"))?;
    let link = item(alloc, "LINK", "A1", Some(two(alloc, p, q)?))?;
    let p = equal(alloc, ("A1", "P2"), ("A2", "P"))?;
    let q = equal(alloc, ("A1", "Q2"), ("A2", "Q"))?;
    let mut from = two(alloc, item(alloc, "we\"ird", "A0", None)?, link)?;
    from.push(item(alloc, "we\"ird", "A2", Some(two(alloc, p, q)?))?)?;
    Ok(Select {
        columns: two(alloc, a, b)?,
        from,
        conjuncts: List::new(alloc),
    })
}

fn not(alloc: Global, a: Tree) -> Result<Tree, NoMemory> {
    Ok(Expr::Not(Boxed::new(alloc, a)?))
}

fn is(alloc: Global, a: Tree, test: Test, negated: bool) -> Result<Tree, NoMemory> {
    Ok(Expr::Is(Boxed::new(alloc, a)?, test, negated))
}

// `x NOT IN (..)`
fn listed(alloc: Global) -> Result<Tree, NoMemory> {
    let age = Boxed::new(alloc, leaf(alloc, "A0", "select", Class::Number)?)?;
    let least = Expr::Lit(Value::Number(i64::MIN));
    let members = two(alloc, least, Expr::Null(Class::Number))?;
    Ok(Expr::InList(age, members, true))
}

// `COALESCE (..) IS NOT NULL`
fn known(alloc: Global) -> Result<Tree, NoMemory> {
    let name = leaf(alloc, "A0", "NAME", Class::Text)?;
    let text = Expr::Lit(Value::Text(Text::from_text(alloc, "it's")?));
    let members = two(alloc, name, text)?;
    is(alloc, Expr::Coalesce(members), Test::Null, true)
}

fn condition(alloc: Global) -> Result<Tree, NoMemory> {
    let tested = is(alloc, not(alloc, listed(alloc)?)?, Test::Unknown, false)?;
    let inner = Expr::Any(two(alloc, known(alloc)?, tested)?);
    let both = two(alloc, inner, Expr::Lit(Value::Truth(true)))?;
    not(alloc, Expr::All(both))
}

// Each form, with parentheses where they are needed and where they are not.
fn forms(alloc: Global) -> Result<Select, NoMemory> {
    let columns = one(alloc, column(alloc, condition(alloc)?, "C")?)?;
    let from = one(alloc, item(alloc, "PERSON", "A0", None)?)?;
    Ok(Select {
        columns,
        from,
        conjuncts: List::new(alloc),
    })
}

fn prints(
    rt: &impl Abort,
    alloc: Global,
    selects: List<Select>,
    want: &str,
) -> Result<(), NoMemory> {
    let query = SqlQuery { selects };
    let text = print(alloc, &query)?;
    assert_eq!(rt; text.as_slice(), want.as_bytes(), "at {want}");
    Ok(())
}

// The texts of worked examples.
#[test]
fn prints_edges(rt: HostRuntime) -> Result<(), Fail> {
    let alloc = rt.alloc();
    prints(
        &rt,
        alloc,
        one(alloc, right_edge(alloc)?)?,
        "SELECT A0.NAME AS X, A2.NAME AS Y FROM PERSON AS A0 JOIN KNOWS AS A1 ON A1.A = A0.ID JOIN PERSON AS A2 ON A1.B = A2.ID\n",
    )?;
    prints(
        &rt,
        alloc,
        one(alloc, either_edge(alloc)?)?,
        "SELECT A0.NAME AS X, A2.NAME AS Y FROM PERSON AS A0 JOIN KNOWS AS A1 ON TRUE JOIN PERSON AS A2 ON (A1.A = A0.ID AND A1.B = A2.ID OR A1.A = A2.ID AND A1.B = A0.ID)\n",
    )?;
    Ok(())
}

#[test]
fn prints_not_exists(rt: HostRuntime) -> Result<(), Fail> {
    let alloc = rt.alloc();
    prints(
        &rt,
        alloc,
        shortest(alloc)?,
        "SELECT A0.NAME AS X, A0.NAME AS Y FROM PERSON AS A0\nUNION ALL\nSELECT A0.NAME AS X, A2.NAME AS Y FROM PERSON AS A0 JOIN KNOWS AS A1 ON A1.A = A0.ID JOIN PERSON AS A2 ON A1.B = A2.ID WHERE NOT EXISTS (SELECT 1 AS C FROM PERSON AS S0 WHERE S0.ID = A0.ID AND S0.ID = A2.ID)\n",
    )?;
    Ok(())
}

#[test]
fn prints_names_and_nulls(rt: HostRuntime) -> Result<(), Fail> {
    let alloc = rt.alloc();
    prints(
        &rt,
        alloc,
        one(alloc, nothing(alloc)?)?,
        "SELECT CAST(NULL AS VARCHAR(4000)) AS X FROM PERSON AS A0 WHERE FALSE\n",
    )?;
    prints(
        &rt,
        alloc,
        one(alloc, weird(alloc)?)?,
        "SELECT A0.N AS A, A2.N AS B FROM \"we\"\"ird\" AS A0 JOIN LINK AS A1 ON A1.P1 = A0.P AND A1.Q1 = A0.Q JOIN \"we\"\"ird\" AS A2 ON A1.P2 = A2.P AND A1.Q2 = A2.Q\n",
    )?;
    Ok(())
}

#[test]
fn prints_forms(rt: HostRuntime) -> Result<(), Fail> {
    let alloc = rt.alloc();
    prints(
        &rt,
        alloc,
        one(alloc, forms(alloc)?)?,
        "SELECT NOT ((COALESCE(A0.NAME, 'it''s') IS NOT NULL OR (NOT A0.\"select\" NOT IN (-9223372036854775808, CAST(NULL AS BIGINT))) IS UNKNOWN) AND TRUE) AS C FROM PERSON AS A0\n",
    )?;
    Ok(())
}

fn prints_value(rt: &impl Abort, alloc: Global, value: Value, want: &str) -> Result<(), NoMemory> {
    let text = print_literal(alloc, &value)?;
    assert_eq!(rt; text.as_slice(), want.as_bytes(), "at {want}");
    Ok(())
}

#[test]
fn prints_values(rt: HostRuntime) -> Result<(), Fail> {
    let alloc = rt.alloc();
    let below = Decimal {
        unscaled: -5,
        scale: 2,
    };
    let above = Decimal {
        unscaled: 125,
        scale: 1,
    };
    prints_value(&rt, alloc, Value::Decimal(below), "-0.05")?;
    prints_value(&rt, alloc, Value::Decimal(above), "12.5")?;
    prints_value(&rt, alloc, Value::Number(-7), "-7")?;
    prints_value(
        &rt,
        alloc,
        Value::Date(Date { day: 19782 }),
        "DATE '2024-02-29'",
    )?;
    Ok(())
}

#[test]
fn prints_plain_names(rt: HostRuntime) -> Result<(), Fail> {
    let alloc = rt.alloc();
    for (content, want) in [
        ("A_1", "A_1"),
        ("SELECT", "\"SELECT\""),
        ("a b", "\"a b\""),
        ("we\"ird", "\"we\"\"ird\""),
    ] {
        let text = print_name(alloc, &name(alloc, content)?)?;
        assert_eq!(rt; text.as_slice(), want.as_bytes(), "at {want}");
    }
    Ok(())
}

// Whether the tokens are one delimited name of these bytes.
fn is_delimited(tokens: &[Token], content: &[u8]) -> bool {
    match tokens {
        [token] => match &token.kind {
            Kind::Delimited(name) => name.as_bytes() == content,
            _ => false,
        },
        _ => false,
    }
}

// The tokens of a short text.
fn lexed(alloc: Global, text: &[u8]) -> Result<List<Token>, Stop> {
    if text.len() > 1000 {
        return Err(Stop::NoMemory);
    }
    lex(alloc, text, Role::Sql)
}

fn reads_back(rt: &impl Abort, alloc: Global, word: &[u8]) -> Result<(), Fail> {
    let text = print_name(alloc, &name(alloc, str::from_utf8(word)?)?)?;
    let tokens = lexed(alloc, text.as_slice())?;
    assert!(rt; is_delimited(tokens.as_slice(), word));
    Ok(())
}

// A name that is a reserved word is printed between quotes, and its text is read as that name.
#[test]
fn prints_reserved_words(rt: HostRuntime) -> Result<(), Fail> {
    let alloc = rt.alloc();
    let words = reserved_words();
    for place in 0..44 {
        reads_back(&rt, alloc, words.word(place))?;
    }
    Ok(())
}
