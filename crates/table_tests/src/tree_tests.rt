ghost use Rattle.std.specs.Prelude.{◌≡◌, ◌+◌, IfOk, Some, None};
ghost use Rattle.pgq_base.specs.declared.value.Class.TheVariants.{Number, Text as TextClass, Truth, Date as DateClass};
ghost use Rattle.pgq_base.specs.declared.value.Value.TheVariants as value;
ghost use Rattle.expr_tree.specs.Nodes.{count_of_nodes};

use expr_tree::{
    Comparison, Env, Expr, Leaf, Test, class_of, is_well_classed, map_leaves, nodes, same_expr,
    truth_of, value_of,
};
use pgq_base::{Class, List, NoMemory, Text, Truth3, Value, ValueRef};
use sqlite_items::Boxed;
use std::alloc::{AllocError, Global};
use std::process::Abort;
use std::test::Fail;

// A column of a class. A row has one number and one truth value, and no text.
#[derive(Clone, Copy, Debug, PartialEq, Eq)]
struct Column {
    class: Class,
}

#[derive(Clone, Copy, Debug)]
struct Row {
    number: Option<i64>,
    truth: Option<bool>,
}

impl Leaf for Column {
    ghost class_is = { λ l. l.class };

    fn class(&self) -> Class {
        self.class
    }

    fn same(&self, other: &Column) -> bool {
        *self == *other
    }
}

impl Env<Column> for Row {
    ghost value_at = { λ row l. elim (l.class) [ Number ↦ elim (row.number) [ Some n ↦ value.Number n | None ↦ value.Null ] | TextClass ↦ value.Null | DateClass ↦ value.Null | Truth ↦ elim (row.truth) [ Some b ↦ value.Truth b | None ↦ value.Null ] ] };

    fn get(&self, leaf: &Column) -> ValueRef<'_> {
        match leaf.class {
            Class::Number => match self.number {
                Some(number) => ValueRef::Number(number),
                None => ValueRef::Null,
            },
            Class::Text | Class::Date => ValueRef::Null,
            Class::Truth => match self.truth {
                Some(truth) => ValueRef::Truth(truth),
                None => ValueRef::Null,
            },
        }
    }
}

type Tree = Expr<Column>;

const EMPTY: Row = Row {
    number: None,
    truth: None,
};

fn truth(truth: Truth3) -> Tree {
    match truth {
        Truth3::False => Expr::Lit(Value::Truth(false)),
        Truth3::Unknown => Expr::Null(Class::Truth),
        Truth3::True => Expr::Lit(Value::Truth(true)),
    }
}

// The number, or a Null of its class.
fn number(number: Option<i64>) -> Tree {
    match number {
        Some(number) => Expr::Lit(Value::Number(number)),
        None => Expr::Null(Class::Number),
    }
}

fn text(alloc: Global, text: &str) -> Result<Tree, NoMemory> {
    Ok(Expr::Lit(Value::Text(Text::from_text(alloc, text)?)))
}

fn two(alloc: Global, first: Tree, second: Tree) -> Result<List<Tree>, NoMemory> {
    let mut list = List::new(alloc);
    list.push(first)?;
    list.push(second)?;
    Ok(list)
}

fn compared(alloc: Global, op: Comparison, a: Tree, b: Tree) -> Result<Tree, NoMemory> {
    Ok(Expr::Compare(op, Boxed::new(alloc, a)?, Boxed::new(alloc, b)?))
}

fn truth_at(rt: &impl Abort, expr: &Tree, row: &Row) -> Truth3 {
    assert!(rt; is_well_classed(expr));
    assert!(rt; class_of(expr) == Class::Truth);
    truth_of(expr, row)
}

const F: Truth3 = Truth3::False;

const U: Truth3 = Truth3::Unknown;

const T: Truth3 = Truth3::True;

// Two operands, their AND and their OR.
static JUNCTIONS: [(Truth3, Truth3, Truth3, Truth3); 9] = [
    (F, F, F, F),
    (F, U, F, U),
    (F, T, F, T),
    (U, F, F, U),
    (U, U, U, U),
    (U, T, U, T),
    (T, F, F, T),
    (T, U, U, T),
    (T, T, T, T),
];

fn junction(
    rt: &impl Abort,
    alloc: Global,
    case: (Truth3, Truth3, Truth3, Truth3),
) -> Result<(), NoMemory> {
    let (a, b, both, either) = case;
    let all = Expr::All(two(alloc, truth(a), truth(b))?);
    assert!(rt; truth_at(rt, &all, &EMPTY) == both);
    let any = Expr::Any(two(alloc, truth(a), truth(b))?);
    assert!(rt; truth_at(rt, &any, &EMPTY) == either);
    Ok(())
}

fn negation(rt: &impl Abort, alloc: Global, a: Truth3, want: Truth3) -> Result<(), NoMemory> {
    let not = Expr::Not(Boxed::new(alloc, truth(a))?);
    assert!(rt; truth_at(rt, &not, &EMPTY) == want);
    Ok(())
}

// NOT, AND and OR by Kleene's tables.
#[test]
fn logic(rt: HostRuntime) -> Result<(), Fail> {
    let alloc = rt.alloc();
    negation(&rt, alloc, F, T)?;
    negation(&rt, alloc, U, U)?;
    negation(&rt, alloc, T, F)?;
    for case in &JUNCTIONS {
        junction(&rt, alloc, *case)?;
    }
    Ok(())
}

const LEAST: i64 = -9_223_372_036_854_775_808;

const GREATEST: i64 = 9_223_372_036_854_775_807;

type Comparing = (Comparison, Option<i64>, Option<i64>, Truth3);

static NUMBERS: [Comparing; 18] = [
    (Comparison::Equal, Some(1), Some(1), T),
    (Comparison::Equal, Some(1), Some(2), F),
    (Comparison::Equal, Some(1), None, U),
    (Comparison::Equal, None, Some(1), U),
    (Comparison::Equal, None, None, U),
    (Comparison::NotEqual, Some(1), Some(2), T),
    (Comparison::NotEqual, Some(1), Some(1), F),
    (Comparison::NotEqual, None, None, U),
    (Comparison::Less, Some(LEAST), Some(GREATEST), T),
    (Comparison::Less, Some(GREATEST), Some(LEAST), F),
    (Comparison::Less, Some(3), Some(3), F),
    (Comparison::LessOrEqual, Some(3), Some(3), T),
    (Comparison::LessOrEqual, Some(4), Some(3), F),
    (Comparison::Greater, Some(GREATEST), Some(LEAST), T),
    (Comparison::Greater, Some(3), Some(3), F),
    (Comparison::GreaterOrEqual, Some(3), Some(3), T),
    (Comparison::GreaterOrEqual, Some(LEAST), Some(-1), F),
    (Comparison::GreaterOrEqual, Some(3), None, U),
];

fn numbers(rt: &impl Abort, alloc: Global, case: Comparing) -> Result<(), NoMemory> {
    let (op, a, b, want) = case;
    let expr = compared(alloc, op, number(a), number(b))?;
    assert!(rt; truth_at(rt, &expr, &EMPTY) == want);
    Ok(())
}

// The first text is less than the second: Z is 5A, a is 61, z is 7A, é is C3 A9, and a prefix comes first.
static TEXTS: [(&str, &str); 5] = [("Z", "a"), ("a", "ab"), ("z", "é"), ("", "a"), ("a", "a ")];

fn texts(rt: &impl Abort, alloc: Global, a: &str, b: &str) -> Result<(), NoMemory> {
    let less = compared(alloc, Comparison::Less, text(alloc, a)?, text(alloc, b)?)?;
    assert!(rt; truth_at(rt, &less, &EMPTY) == T);
    let more = compared(
        alloc,
        Comparison::GreaterOrEqual,
        text(alloc, a)?,
        text(alloc, b)?,
    )?;
    assert!(rt; truth_at(rt, &more, &EMPTY) == F);
    Ok(())
}

// The truth of the first operand's being less than the second.
static TRUTHS: [(Truth3, Truth3, Truth3); 5] = [
    (F, T, T),
    (T, F, F),
    (F, F, F),
    (U, T, U),
    (F, U, U),
];

fn truths(
    rt: &impl Abort,
    alloc: Global,
    a: Truth3,
    b: Truth3,
    want: Truth3,
) -> Result<(), NoMemory> {
    let expr = compared(alloc, Comparison::Less, truth(a), truth(b))?;
    assert!(rt; truth_at(rt, &expr, &EMPTY) == want);
    Ok(())
}

// Comparisons: Null on either side, the least and the greatest number, text by bytes, False below True.
#[test]
fn comparisons(rt: HostRuntime) -> Result<(), Fail> {
    let alloc = rt.alloc();
    for case in &NUMBERS {
        numbers(&rt, alloc, *case)?;
    }
    for (a, b) in &TEXTS {
        texts(&rt, alloc, a, b)?;
    }
    for (a, b, want) in &TRUTHS {
        truths(&rt, alloc, *a, *b, *want)?;
    }
    Ok(())
}

// An operand, a test, and the test's truth.
static TESTS: [(Truth3, Test, Truth3); 12] = [
    (F, Test::Null, F),
    (U, Test::Null, T),
    (T, Test::Null, F),
    (F, Test::True, F),
    (U, Test::True, F),
    (T, Test::True, T),
    (F, Test::False, T),
    (U, Test::False, F),
    (T, Test::False, F),
    (F, Test::Unknown, F),
    (U, Test::Unknown, T),
    (T, Test::Unknown, F),
];

fn tested(
    rt: &impl Abort,
    alloc: Global,
    a: Truth3,
    test: Test,
    want: Truth3,
) -> Result<(), NoMemory> {
    let is = Expr::Is(Boxed::new(alloc, truth(a))?, test, false);
    assert!(rt; truth_at(rt, &is, &EMPTY) == want);
    let is_not = Expr::Is(Boxed::new(alloc, truth(a))?, test, true);
    assert!(rt; truth_at(rt, &is_not, &EMPTY) == want.not());
    Ok(())
}

// An operand, two members or bounds, and the truth of IN or of BETWEEN.
type Range = (Option<i64>, Option<i64>, Option<i64>, Truth3);

static LISTS: [Range; 10] = [
    (Some(1), Some(1), Some(2), T),
    (Some(2), Some(1), Some(2), T),
    (Some(3), Some(1), Some(2), F),
    (Some(1), None, Some(1), T),
    (Some(1), Some(1), None, T),
    (Some(2), Some(1), None, U),
    (Some(2), None, Some(1), U),
    (Some(2), None, None, U),
    (None, Some(1), Some(2), U),
    (None, None, None, U),
];

fn listed(rt: &impl Abort, alloc: Global, case: Range, negated: bool) -> Result<(), NoMemory> {
    let (a, b, c, want) = case;
    let list = two(alloc, number(b), number(c))?;
    let expr = Expr::InList(Boxed::new(alloc, number(a))?, list, negated);
    let want = if negated { want.not() } else { want };
    assert!(rt; truth_at(rt, &expr, &EMPTY) == want);
    Ok(())
}

static RANGES: [Range; 12] = [
    (Some(2), Some(1), Some(3), T),
    (Some(1), Some(1), Some(3), T),
    (Some(3), Some(1), Some(3), T),
    (Some(0), Some(1), Some(3), F),
    (Some(4), Some(1), Some(3), F),
    (Some(2), Some(3), Some(1), F),
    (Some(2), Some(1), None, U),
    (Some(2), Some(3), None, F),
    (Some(2), None, Some(3), U),
    (Some(2), None, Some(1), F),
    (None, Some(1), Some(3), U),
    (Some(2), None, None, U),
];

fn ranged(rt: &impl Abort, alloc: Global, case: Range, negated: bool) -> Result<(), NoMemory> {
    let (a, b, c, want) = case;
    let low = Boxed::new(alloc, number(b))?;
    let high = Boxed::new(alloc, number(c))?;
    let expr = Expr::Between(Boxed::new(alloc, number(a))?, low, high, negated);
    let want = if negated { want.not() } else { want };
    assert!(rt; truth_at(rt, &expr, &EMPTY) == want);
    Ok(())
}

// Two members, and the first that is not Null.
static FIRSTS: [(Option<i64>, Option<i64>, Option<i64>); 4] = [
    (Some(1), Some(2), Some(1)),
    (None, Some(2), Some(2)),
    (Some(1), None, Some(1)),
    (None, None, None),
];

fn first(
    rt: &impl Abort,
    alloc: Global,
    a: Option<i64>,
    b: Option<i64>,
    want: Option<i64>,
) -> Result<(), NoMemory> {
    let expr = Expr::Coalesce(two(alloc, number(a), number(b))?);
    assert!(rt; is_well_classed(&expr));
    let found = match value_of(&expr, &EMPTY) {
        ValueRef::Number(number) => Some(number),
        _ => None,
    };
    assert!(rt; found == want);
    Ok(())
}

// IS, IN and BETWEEN, each negated too, and COALESCE, with Null in each place.
#[test]
fn predicates(rt: HostRuntime) -> Result<(), Fail> {
    let alloc = rt.alloc();
    for (a, test, want) in &TESTS {
        tested(&rt, alloc, *a, *test, *want)?;
    }
    for case in &LISTS {
        listed(&rt, alloc, *case, false)?;
        listed(&rt, alloc, *case, true)?;
    }
    for case in &RANGES {
        ranged(&rt, alloc, *case, false)?;
        ranged(&rt, alloc, *case, true)?;
    }
    for (a, b, want) in &FIRSTS {
        first(&rt, alloc, *a, *b, *want)?;
    }
    Ok(())
}

fn one(alloc: Global) -> Result<Boxed<Tree>, NoMemory> {
    Ok(Boxed::new(alloc, number(Some(1)))?)
}

fn leaf_of(class: Class) -> Tree {
    Expr::Leaf(Column { class })
}

// The expression has the class, and is well classed where `kept` says so.
fn judged(rt: &impl Abort, expr: Tree, class: Class, kept: bool) {
    assert!(rt; class_of(&expr) == class);
    assert!(rt; is_well_classed(&expr) == kept);
}

fn well_classed(rt: &impl Abort, alloc: Global) -> Result<(), NoMemory> {
    judged(rt, leaf_of(Class::Text), Class::Text, true);
    judged(rt, number(None), Class::Number, true);
    judged(rt, truth(F), Class::Truth, true);
    let members = two(alloc, leaf_of(Class::Text), text(alloc, "a")?)?;
    judged(rt, Expr::Coalesce(members), Class::Text, true);
    let test = Expr::Is(Boxed::new(alloc, leaf_of(Class::Text))?, Test::Null, true);
    judged(rt, test, Class::Truth, true);
    Ok(())
}

fn broken_lists(rt: &impl Abort, alloc: Global) -> Result<(), NoMemory> {
    judged(rt, Expr::Lit(Value::Null), Class::Truth, false);
    judged(rt, Expr::Coalesce(List::new(alloc)), Class::Truth, false);
    let members = two(alloc, number(None), truth(T))?;
    judged(rt, Expr::Coalesce(members), Class::Number, false);
    let members = two(alloc, truth(T), number(None))?;
    judged(rt, Expr::All(members), Class::Truth, false);
    let members = two(alloc, number(None), truth(T))?;
    judged(rt, Expr::Any(members), Class::Truth, false);
    Ok(())
}

fn broken_operands(rt: &impl Abort, alloc: Global) -> Result<(), NoMemory> {
    let equal = compared(alloc, Comparison::Equal, number(None), truth(T))?;
    judged(rt, equal, Class::Truth, false);
    judged(rt, Expr::Not(one(alloc)?), Class::Truth, false);
    judged(
        rt,
        Expr::Is(one(alloc)?, Test::Unknown, false),
        Class::Truth,
        false,
    );
    let not_in = Expr::InList(one(alloc)?, List::new(alloc), true);
    judged(rt, not_in, Class::Truth, false);
    Ok(())
}

// Classes, and the rules on them.
#[test]
fn classes(rt: HostRuntime) -> Result<(), Fail> {
    let alloc = rt.alloc();
    well_classed(&rt, alloc)?;
    broken_lists(&rt, alloc)?;
    broken_operands(&rt, alloc)?;
    Ok(())
}

// NOT, and AND with a literal, around the expression.
fn deeper(alloc: Global, expr: Tree) -> Result<Tree, NoMemory>
    ensures { IfOk result (λ e. count_of_nodes e ≡ count_of_nodes expr + 3) }
{
    let not = Expr::Not(Boxed::new(alloc, expr)?);
    let mut list = List::new(alloc);
    list.push(not)?;
    list.push(Expr::Lit(Value::Truth(true)))?;
    Ok(Expr::All(list))
}

// A tree of 200 levels of AND and NOT over one column.
fn tall(alloc: Global) -> Result<Tree, NoMemory>
    ensures { IfOk result (λ e. count_of_nodes e ≡ 301) }
{
    let class = Class::Truth;
    let mut expr = Expr::Leaf(Column { class });
    let mut round = 0u32;
    while round < 100 {
        expr = deeper(alloc, expr)?;
        round += 1;
    }
    Ok(expr)
}

fn operand(replaced: bool) -> Tree {
    if replaced {
        Expr::Null(Class::Number)
    } else {
        leaf_of(Class::Number)
    }
}

// Every form over one column, or over a Null of its class in the column's place.
fn every_form(alloc: Global, replaced: bool) -> Result<Tree, NoMemory> {
    let less = compared(alloc, Comparison::Less, operand(replaced), number(Some(1)))?;
    let is = Expr::Is(Boxed::new(alloc, operand(replaced))?, Test::Null, true);
    let list = two(alloc, operand(replaced), number(Some(2)))?;
    let is_in = Expr::InList(Boxed::new(alloc, operand(replaced))?, list, false);
    let low = Boxed::new(alloc, operand(replaced))?;
    let high = Boxed::new(alloc, operand(replaced))?;
    let between = Expr::Between(Boxed::new(alloc, operand(replaced))?, low, high, true);
    let first = Expr::Coalesce(two(alloc, operand(replaced), operand(replaced))?);
    let equal = compared(alloc, Comparison::Equal, first, operand(replaced))?;
    let any = Expr::Any(two(alloc, less, is)?);
    let not = Expr::Not(Boxed::new(alloc, is_in)?);
    let all = Expr::All(two(alloc, between, equal)?);
    let rest = Expr::All(two(alloc, not, all)?);
    Ok(Expr::All(two(alloc, any, rest)?))
}

// The expression with a Null of its class in place of each leaf.
fn with_nulls(alloc: Global, expr: &Tree) -> Result<Tree, NoMemory> {
    map_leaves(
        alloc,
        expr,
        |leaf: &Column| Ok::<Tree, NoMemory>(Expr::Null(leaf.class)),
    )
}

// Whether the closure's `NoMemory` is handed on.
fn is_handed_on(alloc: Global, expr: &Tree) -> bool {
    map_leaves(
        alloc,
        expr,
        |_leaf: &Column| Err::<Tree, NoMemory>(NoMemory),
    )
    .is_err()
}

fn written(alloc: Global, expr: &Tree) -> Result<String, AllocError> {
    format!(in alloc; "{expr:?}")
}

// The map of every form is the same form over Nulls.
fn is_mapped(alloc: Global, expr: &Tree, want: &Tree) -> Result<bool, NoMemory> {
    let mapped = with_nulls(alloc, expr)?;
    let mapped = written(alloc, &mapped)?;
    let want = written(alloc, want)?;
    Ok(mapped.as_str() == want.as_str())
}

// A map of every form; a closure that answers `NoMemory`; equal and other expressions.
#[test]
fn maps(rt: HostRuntime) -> Result<(), Fail> {
    let alloc = rt.alloc();
    let expr = every_form(alloc, false)?;
    let want = every_form(alloc, true)?;
    assert!(rt; is_mapped(alloc, &expr, &want)?);
    assert!(rt; is_handed_on(alloc, &expr));
    assert!(rt; same_expr(&expr, &every_form(alloc, false)?));
    assert!(rt; !same_expr(&expr, &want));
    Ok(())
}

// A tree of 200 levels: its nodes, its truth and its map.
#[test]
fn depth(rt: HostRuntime) -> Result<(), Fail> {
    let alloc = rt.alloc();
    let expr = tall(alloc)?;
    // Of each of the 100 rounds the AND, the NOT and the literal; and the leaf.
    assert!(rt; nodes(&expr) == 301);
    let row = Row {
        number: None,
        truth: Some(false),
    };
    assert!(rt; truth_at(&rt, &expr, &row) == F);
    assert!(rt; truth_at(&rt, &expr, &EMPTY) == U);
    let nulls = with_nulls(alloc, &expr)?;
    assert!(rt; truth_at(&rt, &nulls, &row) == U);
    Ok(())
}
