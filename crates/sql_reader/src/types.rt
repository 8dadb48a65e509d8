ghost use Rattle.std.specs.Prelude.{◌≡◌, ◌∷◌, [], map, drop, option_copied};
ghost use Rattle.first_faults.specs.Faults.{first_of};
ghost use Rattle.condition_grammar.specs.Spans.{first_span, without_first};
ghost use Rattle.expr_tree.specs.Classes.{first_class, literal_class, same_class, class_in};
ghost use Rattle.pgq_base.specs.declared.value.Class.TheVariants.{Truth};
ghost use Rattle.sql_reader.specs.Levels.{reach_of};
ghost use Rattle.sql_reader.specs.Types.{class_of_column, class_in_table, leaf_class, typed, mismatch, truth_asked, class_asked, test_asked, operand_faults, operands_faults, differing, total, value_types, condition_types, class_of_value};

use crate::reach::{Scope, item_in};
use crate::tables::NamedTable;
use condition_grammar::Spanned;
use expr_tree::{Expr, Test};
use first_faults::{Fault, note};
use graph_ast::Column;
use pgq_base::{Class, Code, Span, Value};
use sql_algebra::ColumnRef;

/// What an operand is asked for: its class, and the code of one of another class.
#[derive(Clone, Copy, Debug)]
pub(crate) struct Demand {
    pub class: Class,
    pub code: Code,
}

// An expression that was judged: its class, the spans behind its own, and the first fault so far.
#[derive(Clone, Copy)]
struct Judged<'a> {
    class: Class,
    rest: &'a [Span],
    found: Option<Fault>,
}

fn class_of_column(column: Option<&Column>) -> Class
    ensures { result ≡ class_of_column (option_copied column.entry) }
{
    match column {
        None => Class::Number,
        Some(column) => column.kind.class(),
    }
}

fn class_in_table(leaf: &ColumnRef, table: Option<&NamedTable<'_>>) -> Class
    ensures { result ≡ class_in_table leaf.now (option_copied table.entry) }
{
    match table {
        None => Class::Number,
        Some(table) => class_of_column(table.column(&leaf.column.name)),
    }
}

/// The class of a leaf's column.
pub(crate) fn leaf_class(scope: &Scope<'_, '_, '_>, leaf: &ColumnRef) -> Class
    ensures { result ≡ leaf_class (reach_of scope.now) leaf.now }
{
    match item_in(scope, &leaf.alias.name) {
        None => Class::Number,
        Some(item) => class_in_table(leaf, item.table),
    }
}

fn literal_class(value: &Value) -> Class
    ensures { result ≡ literal_class value.now }
{
    match value {
        Value::Null => Class::Truth,
        Value::Truth(_) => Class::Truth,
        Value::Number(_) => Class::Number,
        Value::Decimal(_) => Class::Number,
        Value::Text(_) => Class::Text,
        Value::Date(_) => Class::Date,
    }
}

pub(crate) fn same_class(a: Class, b: Class) -> bool
    ensures { result ≡ same_class a b }
{
    a == b
}

fn truth_asked() -> Option<Demand>
    ensures { result ≡ truth_asked }
{
    Some(Demand {
        class: Class::Truth,
        code: Code::NotTruth,
    })
}

fn class_asked(class: Class) -> Option<Demand>
    ensures { result ≡ class_asked class }
{
    Some(Demand {
        class,
        code: Code::ClassesDiffer,
    })
}

fn test_asked(test: Test) -> Option<Demand>
    ensures { result ≡ test_asked test }
{
    match test {
        Test::Null => None,
        Test::True => truth_asked(),
        Test::False => truth_asked(),
        Test::Unknown => truth_asked(),
    }
}

/// The first of these spans, which is that of a condition's root.
pub(crate) fn first_span(spans: &[Span]) -> Span
    ensures { result ≡ first_span spans.now }
{
    match spans {
        [] => Span { from: 0, to: 0 },
        [span, ..] => *span,
    }
}

fn without_first(spans: &[Span]) -> &[Span]
    ensures { result.now ≡ without_first spans.entry.now }
{
    match spans {
        [] => spans,
        [_, rest @ ..] => rest,
    }
}

// The fault of an operand of another class than it is to have.
fn mismatch(found: Option<Fault>, demand: Option<Demand>, class: Class, span: Span) -> Option<Fault>
    ensures { result ≡ first_of found (mismatch demand class span) }
{
    match demand {
        None => found,
        Some(demand) => note(found, !same_class(demand.class, class), demand.code, span),
    }
}

// The same, where the class is Truth.
fn truth_of(judged: Judged<'_>) -> Judged<'_>
    ensures class { result.class ≡ Truth }
    ensures rest { result.rest.now ≡ judged.entry.rest.now }
    ensures found { result.found ≡ judged.entry.found }
{
    Judged {
        class: Class::Truth,
        rest: judged.rest,
        found: judged.found,
    }
}

// The operand, where its class is asked for.
#[cycle(types)]
fn operand<'a>(
    tree: &Expr<ColumnRef>,
    demand: Option<Demand>,
    scope: &Scope<'_, '_, '_>,
    spans: &'a [Span],
    found: Option<Fault>,
) -> Judged<'a>
    ensures class { result.class ≡ class_in (leaf_class (reach_of scope.now)) tree.now }
    ensures rest { result.rest.now ≡ drop (typed (leaf_class (reach_of scope.now)) tree.now).nodes spans.entry.now }
    ensures found { result.found ≡ first_of found (operand_faults demand (typed (leaf_class (reach_of scope.now)) tree.now) spans.entry.now) }
{
    let judged = typed(tree, scope, spans, found);
    let found = mismatch(judged.found, demand, judged.class, first_span(spans));
    Judged {
        class: judged.class,
        rest: judged.rest,
        found,
    }
}

// The operands of a list, of each of which the same is asked. The class is that of what they stand in.
#[cycle(types)]
fn operands<'a>(
    list: &[Expr<ColumnRef>],
    demand: Option<Demand>,
    scope: &Scope<'_, '_, '_>,
    spans: &'a [Span],
    found: Option<Fault>,
) -> Judged<'a>
    ensures class { result.class ≡ Truth }
    ensures rest { result.rest.now ≡ drop (total (map (typed (leaf_class (reach_of scope.now))) list.now)) spans.entry.now }
    ensures found { result.found ≡ first_of found (operands_faults demand (map (typed (leaf_class (reach_of scope.now))) list.now) spans.entry.now) }
{
    let mut rest = spans;
    let mut found = found;
    for tree in list {
        let judged = operand(tree, demand, scope, rest, found);
        rest = judged.rest;
        found = judged.found;
    }
    Judged {
        class: Class::Truth,
        rest,
        found,
    }
}

// The members of COALESCE, which has the first one's class.
#[cycle(types)]
fn members<'a>(
    list: &[Expr<ColumnRef>],
    scope: &Scope<'_, '_, '_>,
    spans: &'a [Span],
    found: Option<Fault>,
) -> Judged<'a>
    ensures class { result.class ≡ first_class (map (class_in (leaf_class (reach_of scope.now))) list.now) }
    ensures rest { result.rest.now ≡ drop (total (map (typed (leaf_class (reach_of scope.now))) list.now)) spans.entry.now }
    ensures found { result.found ≡ first_of found (differing (map (typed (leaf_class (reach_of scope.now))) list.now) spans.entry.now) }
{
    match list.split_first() {
        None => Judged {
            class: Class::Truth,
            rest: spans,
            found,
        },
        Some((first, others)) => {
            let first = operand(first, None, scope, spans, found);
            let asked = class_asked(first.class);
            let mut rest = first.rest;
            let mut found = first.found;
            for tree in others {
                let judged = operand(tree, asked, scope, rest, found);
                rest = judged.rest;
                found = judged.found;
            }
            Judged {
                class: first.class,
                rest,
                found,
            }
        }
    }
}

// The class of an expression with the faults of its nodes, the first of these spans being its own.
#[cycle(types)]
fn typed<'a>(
    tree: &Expr<ColumnRef>,
    scope: &Scope<'_, '_, '_>,
    spans: &'a [Span],
    found: Option<Fault>,
) -> Judged<'a>
    ensures class { result.class ≡ class_in (leaf_class (reach_of scope.now)) tree.now }
    ensures rest { result.rest.now ≡ drop (typed (leaf_class (reach_of scope.now)) tree.now).nodes spans.entry.now }
    ensures found { result.found ≡ first_of found ((typed (leaf_class (reach_of scope.now)) tree.now).faults spans.entry.now) }
{
    let rest = without_first(spans);
    match tree {
        Expr::Lit(value) => Judged {
            class: literal_class(value),
            rest,
            found,
        },
        Expr::Null(class) => Judged {
            class: *class,
            rest,
            found,
        },
        Expr::Leaf(leaf) => Judged {
            class: leaf_class(scope, leaf),
            rest,
            found,
        },
        Expr::Compare(_, a, b) => {
            let first = operand(a.get(), None, scope, rest, found);
            let asked = class_asked(first.class);
            truth_of(operand(b.get(), asked, scope, first.rest, first.found))
        }
        Expr::All(list) => operands(list.as_slice(), truth_asked(), scope, rest, found),
        Expr::Any(list) => operands(list.as_slice(), truth_asked(), scope, rest, found),
        Expr::Not(a) => truth_of(operand(a.get(), truth_asked(), scope, rest, found)),
        Expr::Is(a, test, _) => {
            truth_of(operand(a.get(), test_asked(*test), scope, rest, found))
        }
        Expr::InList(a, list, _) => {
            let first = operand(a.get(), None, scope, rest, found);
            let asked = class_asked(first.class);
            operands(list.as_slice(), asked, scope, first.rest, first.found)
        }
        Expr::Between(a, b, c, _) => {
            let first = operand(a.get(), None, scope, rest, found);
            let asked = class_asked(first.class);
            let second = operand(b.get(), asked, scope, first.rest, first.found);
            truth_of(operand(c.get(), asked, scope, second.rest, second.found))
        }
        Expr::Coalesce(list) => members(list.as_slice(), scope, rest, found),
    }
}

/// The faults of types in an expression.
pub(crate) fn value_types(
    found: Option<Fault>,
    scope: &Scope<'_, '_, '_>,
    value: &Spanned<ColumnRef>,
) -> Option<Fault>
    ensures { result ≡ first_of found (value_types (reach_of scope.now) value.now) }
{
    operand(&value.tree, None, scope, value.spans.as_slice(), found).found
}

/// The faults of types in a condition, which is of class Truth.
pub(crate) fn condition_types(
    found: Option<Fault>,
    scope: &Scope<'_, '_, '_>,
    value: &Spanned<ColumnRef>,
) -> Option<Fault>
    ensures { result ≡ first_of found (condition_types (reach_of scope.now) value.now) }
{
    let spans = value.spans.as_slice();
    operand(&value.tree, truth_asked(), scope, spans, found).found
}

/// The class of an expression.
pub(crate) fn class_of(scope: &Scope<'_, '_, '_>, tree: &Expr<ColumnRef>) -> Class
    ensures { result ≡ class_in (leaf_class (reach_of scope.now)) tree.now }
{
    match tree {
        Expr::Lit(value) => literal_class(value),
        Expr::Null(class) => *class,
        Expr::Leaf(leaf) => leaf_class(scope, leaf),
        Expr::Coalesce(list) => match list.as_slice() {
            [] => Class::Truth,
            [first, ..] => class_of(scope, first),
        },
        _ => Class::Truth,
    }
}
