ghost use Rattle.std.specs.Prelude.{◌≡◌, drop, map, option_to_list};
ghost use Rattle.expr_tree.specs.Classes.{same_class, literal_class};
ghost use Rattle.first_faults.specs.Faults.{first_of};
ghost use Rattle.pattern_check.specs.TypeRules.{own_span, not_truth, typed, leaf_class};
ghost use Rattle.pattern_check.specs.Typing.{misfit, next, asked_for, class_asked, told, judge, seen, begun, joined, with_operand, with_operands, finished};

use crate::classes::leaf_class;
use expr_tree::{Expr, Test};
use first_faults::{Fault, note};
use graph_ast::{Catalog, Graph, PropertyRef};
use pgq_base::{Class, Code, Span, Value};

/// What is asked of the operands of a node.
#[derive(Clone, Copy, Debug)]
pub enum Wanted {
    Anything,
    Truths,
    /// One class, which no operand so far has told.
    Alike,
    /// The class of the first operand.
    Of(Class),
}

/// The operands of a node, as far as they were looked at: what is asked of the next one, the first fault at the operands
/// themselves, the first one inside them, and the spans of what is ahead.
#[derive(Clone, Copy, Debug)]
pub struct Row<'a> {
    pub wanted: Wanted,
    pub own: Option<Fault>,
    pub inside: Option<Fault>,
    pub spans: &'a [Span],
}

/// The class of an expression, its first fault, and the spans behind those of its nodes.
#[derive(Clone, Copy, Debug)]
pub struct Judged<'a> {
    pub class: Class,
    pub first: Option<Fault>,
    pub spans: &'a [Span],
}

fn same_class(class: Class, other: Class) -> bool
    ensures { result ≡ same_class class other }
{
    match (class, other) {
        (Class::Number, Class::Number) => true,
        (Class::Text, Class::Text) => true,
        (Class::Truth, Class::Truth) => true,
        (Class::Date, Class::Date) => true,
        _ => false,
    }
}

fn literal_class(value: &Value) -> Class
    ensures { result ≡ literal_class value.now }
{
    match value {
        Value::Null => Class::Truth,
        Value::Truth(_) => Class::Truth,
        Value::Number(_) => Class::Number,
        Value::Decimal(_) => Class::Number,
        Value::Text(_) => Class::Text,
        Value::Date(_) => Class::Date,
    }
}

/// The span of what is ahead.
pub fn own_span(spans: &[Span]) -> Span
    ensures { result ≡ own_span spans.now }
{
    match spans {
        [] => Span { from: 0, to: 0 },
        [first, ..] => *first,
    }
}

fn behind_first(spans: &[Span]) -> &[Span]
    ensures { result.now ≡ drop 1 spans.entry.now }
{
    match spans {
        [] => spans,
        [_, rest @ ..] => rest,
    }
}

/// The first of two faults, the former where both stand at one place.
pub fn first_of_both(first: Option<Fault>, second: Option<Fault>) -> Option<Fault>
    ensures { result ≡ first_of first (option_to_list second) }
{
    match second {
        None => first,
        Some(fault) => note(first, true, fault.code, fault.span),
    }
}

/// The first of the faults so far and of the one at an operand that is not of class Truth.
pub fn not_truth(first: Option<Fault>, class: Class, span: Span) -> Option<Fault>
    ensures { result ≡ first_of first (not_truth (record { class = class; span = span })) }
{
    note(
        first,
        !same_class(Class::Truth, class),
        Code::NotTruth,
        span,
    )
}

fn misfit(first: Option<Fault>, wanted: Wanted, class: Class, span: Span) -> Option<Fault>
    ensures { result ≡ first_of first (misfit wanted (record { class = class; span = span })) }
{
    match wanted {
        Wanted::Anything => first,
        Wanted::Truths => not_truth(first, class, span),
        Wanted::Alike => first,
        Wanted::Of(other) => note(first, !same_class(other, class), Code::ClassesDiffer, span),
    }
}

fn next(wanted: Wanted, class: Class) -> Wanted
    ensures { result ≡ next wanted class }
{
    match wanted {
        Wanted::Anything => Wanted::Anything,
        Wanted::Truths => Wanted::Truths,
        Wanted::Alike => Wanted::Of(class),
        Wanted::Of(other) => Wanted::Of(other),
    }
}

fn asked_for(test: Test) -> Wanted
    ensures { result ≡ asked_for test }
{
    match test {
        Test::Null => Wanted::Anything,
        Test::True => Wanted::Truths,
        Test::False => Wanted::Truths,
        Test::Unknown => Wanted::Truths,
    }
}

fn class_asked(wanted: Wanted) -> Class
    ensures { result ≡ class_asked wanted }
{
    match wanted {
        Wanted::Anything => Class::Truth,
        Wanted::Truths => Class::Truth,
        Wanted::Alike => Class::Truth,
        Wanted::Of(class) => class,
    }
}

fn begin(wanted: Wanted, spans: &[Span]) -> Row<'_>
    ensures { seen result ≡ begun wanted spans.entry.now }
{
    Row {
        wanted,
        own: None,
        inside: None,
        spans: behind_first(spans),
    }
}

fn join<'a>(row: Row<'a>, operand: Judged<'a>) -> Row<'a>
    ensures { seen result ≡ joined (seen row.entry) (told operand.entry) }
{
    let span = own_span(row.spans);
    Row {
        wanted: next(row.wanted, operand.class),
        own: misfit(row.own, row.wanted, operand.class, span),
        inside: first_of_both(row.inside, operand.first),
        spans: operand.spans,
    }
}

fn finish(class: Class, row: Row<'_>) -> Judged<'_>
    ensures { told result ≡ finished class (seen row.entry) }
{
    Judged {
        class,
        first: first_of_both(row.own, row.inside),
        spans: row.spans,
    }
}

/// The class of an expression, the first of its faults, each at the span of its operand, and the spans behind.
#[cycle(types)]
pub fn judge<'a>(
    expr: &Expr<PropertyRef>,
    spans: &'a [Span],
    catalog: &Catalog,
    graph: &Graph,
) -> Judged<'a>
    ensures { told result ≡ judge (typed (leaf_class catalog.now graph.now) expr.now) spans.entry.now }
{
    match expr {
        Expr::Lit(value) => finish(literal_class(value), begin(Wanted::Anything, spans)),
        Expr::Null(class) => finish(*class, begin(Wanted::Anything, spans)),
        Expr::Leaf(leaf) => {
            let class = leaf_class(catalog, graph, leaf);
            finish(class, begin(Wanted::Anything, spans))
        }
        Expr::Compare(_, a, b) => {
            let row = operand(a.get(), begin(Wanted::Alike, spans), catalog, graph);
            finish(Class::Truth, operand(b.get(), row, catalog, graph))
        }
        Expr::All(list) => {
            let row = begin(Wanted::Truths, spans);
            finish(Class::Truth, operands(list.as_slice(), row, catalog, graph))
        }
        Expr::Any(list) => {
            let row = begin(Wanted::Truths, spans);
            finish(Class::Truth, operands(list.as_slice(), row, catalog, graph))
        }
        Expr::Not(a) => {
            let row = begin(Wanted::Truths, spans);
            finish(Class::Truth, operand(a.get(), row, catalog, graph))
        }
        Expr::Is(a, test, _) => {
            let row = begin(asked_for(*test), spans);
            finish(Class::Truth, operand(a.get(), row, catalog, graph))
        }
        Expr::InList(a, list, _) => {
            let row = operand(a.get(), begin(Wanted::Alike, spans), catalog, graph);
            finish(Class::Truth, operands(list.as_slice(), row, catalog, graph))
        }
        Expr::Between(a, b, c, _) => {
            let row = operand(a.get(), begin(Wanted::Alike, spans), catalog, graph);
            let row = operand(b.get(), row, catalog, graph);
            finish(Class::Truth, operand(c.get(), row, catalog, graph))
        }
        Expr::Coalesce(list) => {
            let row = begin(Wanted::Alike, spans);
            let row = operands(list.as_slice(), row, catalog, graph);
            finish(class_asked(row.wanted), row)
        }
    }
}

#[cycle(types)]
fn operand<'a>(expr: &Expr<PropertyRef>, row: Row<'a>, catalog: &Catalog, graph: &Graph) -> Row<'a>
    ensures { seen result ≡ with_operand (seen row.entry) (typed (leaf_class catalog.now graph.now) expr.now) }
{
    let judged = judge(expr, row.spans, catalog, graph);
    join(row, judged)
}

#[cycle(types)]
#[tactic(auto, using(crate::proofs::TypeSteps::operands_on))]
fn operands<'a>(
    list: &[Expr<PropertyRef>],
    row: Row<'a>,
    catalog: &Catalog,
    graph: &Graph,
) -> Row<'a>
    ensures { seen result ≡ with_operands (seen row.entry) (map (typed (leaf_class catalog.now graph.now)) list.now) }
{
    let mut all = row;
    for expr in list {
        all = operand(expr, all, catalog, graph);
    }
    all
}
