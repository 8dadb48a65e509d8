use condition_grammar::Spanned;
use expr_tree::{Comparison, Expr, Test};
use graph_ast::Named;
use pgq_base::{Class, List, Span, Value};
use sql_algebra::{ColumnRef, ColumnText, ConjunctText, ItemText, SelectText, SqlText};
use std::alloc::Global;
use std::test::Fail;

// A text's selects, each name and word with its span as `@from-to`, each condition with the spans of its nodes.
pub fn show_text(alloc: Global, text: &SqlText) -> Result<String, Fail> {
    let mut out = String::new(alloc);
    for select in text.selects.as_slice() {
        show_select(alloc, &mut out, select)?;
        out.push_str("; ")?;
    }
    Ok(out)
}

fn show_span(alloc: Global, out: &mut String, span: &Span) -> Result<(), Fail> {
    let from = span.from;
    let to = span.to;
    out.push_str(format!(in alloc; "{from}-{to}")?.as_str())?;
    Ok(())
}

fn show_named(alloc: Global, out: &mut String, named: &Named) -> Result<(), Fail> {
    let text = std::str::from_utf8(named.name.as_bytes())
        .ok()
        .ok_or("a name is no text")?;
    out.push_str(text)?;
    out.push_str("@")?;
    show_span(alloc, out, &named.span)
}

#[cycle(show_select)]
fn show_select(alloc: Global, out: &mut String, select: &SelectText) -> Result<(), Fail> {
    out.push_str("select@")?;
    show_span(alloc, out, &select.word)?;
    show_columns(alloc, out, &select.columns)?;
    show_items(alloc, out, &select.from)?;
    show_conjuncts(alloc, out, select.conjuncts.as_slice())
}

#[cycle(show_select)]
fn show_conjuncts(alloc: Global, out: &mut String, all: &[ConjunctText]) -> Result<(), Fail> {
    for conjunct in all {
        match conjunct {
            ConjunctText::Plain(value) => {
                out.push_str(" where {")?;
                show_condition(alloc, out, value)?;
            }
            ConjunctText::NotExists(inner) => {
                out.push_str(" where-not-exists {")?;
                show_select(alloc, out, inner.get())?;
            }
        }
        out.push_str("}")?;
    }
    Ok(())
}

fn show_columns(alloc: Global, out: &mut String, all: &List<ColumnText>) -> Result<(), Fail> {
    for column in all.as_slice() {
        out.push_str(" {")?;
        show_condition(alloc, out, &column.value)?;
        out.push_str(" as ")?;
        show_named(alloc, out, &column.name)?;
        out.push_str("}")?;
    }
    Ok(())
}

fn show_items(alloc: Global, out: &mut String, all: &List<ItemText>) -> Result<(), Fail> {
    for item in all.as_slice() {
        out.push_str(" from ")?;
        show_named(alloc, out, &item.table)?;
        out.push_str(" as ")?;
        show_named(alloc, out, &item.alias)?;
        if let Some(on) = &item.on {
            show_on(alloc, out, on)?;
        }
    }
    Ok(())
}

fn show_on(alloc: Global, out: &mut String, on: &List<Spanned<ColumnRef>>) -> Result<(), Fail> {
    out.push_str(" on")?;
    for member in on.as_slice() {
        out.push_str(" {")?;
        show_condition(alloc, out, member)?;
        out.push_str("}")?;
    }
    Ok(())
}

fn show_condition(alloc: Global, out: &mut String, c: &Spanned<ColumnRef>) -> Result<(), Fail> {
    show_value(alloc, out, &c.tree)?;
    out.push_str(" [")?;
    for span in c.spans.as_slice() {
        show_span(alloc, out, span)?;
        out.push_str(" ")?;
    }
    out.push_str("]")?;
    Ok(())
}

fn show_literal(alloc: Global, out: &mut String, value: &Value) -> Result<(), Fail> {
    match value {
        Value::Null => out.push_str("null")?,
        Value::Truth(true) => out.push_str("true")?,
        Value::Truth(false) => out.push_str("false")?,
        Value::Number(n) => out.push_str(format!(in alloc; "{n}")?.as_str())?,
        Value::Decimal(size) => {
            let unscaled = size.unscaled;
            let scale = size.scale;
            out.push_str(format!(in alloc; "decimal {unscaled} {scale}")?.as_str())?;
        }
        Value::Text(text) => {
            let text = text.as_text();
            out.push_str(format!(in alloc; "'{text}'")?.as_str())?;
        }
        Value::Date(date) => {
            let day = date.day;
            out.push_str(format!(in alloc; "date {day}")?.as_str())?;
        }
    }
    Ok(())
}

fn class_name(class: Class) -> &'static str {
    match class {
        Class::Number => "null-number",
        Class::Text => "null-text",
        Class::Truth => "null-truth",
        Class::Date => "null-date",
    }
}

fn comparison_name(op: Comparison) -> &'static str {
    match op {
        Comparison::Equal => "=",
        Comparison::NotEqual => "<>",
        Comparison::Less => "<",
        Comparison::LessOrEqual => "<=",
        Comparison::Greater => ">",
        Comparison::GreaterOrEqual => ">=",
    }
}

fn test_name(test: Test) -> &'static str {
    match test {
        Test::Null => "is-null",
        Test::True => "is-true",
        Test::False => "is-false",
        Test::Unknown => "is-unknown",
    }
}

// An opening parenthesis, `not-` where it is negated, and a word.
fn begin(out: &mut String, negated: bool, word: &str) -> Result<(), Fail> {
    out.push_str("(")?;
    if negated {
        out.push_str("not-")?;
    }
    out.push_str(word)?;
    Ok(())
}

#[cycle(show_value)]
fn show_value(alloc: Global, out: &mut String, e: &Expr<ColumnRef>) -> Result<(), Fail> {
    match e {
        Expr::Lit(value) => return show_literal(alloc, out, value),
        Expr::Null(class) => {
            out.push_str(class_name(*class))?;
            return Ok(());
        }
        Expr::Leaf(leaf) => {
            show_named(alloc, out, &leaf.alias)?;
            out.push_str(".")?;
            return show_named(alloc, out, &leaf.column);
        }
        Expr::Compare(op, a, b) => {
            begin(out, false, comparison_name(*op))?;
            show_part(alloc, out, a.get())?;
            show_part(alloc, out, b.get())?;
        }
        Expr::All(list) => {
            begin(out, false, "and")?;
            show_parts(alloc, out, list.as_slice())?;
        }
        Expr::Any(list) => {
            begin(out, false, "or")?;
            show_parts(alloc, out, list.as_slice())?;
        }
        Expr::Not(a) => {
            begin(out, false, "not")?;
            show_part(alloc, out, a.get())?;
        }
        Expr::Is(a, test, negated) => {
            begin(out, *negated, test_name(*test))?;
            show_part(alloc, out, a.get())?;
        }
        Expr::InList(a, list, negated) => {
            begin(out, *negated, "in")?;
            show_part(alloc, out, a.get())?;
            show_parts(alloc, out, list.as_slice())?;
        }
        Expr::Between(a, b, c, negated) => {
            begin(out, *negated, "between")?;
            show_part(alloc, out, a.get())?;
            show_part(alloc, out, b.get())?;
            show_part(alloc, out, c.get())?;
        }
        Expr::Coalesce(list) => {
            begin(out, false, "coalesce")?;
            show_parts(alloc, out, list.as_slice())?;
        }
    }
    out.push_str(")")?;
    Ok(())
}

#[cycle(show_value)]
fn show_part(alloc: Global, out: &mut String, e: &Expr<ColumnRef>) -> Result<(), Fail> {
    out.push_str(" ")?;
    show_value(alloc, out, e)
}

#[cycle(show_value)]
fn show_parts(alloc: Global, out: &mut String, all: &[Expr<ColumnRef>]) -> Result<(), Fail> {
    for e in all {
        show_part(alloc, out, e)?;
    }
    Ok(())
}
