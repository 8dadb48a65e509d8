use expr_tree::Expr;
use graph_ast::{
    Condition, ElementTest, Factor, Filler, Item, Joint, LabelExpr, ModeWord, Named, PartTree,
    PathTree, PropertyRef, Quantifier, QueryTree, Selector, Sequence, Union,
};
use pgq_base::{Name, Span, Value};
use std::alloc::Global;
use std::test::Fail;

// A tree in brackets, each span as `@from-to`.
pub fn show_tree(alloc: Global, tree: &QueryTree) -> Result<String, Fail> {
    let mut out = String::new(alloc);
    show_named(alloc, &mut out, &tree.graph)?;
    out.push_str(" match")?;
    show_span(alloc, &mut out, &tree.match_span)?;
    for path in tree.paths.as_slice() {
        show_path(alloc, &mut out, path)?;
    }
    show_where(alloc, &mut out, &tree.condition)?;
    out.push_str(";")?;
    for item in tree.columns.as_slice() {
        show_item(alloc, &mut out, item)?;
    }
    Ok(out)
}

fn show_span(alloc: Global, out: &mut String, span: &Span) -> Result<(), Fail> {
    let from = span.from;
    let to = span.to;
    out.push_str(format!(in alloc; "@{from}-{to}")?.as_str())?;
    Ok(())
}

fn show_name(out: &mut String, name: &Name) -> Result<(), Fail> {
    let text = std::str::from_utf8(name.as_bytes())
        .ok()
        .ok_or("a name is no text")?;
    out.push_str(text)?;
    Ok(())
}

fn show_named(alloc: Global, out: &mut String, named: &Named) -> Result<(), Fail> {
    show_name(out, &named.name)?;
    show_span(alloc, out, &named.span)
}

fn show_names(alloc: Global, out: &mut String, names: &[Named]) -> Result<(), Fail> {
    for named in names {
        out.push_str(" ")?;
        show_named(alloc, out, named)?;
    }
    Ok(())
}

fn show_path(alloc: Global, out: &mut String, path: &PathTree) -> Result<(), Fail> {
    out.push_str("; path")?;
    show_span(alloc, out, &path.span)?;
    if let Some(variable) = &path.variable {
        out.push_str(" ")?;
        show_named(alloc, out, variable)?;
        out.push_str("=")?;
    }
    if let Some(selector) = &path.selector {
        show_selector(alloc, out, selector)?;
    }
    show_mode(alloc, out, &path.mode)?;
    show_union(&path.body, alloc, out)
}

fn show_selector(alloc: Global, out: &mut String, selector: &Selector) -> Result<(), Fail> {
    let kind = selector.kind;
    out.push_str(format!(in alloc; " {kind:?}")?.as_str())?;
    show_span(alloc, out, &selector.span)
}

fn show_mode(alloc: Global, out: &mut String, mode: &Option<ModeWord>) -> Result<(), Fail> {
    let Some(word) = mode else {
        return Ok(());
    };
    let mode = word.mode;
    out.push_str(format!(in alloc; " {mode:?}")?.as_str())?;
    show_span(alloc, out, &word.span)
}

fn show_joint(alloc: Global, out: &mut String, joint: &Joint) -> Result<(), Fail> {
    if joint.multiset {
        out.push_str(" |+|")?;
    } else {
        out.push_str(" |")?;
    }
    show_span(alloc, out, &joint.span)
}

#[cycle(patterns)]
fn show_union(union: &Union, alloc: Global, out: &mut String) -> Result<(), Fail> {
    show_sequences(union.operands.as_slice(), alloc, out)?;
    for joint in union.joints.as_slice() {
        show_joint(alloc, out, joint)?;
    }
    Ok(())
}

#[cycle(patterns)]
fn show_sequences(sequences: &[Sequence], alloc: Global, out: &mut String) -> Result<(), Fail> {
    for sequence in sequences {
        out.push_str(" <")?;
        show_factors(sequence.factors.as_slice(), alloc, out)?;
        out.push_str(">")?;
    }
    Ok(())
}

#[cycle(patterns)]
fn show_factors(factors: &[Factor], alloc: Global, out: &mut String) -> Result<(), Fail> {
    for factor in factors {
        show_factor(factor, alloc, out)?;
    }
    Ok(())
}

#[cycle(patterns)]
fn show_factor(factor: &Factor, alloc: Global, out: &mut String) -> Result<(), Fail> {
    match factor {
        Factor::Vertex(filler) => {
            out.push_str("(")?;
            show_filler(alloc, out, filler)?;
            out.push_str(")")?;
            Ok(())
        }
        Factor::Edge(direction, filler, quantifier) => {
            out.push_str(format!(in alloc; "{direction:?}[")?.as_str())?;
            show_filler(alloc, out, filler)?;
            out.push_str("]")?;
            show_quantifier(alloc, out, quantifier)
        }
        Factor::Part(part, quantifier) => {
            show_part(part.get(), alloc, out)?;
            show_quantifier(alloc, out, quantifier)
        }
    }
}

#[cycle(patterns)]
fn show_part(part: &PartTree, alloc: Global, out: &mut String) -> Result<(), Fail> {
    out.push_str("{")?;
    show_span(alloc, out, &part.span)?;
    show_mode(alloc, out, &part.mode)?;
    show_union(&part.body, alloc, out)?;
    show_where(alloc, out, &part.condition)?;
    out.push_str("}")?;
    Ok(())
}

fn show_filler(alloc: Global, out: &mut String, filler: &Filler) -> Result<(), Fail> {
    show_span(alloc, out, &filler.span)?;
    if let Some(variable) = &filler.variable {
        out.push_str(" ")?;
        show_named(alloc, out, variable)?;
    }
    if let Some(label) = &filler.label {
        out.push_str(" :")?;
        show_label(label, alloc, out)?;
    }
    show_where(alloc, out, &filler.condition)
}

fn show_quantifier(
    alloc: Global,
    out: &mut String,
    quantifier: &Option<Quantifier>,
) -> Result<(), Fail> {
    let Some(quantifier) = quantifier else {
        return Ok(());
    };
    let kind = quantifier.kind;
    out.push_str(format!(in alloc; "{kind:?}")?.as_str())?;
    show_span(alloc, out, &quantifier.span)
}

#[cycle(labels)]
fn show_label(label: &LabelExpr, alloc: Global, out: &mut String) -> Result<(), Fail> {
    match label {
        LabelExpr::Label(named) => show_named(alloc, out, named),
        LabelExpr::AnyLabel => Ok(out.push_str("%")?),
        LabelExpr::Not(label) => {
            out.push_str("!")?;
            show_label(label.get(), alloc, out)
        }
        LabelExpr::And(labels) => {
            out.push_str("and")?;
            show_labels(labels.as_slice(), alloc, out)
        }
        LabelExpr::Or(labels) => {
            out.push_str("or")?;
            show_labels(labels.as_slice(), alloc, out)
        }
    }
}

#[cycle(labels)]
fn show_labels(labels: &[LabelExpr], alloc: Global, out: &mut String) -> Result<(), Fail> {
    out.push_str("(")?;
    for label in labels {
        out.push_str(" ")?;
        show_label(label, alloc, out)?;
    }
    out.push_str(")")?;
    Ok(())
}

fn show_where(alloc: Global, out: &mut String, condition: &Option<Condition>) -> Result<(), Fail> {
    let Some(condition) = condition else {
        return Ok(());
    };
    out.push_str(" where ")?;
    show_condition(alloc, out, condition)
}

// A condition's nodes, and then their spans.
fn show_condition(alloc: Global, out: &mut String, condition: &Condition) -> Result<(), Fail> {
    show_expr(&condition.tree, alloc, out)?;
    for span in condition.spans.as_slice() {
        show_span(alloc, out, span)?;
    }
    Ok(())
}

fn show_value(alloc: Global, out: &mut String, value: &Value) -> Result<(), Fail> {
    match value {
        Value::Text(text) => {
            out.push_str("'")?;
            out.push_str(text.as_text())?;
            out.push_str("'")?;
            Ok(())
        }
        _ => Ok(out.push_str(format!(in alloc; "{value:?}")?.as_str())?),
    }
}

fn show_leaf(alloc: Global, out: &mut String, leaf: &PropertyRef) -> Result<(), Fail> {
    show_named(alloc, out, &leaf.variable)?;
    out.push_str(".")?;
    show_named(alloc, out, &leaf.property)?;
    let Some(test) = &leaf.test else {
        return Ok(());
    };
    match test {
        ElementTest::Same(names) => {
            out.push_str(" same")?;
            show_names(alloc, out, names.as_slice())
        }
        ElementTest::AllDifferent(names) => {
            out.push_str(" all-different")?;
            show_names(alloc, out, names.as_slice())
        }
        ElementTest::SourceOf(vertex, edge) => {
            out.push_str(" source ")?;
            show_named(alloc, out, vertex)?;
            show_named(alloc, out, edge)
        }
        ElementTest::DestinationOf(vertex, edge) => {
            out.push_str(" destination ")?;
            show_named(alloc, out, vertex)?;
            show_named(alloc, out, edge)
        }
    }
}

#[cycle(conditions)]
fn show_expr(expr: &Expr<PropertyRef>, alloc: Global, out: &mut String) -> Result<(), Fail> {
    match expr {
        Expr::Lit(value) => show_value(alloc, out, value),
        Expr::Null(class) => Ok(out.push_str(format!(in alloc; "{class:?}")?.as_str())?),
        Expr::Leaf(leaf) => show_leaf(alloc, out, leaf),
        Expr::Compare(op, a, b) => {
            out.push_str(format!(in alloc; "{op:?}(")?.as_str())?;
            show_expr(a.get(), alloc, out)?;
            out.push_str(", ")?;
            show_expr(b.get(), alloc, out)?;
            Ok(out.push_str(")")?)
        }
        Expr::All(list) => {
            out.push_str("all")?;
            show_exprs(list.as_slice(), alloc, out)
        }
        Expr::Any(list) => {
            out.push_str("any")?;
            show_exprs(list.as_slice(), alloc, out)
        }
        Expr::Coalesce(list) => {
            out.push_str("coalesce")?;
            show_exprs(list.as_slice(), alloc, out)
        }
        Expr::Not(a) => {
            out.push_str("not ")?;
            show_expr(a.get(), alloc, out)
        }
        Expr::Is(a, test, negated) => {
            out.push_str(format!(in alloc; "{test:?} {negated} ")?.as_str())?;
            show_expr(a.get(), alloc, out)
        }
        Expr::InList(a, list, negated) => {
            out.push_str(format!(in alloc; "in {negated} ")?.as_str())?;
            show_expr(a.get(), alloc, out)?;
            show_exprs(list.as_slice(), alloc, out)
        }
        Expr::Between(a, b, c, negated) => {
            out.push_str(format!(in alloc; "between {negated} ")?.as_str())?;
            show_expr(a.get(), alloc, out)?;
            out.push_str(", ")?;
            show_expr(b.get(), alloc, out)?;
            out.push_str(", ")?;
            show_expr(c.get(), alloc, out)
        }
    }
}

#[cycle(conditions)]
fn show_exprs(exprs: &[Expr<PropertyRef>], alloc: Global, out: &mut String) -> Result<(), Fail> {
    out.push_str("(")?;
    for expr in exprs {
        out.push_str(" ")?;
        show_expr(expr, alloc, out)?;
    }
    out.push_str(")")?;
    Ok(())
}

fn show_item(alloc: Global, out: &mut String, item: &Item) -> Result<(), Fail> {
    out.push_str(" item")?;
    show_span(alloc, out, &item.span)?;
    out.push_str(" ")?;
    show_condition(alloc, out, &item.value)?;
    if let Some(name) = &item.name {
        out.push_str(" as ")?;
        show_named(alloc, out, name)?;
    }
    if let Some(gather) = &item.gather {
        let kind = gather.kind;
        out.push_str(format!(in alloc; " {kind:?} ")?.as_str())?;
        show_named(alloc, out, &gather.variable)?;
        if let Some(property) = &gather.property {
            out.push_str(".")?;
            show_named(alloc, out, property)?;
        }
    }
    Ok(())
}
