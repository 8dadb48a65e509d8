ghost use Rattle.std.specs.Prelude.{◌≡◌, length, IfOk};
ghost use Rattle.graph_ast.specs.declared.query.LabelExpr.TheVariants.{Not};
ghost use Rattle.token_grammar.specs.Code.{Parses, gathered, pushed, after_p};
ghost use Rattle.token_marks.specs.declared.mark.Mark.TheVariants as m;
ghost use Rattle.token_reading.specs.Tokens.{is_mark, span_of};
ghost use Rattle.pattern_parser.specs.Insides.{Own, parens};
ghost use Rattle.pattern_parser.specs.Patterns.{label_primary, label_not, label_and, label_union};
ghost use Rattle.pattern_parser.specs.Reading.{reads, at_depth};

use condition_nodes::open;
use graph_ast::LabelExpr;
use pgq_base::{List, NoMemory};
use sqlite_items::Boxed;
use std::alloc::Global;
use token_grammar::Halt;
use token_marks::Mark;
use token_reading::{Tokens, expect, name, next_is, next_is_name};

fn negated(alloc: Global, label: LabelExpr) -> Result<LabelExpr, NoMemory>
    ensures { IfOk result (λ not. not ≡ Not label) }
{
    let boxed = Boxed::new(alloc, label)?;
    Ok(LabelExpr::Not(boxed))
}

#[cycle(labels)]
fn label_group(alloc: Global, tokens: &mut Tokens<'_>, depth: u8) -> Result<LabelExpr, Halt>
    ensures { Parses (reads (at_depth depth) (parens Own.label_group) tokens.old) result tokens.new }
{
    open(tokens, depth)?;
    let content = label_union(alloc, tokens, depth - 1)?;
    expect(tokens, Mark::RightParenthesis)?;
    Ok(content)
}

#[cycle(labels)]
#[tactic(auto, unfolding(crate::specs::Patterns::label_primary))]
fn label_primary(alloc: Global, tokens: &mut Tokens<'_>, depth: u8) -> Result<LabelExpr, Halt>
    ensures { Parses (reads (at_depth depth) label_primary tokens.old) result tokens.new }
{
    if next_is_name(tokens) {
        let name = name(alloc, tokens)?;
        return Ok(LabelExpr::Label(name));
    }
    if next_is(tokens, Mark::Percent) {
        expect(tokens, Mark::Percent)?;
        return Ok(LabelExpr::AnyLabel);
    }
    label_group(alloc, tokens, depth)
}

#[cycle(labels)]
#[tactic(auto, unfolding(crate::specs::Patterns::label_not))]
fn label_not(alloc: Global, tokens: &mut Tokens<'_>, depth: u8) -> Result<LabelExpr, Halt>
    ensures { Parses (reads (at_depth depth) label_not tokens.old) result tokens.new }
{
    if !next_is(tokens, Mark::ExclamationMark) {
        return label_primary(alloc, tokens, depth);
    }
    expect(tokens, Mark::ExclamationMark)?;
    let label = label_primary(alloc, tokens, depth)?;
    Ok(negated(alloc, label)?)
}

#[cycle(labels)]
fn more_ands(
    alloc: Global,
    tokens: &mut Tokens<'_>,
    depth: u8,
    mut all: List<LabelExpr>,
) -> Result<List<LabelExpr>, Halt>
    ensures { Parses (gathered (is_mark m.Ampersand) (after_p (is_mark m.Ampersand) span_of (reads (at_depth depth) label_not)) pushed (length tokens.old) all tokens.old) result tokens.new }
{
    for turn in 0..tokens.count() {
        if !next_is(tokens, Mark::Ampersand) {
            break;
        }
        tokens.skip();
        let item = label_not(alloc, tokens, depth)?;
        all.push(item)?;
    }
    Ok(all)
}

#[cycle(labels)]
#[tactic(auto, unfolding(crate::specs::Patterns::label_and))]
fn label_and(alloc: Global, tokens: &mut Tokens<'_>, depth: u8) -> Result<LabelExpr, Halt>
    ensures { Parses (reads (at_depth depth) label_and tokens.old) result tokens.new }
{
    let first = label_not(alloc, tokens, depth)?;
    if !next_is(tokens, Mark::Ampersand) {
        return Ok(first);
    }
    let mut one = List::new(alloc);
    one.push(first)?;
    let all = more_ands(alloc, tokens, depth, one)?;
    Ok(LabelExpr::And(all))
}

#[cycle(labels)]
fn more_ors(
    alloc: Global,
    tokens: &mut Tokens<'_>,
    depth: u8,
    mut all: List<LabelExpr>,
) -> Result<List<LabelExpr>, Halt>
    ensures { Parses (gathered (is_mark m.VerticalBar) (after_p (is_mark m.VerticalBar) span_of (reads (at_depth depth) label_and)) pushed (length tokens.old) all tokens.old) result tokens.new }
{
    for turn in 0..tokens.count() {
        if !next_is(tokens, Mark::VerticalBar) {
            break;
        }
        tokens.skip();
        let item = label_and(alloc, tokens, depth)?;
        all.push(item)?;
    }
    Ok(all)
}

/// A label expression.
#[cycle(labels)]
#[tactic(auto, unfolding(crate::specs::Patterns::label_union))]
pub(crate) fn label_union(
    alloc: Global,
    tokens: &mut Tokens<'_>,
    depth: u8,
) -> Result<LabelExpr, Halt>
    ensures { Parses (reads (at_depth depth) label_union tokens.old) result tokens.new }
{
    let first = label_and(alloc, tokens, depth)?;
    if !next_is(tokens, Mark::VerticalBar) {
        return Ok(first);
    }
    let mut one = List::new(alloc);
    one.push(first)?;
    let all = more_ors(alloc, tokens, depth, one)?;
    Ok(LabelExpr::Or(all))
}
