ghost use Rattle.std.specs.Prelude.{◌≡◌};
ghost use Rattle.token_grammar.specs.Rules.Rule.{opt};
ghost use Rattle.token_grammar.specs.Parser.{mapped_p};
ghost use Rattle.token_grammar.specs.Code.{Parses};
ghost use Rattle.pattern_parser.specs.Insides.{name as some_name};
ghost use Rattle.pattern_parser.specs.Patterns.{no_content, edge_of, direction, in_square, edge_end, wave_end, left_edge, edge, dashed, waved};
ghost use Rattle.pattern_parser.specs.Queries.{where_part, label_part, filler};
ghost use Rattle.pattern_parser.specs.Reading.{reads, at_depth};

use crate::conditions::condition;
use crate::labels::label_union;
use crate::pieces::{Content, EdgeEnd, EdgePattern};
use graph_ast::{Condition, Direction, Filler, LabelExpr, Named};
use pgq_base::Span;
use std::alloc::Global;
use token_grammar::Halt;
use token_marks::Mark;
use token_reading::{TOO_DEEP, Tokens, UNEXPECTED, expect, name, next_is, next_is_name};

/// A WHERE clause, if there is one.
#[tactic(auto, unfolding(crate::specs::Queries::where_part))]
pub(crate) fn where_part(
    alloc: Global,
    tokens: &mut Tokens<'_>,
    depth: u8,
) -> Result<Option<Condition>, Halt>
    ensures { Parses (reads (at_depth depth) (opt where_part) tokens.old) result tokens.new }
{
    if !next_is(tokens, Mark::Where) {
        return Ok(None);
    }
    expect(tokens, Mark::Where)?;
    let condition = condition(alloc, tokens, depth)?;
    Ok(Some(Condition {
        tree: condition.tree,
        spans: condition.spans,
    }))
}

#[tactic(auto, unfolding(crate::specs::Queries::label_part))]
fn label_part(alloc: Global, tokens: &mut Tokens<'_>, depth: u8) -> Result<Option<LabelExpr>, Halt>
    ensures { Parses (reads (at_depth depth) (opt label_part) tokens.old) result tokens.new }
{
    if next_is(tokens, Mark::Is) {
        expect(tokens, Mark::Is)?;
        let label = label_union(alloc, tokens, depth)?;
        return Ok(Some(label));
    }
    if next_is(tokens, Mark::Colon) {
        expect(tokens, Mark::Colon)?;
        let label = label_union(alloc, tokens, depth)?;
        return Ok(Some(label));
    }
    Ok(None)
}

fn variable(alloc: Global, tokens: &mut Tokens<'_>, depth: u8) -> Result<Option<Named>, Halt>
    ensures { Parses (reads (at_depth depth) (opt some_name) tokens.old) result tokens.new }
{
    if !next_is_name(tokens) {
        return Ok(None);
    }
    let name = name(alloc, tokens)?;
    Ok(Some(name))
}

/// What stands in the brackets of an element pattern.
#[tactic(auto, unfolding(crate::specs::Queries::filler))]
pub(crate) fn filler(alloc: Global, tokens: &mut Tokens<'_>, depth: u8) -> Result<Content, Halt>
    ensures { Parses (reads (at_depth depth) filler tokens.old) result tokens.new }
{
    let variable = variable(alloc, tokens, depth)?;
    let label = label_part(alloc, tokens, depth)?;
    let condition = where_part(alloc, tokens, depth)?;
    Ok(Content {
        variable,
        label,
        condition,
    })
}

fn in_square(alloc: Global, tokens: &mut Tokens<'_>, depth: u8) -> Result<Content, Halt>
    ensures { Parses (reads (at_depth depth) in_square tokens.old) result tokens.new }
{
    if depth == 0 {
        if next_is(tokens, Mark::LeftBracket) {
            return Err(TOO_DEEP);
        }
        return Err(UNEXPECTED);
    }
    expect(tokens, Mark::LeftBracket)?;
    let content = filler(alloc, tokens, depth - 1)?;
    expect(tokens, Mark::RightBracket)?;
    Ok(content)
}

fn no_content() -> Content
    ensures { result ≡ no_content }
{
    Content {
        variable: None,
        label: None,
        condition: None,
    }
}

#[tactic(auto, unfolding(crate::specs::Patterns::edge_end))]
fn edge_end(alloc: Global, tokens: &mut Tokens<'_>, depth: u8, line: Mark) -> Result<EdgeEnd, Halt>
    ensures { Parses (reads (at_depth depth) (edge_end line) tokens.old) result tokens.new }
{
    if next_is(tokens, Mark::Greater) {
        let arrow = expect(tokens, Mark::Greater)?;
        return Ok(EdgeEnd {
            content: no_content(),
            points: true,
            to: arrow.to,
        });
    }
    let content = in_square(alloc, tokens, depth)?;
    let last = expect(tokens, line)?;
    if next_is(tokens, Mark::Greater) {
        let arrow = expect(tokens, Mark::Greater)?;
        return Ok(EdgeEnd {
            content,
            points: true,
            to: arrow.to,
        });
    }
    Ok(EdgeEnd {
        content,
        points: false,
        to: last.to,
    })
}

#[tactic(auto, unfolding(crate::specs::Patterns::wave_end))]
fn wave_end(alloc: Global, tokens: &mut Tokens<'_>, depth: u8) -> Result<EdgeEnd, Halt>
    ensures { Parses (reads (at_depth depth) wave_end tokens.old) result tokens.new }
{
    let content = in_square(alloc, tokens, depth)?;
    let last = expect(tokens, Mark::Tilde)?;
    Ok(EdgeEnd {
        content,
        points: false,
        to: last.to,
    })
}

fn direction(left: bool, right: bool) -> Direction
    ensures { result ≡ direction left right }
{
    match (left, right) {
        (false, false) => Direction::Any,
        (false, true) => Direction::Right,
        (true, false) => Direction::Left,
        (true, true) => Direction::Either,
    }
}

fn edge_of(direction: Direction, content: Content, from: u32, to: u32) -> EdgePattern
    ensures { result ≡ edge_of direction content from to }
{
    EdgePattern {
        direction,
        filler: Filler {
            variable: content.variable,
            label: content.label,
            condition: content.condition,
            span: Span { from, to },
        },
    }
}

fn dashed(left: bool, first: Span, line: Span, end: Option<EdgeEnd>) -> EdgePattern
    ensures { result ≡ dashed left first line end }
{
    match end {
        None => edge_of(direction(left, false), no_content(), first.from, line.to),
        Some(end) => edge_of(direction(left, end.points), end.content, first.from, end.to),
    }
}

fn waved(first: Span, line: Span, end: Option<EdgeEnd>) -> EdgePattern
    ensures { result ≡ waved first line end }
{
    match end {
        None => edge_of(Direction::Undirected, no_content(), first.from, line.to),
        Some(end) => edge_of(Direction::Undirected, end.content, first.from, end.to),
    }
}

#[tactic(auto, unfolding(crate::specs::Patterns::edge_end))]
fn edge_end_if(
    alloc: Global,
    tokens: &mut Tokens<'_>,
    depth: u8,
    line: Mark,
) -> Result<Option<EdgeEnd>, Halt>
    ensures { Parses (reads (at_depth depth) (opt (edge_end line)) tokens.old) result tokens.new }
{
    if next_is(tokens, Mark::Greater) || next_is(tokens, Mark::LeftBracket) {
        let end = edge_end(alloc, tokens, depth, line)?;
        return Ok(Some(end));
    }
    Ok(None)
}

#[tactic(auto, unfolding(crate::specs::Patterns::wave_end))]
fn wave_end_if(alloc: Global, tokens: &mut Tokens<'_>, depth: u8) -> Result<Option<EdgeEnd>, Halt>
    ensures { Parses (reads (at_depth depth) (opt wave_end) tokens.old) result tokens.new }
{
    if next_is(tokens, Mark::LeftBracket) {
        let end = wave_end(alloc, tokens, depth)?;
        return Ok(Some(end));
    }
    Ok(None)
}

#[tactic(auto, unfolding(crate::specs::Patterns::left_edge))]
fn left_edge(
    alloc: Global,
    tokens: &mut Tokens<'_>,
    depth: u8,
    first: Span,
) -> Result<EdgePattern, Halt>
    ensures { Parses (mapped_p (λ f. f first) (reads (at_depth depth) left_edge) tokens.old) result tokens.new }
{
    if next_is(tokens, Mark::Minus) {
        let line = expect(tokens, Mark::Minus)?;
        let end = edge_end_if(alloc, tokens, depth, Mark::Minus)?;
        return Ok(dashed(true, first, line, end));
    }
    let line = expect(tokens, Mark::Tilde)?;
    let end = wave_end_if(alloc, tokens, depth)?;
    Ok(waved(first, line, end))
}

/// An edge pattern without its quantifier.
#[tactic(auto, unfolding(crate::specs::Patterns::edge))]
pub(crate) fn edge(alloc: Global, tokens: &mut Tokens<'_>, depth: u8) -> Result<EdgePattern, Halt>
    ensures { Parses (reads (at_depth depth) edge tokens.old) result tokens.new }
{
    if next_is(tokens, Mark::Minus) {
        let first = expect(tokens, Mark::Minus)?;
        let end = edge_end_if(alloc, tokens, depth, Mark::Minus)?;
        return Ok(dashed(false, first, first, end));
    }
    if next_is(tokens, Mark::Tilde) {
        let first = expect(tokens, Mark::Tilde)?;
        let end = edge_end_if(alloc, tokens, depth, Mark::Tilde)?;
        return Ok(waved(first, first, end));
    }
    let first = expect(tokens, Mark::Less)?;
    left_edge(alloc, tokens, depth, first)
}
