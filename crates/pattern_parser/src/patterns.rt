ghost use Rattle.std.specs.Prelude.{◌≡◌, ◌<◌, length, IfOk};
ghost use Rattle.token_grammar.specs.Rules.{on};
ghost use Rattle.token_grammar.specs.Rules.Rule.{opt};
ghost use Rattle.token_grammar.specs.Parser.{heads, mapped_p};
ghost use Rattle.token_grammar.specs.Code.{Parses, gathered};
ghost use Rattle.token_marks.specs.declared.mark.Mark.TheVariants as m;
ghost use Rattle.token_reading.specs.Tokens.{class, is_mark};
ghost use Rattle.pattern_parser.specs.Patterns.{reach_with, part_at, vertex_at, edge_at, begins_part, mode_part, quantifier, part_or_vertex, factor, sequence, joint, union};
ghost use Rattle.pattern_parser.specs.Queries.{part};
ghost use Rattle.pattern_parser.specs.Reading.{reads, at_depth, flat, reads_branch, starts_edge, starts_factor, with_factor, with_operand, joined};

use crate::edges::{edge, filler, where_part};
use crate::pieces::{Content, EdgePattern, Operands, PartContent, Placed, Run};
use crate::prefixes::{mode_part, next_is_mode, next_is_quantifier, quantifier};
use condition_nodes::{open, reach};
use graph_ast::{Factor, Filler, Joint, ModeWord, PartTree, Quantifier, Sequence, Union};
use pgq_base::{List, NoMemory, Span};
use sqlite_items::Boxed;
use std::alloc::Global;
use token_grammar::Halt;
use token_marks::Mark;
use token_reading::{Tokens, expect, next_is};

#[tactic(auto, unfolding(crate::specs::Patterns::quantifier))]
fn quantifier_if(tokens: &mut Tokens<'_>) -> Result<Option<Quantifier>, Halt>
    ensures { Parses (reads flat (opt quantifier) tokens.old) result tokens.new }
{
    if !next_is_quantifier(tokens) {
        return Ok(None);
    }
    let quantifier = quantifier(tokens)?;
    Ok(Some(quantifier))
}

#[tactic(auto, unfolding(crate::specs::Patterns::mode_part, crate::specs::Patterns::mode))]
fn mode_if(tokens: &mut Tokens<'_>, depth: u8) -> Result<Option<ModeWord>, Halt>
    ensures { Parses (reads (at_depth depth) (opt mode_part) tokens.old) result tokens.new }
{
    if !next_is_mode(tokens) {
        return Ok(None);
    }
    let mode = mode_part(tokens)?;
    Ok(Some(mode))
}

fn reach_with(own: Span, quantifier: &Option<Quantifier>) -> Span
    ensures { result ≡ reach_with own quantifier.now }
{
    match quantifier {
        None => own,
        Some(quantifier) => reach(own, quantifier.span),
    }
}

fn part_at(
    alloc: Global,
    first: Span,
    last: Span,
    content: PartContent,
    quantifier: Option<Quantifier>,
) -> Result<Placed<Factor>, NoMemory>
    ensures { IfOk result (λ part. part ≡ part_at first last content quantifier) }
{
    let span = reach(first, last);
    let whole = reach_with(span, &quantifier);
    let tree = PartTree {
        mode: content.mode,
        body: content.body,
        condition: content.condition,
        span,
    };
    let part = Boxed::new(alloc, tree)?;
    Ok(Placed {
        node: Factor::Part(part, quantifier),
        span: whole,
    })
}

fn vertex_at(first: Span, last: Span, content: Content) -> Placed<Factor>
    ensures { result ≡ vertex_at first last content }
{
    let span = reach(first, last);
    let filler = Filler {
        variable: content.variable,
        label: content.label,
        condition: content.condition,
        span,
    };
    Placed {
        node: Factor::Vertex(filler),
        span,
    }
}

fn edge_at(edge: EdgePattern, quantifier: Option<Quantifier>) -> Placed<Factor>
    ensures { result ≡ edge_at edge quantifier }
{
    let span = reach_with(edge.filler.span, &quantifier);
    Placed {
        node: Factor::Edge(edge.direction, edge.filler, quantifier),
        span,
    }
}

fn next_is_edge(tokens: &Tokens<'_>) -> bool
    ensures { result ≡ heads (on class starts_edge) tokens.now }
{
    next_is(tokens, Mark::Minus) || next_is(tokens, Mark::Tilde) || next_is(tokens, Mark::Less)
}

fn next_is_part(tokens: &Tokens<'_>) -> bool
    ensures { result ≡ heads (on class begins_part) tokens.now }
{
    next_is_mode(tokens) || next_is(tokens, Mark::LeftParenthesis) || next_is_edge(tokens)
}

fn next_is_factor(tokens: &Tokens<'_>) -> bool
    ensures { result ≡ heads (on class starts_factor) tokens.now }
{
    next_is(tokens, Mark::LeftParenthesis) || next_is_edge(tokens)
}

#[tactic(auto, unfolding(crate::specs::Patterns::joint))]
fn joint(tokens: &mut Tokens<'_>, depth: u8) -> Result<Joint, Halt>
    ensures { Parses (reads (at_depth depth) joint tokens.old) result tokens.new }
{
    let bar = expect(tokens, Mark::VerticalBar)?;
    if !next_is(tokens, Mark::Plus) {
        return Ok(Joint {
            multiset: false,
            span: bar,
        });
    }
    expect(tokens, Mark::Plus)?;
    let last = expect(tokens, Mark::VerticalBar)?;
    Ok(Joint {
        multiset: true,
        span: reach(bar, last),
    })
}

#[cycle(patterns)]
#[tactic(auto, unfolding(crate::specs::Queries::part))]
fn part(alloc: Global, tokens: &mut Tokens<'_>, depth: u8) -> Result<PartContent, Halt>
    ensures { Parses (reads (at_depth depth) part tokens.old) result tokens.new }
{
    let mode = mode_if(tokens, depth)?;
    let body = union(alloc, tokens, depth)?;
    let condition = where_part(alloc, tokens, depth)?;
    Ok(PartContent {
        mode,
        body: body.node,
        condition,
    })
}

#[cycle(patterns)]
fn branch(
    alloc: Global,
    tokens: &mut Tokens<'_>,
    depth: u8,
    first: Span,
) -> Result<Placed<Factor>, Halt>
    requires { 0 < depth }
    ensures { Parses (mapped_p (λ f. f first) (reads_branch depth) tokens.old) result tokens.new }
{
    if next_is_part(tokens) {
        let content = part(alloc, tokens, depth - 1)?;
        let last = expect(tokens, Mark::RightParenthesis)?;
        let quantifier = quantifier_if(tokens)?;
        return Ok(part_at(alloc, first, last, content, quantifier)?);
    }
    let content = filler(alloc, tokens, depth - 1)?;
    let last = expect(tokens, Mark::RightParenthesis)?;
    Ok(vertex_at(first, last, content))
}

#[cycle(patterns)]
fn part_or_vertex(alloc: Global, tokens: &mut Tokens<'_>, depth: u8) -> Result<Placed<Factor>, Halt>
    ensures { Parses (reads (at_depth depth) part_or_vertex tokens.old) result tokens.new }
{
    let first = open(tokens, depth)?;
    branch(alloc, tokens, depth, first)
}

#[cycle(patterns)]
#[tactic(auto, unfolding(crate::specs::Patterns::factor, crate::specs::Patterns::part_or_vertex))]
fn factor(alloc: Global, tokens: &mut Tokens<'_>, depth: u8) -> Result<Placed<Factor>, Halt>
    ensures { Parses (reads (at_depth depth) factor tokens.old) result tokens.new }
{
    if next_is(tokens, Mark::LeftParenthesis) {
        return part_or_vertex(alloc, tokens, depth);
    }
    let edge = edge(alloc, tokens, depth)?;
    let quantifier = quantifier_if(tokens)?;
    Ok(edge_at(edge, quantifier))
}

#[cycle(patterns)]
fn more_factors(
    alloc: Global,
    tokens: &mut Tokens<'_>,
    depth: u8,
    mut run: Run,
) -> Result<Run, Halt>
    ensures { Parses (gathered (on class starts_factor) (reads (at_depth depth) factor) with_factor (length tokens.old) run tokens.old) result tokens.new }
{
    for turn in 0..tokens.count() {
        if !next_is_factor(tokens) {
            break;
        }
        let item = factor(alloc, tokens, depth)?;
        run.factors.push(item.node)?;
        run.span.to = item.span.to;
    }
    Ok(run)
}

#[cycle(patterns)]
#[tactic(auto, unfolding(crate::specs::Patterns::sequence))]
fn sequence(alloc: Global, tokens: &mut Tokens<'_>, depth: u8) -> Result<Placed<Sequence>, Halt>
    ensures { Parses (reads (at_depth depth) sequence tokens.old) result tokens.new }
{
    let first = factor(alloc, tokens, depth)?;
    let mut factors = List::new(alloc);
    factors.push(first.node)?;
    let span = first.span;
    let run = more_factors(alloc, tokens, depth, Run { factors, span })?;
    let span = run.span;
    let factors = run.factors;
    Ok(Placed {
        node: Sequence { factors },
        span,
    })
}

#[cycle(patterns)]
fn more_operands(
    alloc: Global,
    tokens: &mut Tokens<'_>,
    depth: u8,
    mut all: Operands,
) -> Result<Operands, Halt>
    ensures { Parses (gathered (is_mark m.VerticalBar) (reads (at_depth depth) joined) with_operand (length tokens.old) all tokens.old) result tokens.new }
{
    for turn in 0..tokens.count() {
        if !next_is(tokens, Mark::VerticalBar) {
            break;
        }
        let joint = joint(tokens, depth)?;
        let item = sequence(alloc, tokens, depth)?;
        all.joints.push(joint)?;
        all.operands.push(item.node)?;
        all.span.to = item.span.to;
    }
    Ok(all)
}

/// Sequences with `|` or `|+|` between them, and where they stand.
#[cycle(patterns)]
#[tactic(auto, unfolding(crate::specs::Patterns::union))]
pub(crate) fn union(
    alloc: Global,
    tokens: &mut Tokens<'_>,
    depth: u8,
) -> Result<Placed<Union>, Halt>
    ensures { Parses (reads (at_depth depth) union tokens.old) result tokens.new }
{
    let first = sequence(alloc, tokens, depth)?;
    let mut operands = List::new(alloc);
    operands.push(first.node)?;
    let span = first.span;
    let joints = List::new(alloc);
    let all = more_operands(
        alloc,
        tokens,
        depth,
        Operands {
            operands,
            joints,
            span,
        },
    )?;
    let span = all.span;
    let operands = all.operands;
    let joints = all.joints;
    Ok(Placed {
        node: Union { operands, joints },
        span,
    })
}
