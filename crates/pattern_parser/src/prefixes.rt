ghost use Rattle.std.specs.Prelude.{◌≡◌};
ghost use Rattle.token_grammar.specs.Rules.{on};
ghost use Rattle.token_grammar.specs.Parser.{heads};
ghost use Rattle.token_grammar.specs.Code.{Parses};
ghost use Rattle.token_reading.specs.Tokens.{class};
ghost use Rattle.pattern_parser.specs.Patterns.{mode, noun, mode_part, mode_and_noun, bounds, quantifier, kind_of_any, prefix_of, all_prefix, any_prefix, shortest_prefix, prefix};
ghost use Rattle.token_grammar.specs.Rules.Rule.{opt};
ghost use Rattle.pattern_parser.specs.Reading.{reads, flat, starts_mode, starts_quantifier, starts_prefix};

use crate::pieces::Prefix;
use condition_nodes::reach;
use graph_ast::{Mode, ModeWord, Quantifier, QuantifierKind, Selector, SelectorKind};
use pgq_base::Span;
use token_grammar::Halt;
use token_marks::Mark;
use token_reading::{Tokens, expect, next_is, number};

/// Whether a mode is next.
pub(crate) fn next_is_mode(tokens: &Tokens<'_>) -> bool
    ensures { result ≡ heads (on class starts_mode) tokens.now }
{
    next_is(tokens, Mark::Walk)
        || next_is(tokens, Mark::Trail)
        || next_is(tokens, Mark::Acyclic)
        || next_is(tokens, Mark::Simple)
}

#[tactic(auto, unfolding(crate::specs::Patterns::mode))]
fn mode(tokens: &mut Tokens<'_>) -> Result<ModeWord, Halt>
    ensures { Parses (reads flat mode tokens.old) result tokens.new }
{
    if next_is(tokens, Mark::Walk) {
        let span = expect(tokens, Mark::Walk)?;
        let mode = Mode::Walk;
        return Ok(ModeWord { mode, span });
    }
    if next_is(tokens, Mark::Trail) {
        let span = expect(tokens, Mark::Trail)?;
        let mode = Mode::Trail;
        return Ok(ModeWord { mode, span });
    }
    if next_is(tokens, Mark::Acyclic) {
        let span = expect(tokens, Mark::Acyclic)?;
        let mode = Mode::Acyclic;
        return Ok(ModeWord { mode, span });
    }
    let span = expect(tokens, Mark::Simple)?;
    let mode = Mode::Simple;
    Ok(ModeWord { mode, span })
}

#[tactic(auto, unfolding(crate::specs::Patterns::noun))]
fn skip_noun(tokens: &mut Tokens<'_>) -> Result<Option<Span>, Halt>
    ensures { Parses (reads flat (opt noun) tokens.old) result tokens.new }
{
    if next_is(tokens, Mark::Path) {
        let span = expect(tokens, Mark::Path)?;
        return Ok(Some(span));
    }
    if next_is(tokens, Mark::Paths) {
        let span = expect(tokens, Mark::Paths)?;
        return Ok(Some(span));
    }
    Ok(None)
}

/// A mode, and a noun that says nothing.
#[tactic(auto, unfolding(crate::specs::Patterns::mode_part))]
pub(crate) fn mode_part(tokens: &mut Tokens<'_>) -> Result<ModeWord, Halt>
    ensures { Parses (reads flat mode_part tokens.old) result tokens.new }
{
    let mode = mode(tokens)?;
    skip_noun(tokens)?;
    Ok(mode)
}

#[tactic(auto, unfolding(crate::specs::Patterns::mode_and_noun, crate::specs::Patterns::mode))]
fn mode_and_noun(tokens: &mut Tokens<'_>) -> Result<Option<ModeWord>, Halt>
    ensures { Parses (reads flat mode_and_noun tokens.old) result tokens.new }
{
    if next_is_mode(tokens) {
        let mode = mode(tokens)?;
        skip_noun(tokens)?;
        return Ok(Some(mode));
    }
    skip_noun(tokens)?;
    Ok(None)
}

#[tactic(auto, unfolding(crate::specs::Patterns::bounds))]
fn bounds(tokens: &mut Tokens<'_>) -> Result<QuantifierKind, Halt>
    ensures { Parses (reads flat bounds tokens.old) result tokens.new }
{
    if next_is(tokens, Mark::Number) {
        let lower = number(tokens)?;
        if !next_is(tokens, Mark::Comma) {
            return Ok(QuantifierKind::Between(lower.0, lower.0));
        }
        expect(tokens, Mark::Comma)?;
        if !next_is(tokens, Mark::Number) {
            return Ok(QuantifierKind::AtLeast(lower.0));
        }
        let upper = number(tokens)?;
        return Ok(QuantifierKind::Between(lower.0, upper.0));
    }
    expect(tokens, Mark::Comma)?;
    let upper = number(tokens)?;
    Ok(QuantifierKind::Between(0, upper.0))
}

/// Whether a quantifier is next.
pub(crate) fn next_is_quantifier(tokens: &Tokens<'_>) -> bool
    ensures { result ≡ heads (on class starts_quantifier) tokens.now }
{
    next_is(tokens, Mark::Asterisk)
        || next_is(tokens, Mark::Plus)
        || next_is(tokens, Mark::QuestionMark)
        || next_is(tokens, Mark::LeftBrace)
}

/// A quantifier.
#[tactic(auto, unfolding(crate::specs::Patterns::quantifier))]
pub(crate) fn quantifier(tokens: &mut Tokens<'_>) -> Result<Quantifier, Halt>
    ensures { Parses (reads flat quantifier tokens.old) result tokens.new }
{
    if next_is(tokens, Mark::Asterisk) {
        let span = expect(tokens, Mark::Asterisk)?;
        let kind = QuantifierKind::AtLeast(0);
        return Ok(Quantifier { kind, span });
    }
    if next_is(tokens, Mark::Plus) {
        let span = expect(tokens, Mark::Plus)?;
        let kind = QuantifierKind::AtLeast(1);
        return Ok(Quantifier { kind, span });
    }
    if next_is(tokens, Mark::QuestionMark) {
        let span = expect(tokens, Mark::QuestionMark)?;
        let kind = QuantifierKind::Optional;
        return Ok(Quantifier { kind, span });
    }
    let first = expect(tokens, Mark::LeftBrace)?;
    let kind = bounds(tokens)?;
    let last = expect(tokens, Mark::RightBrace)?;
    Ok(Quantifier {
        kind,
        span: reach(first, last),
    })
}

#[tactic(auto, unfolding(crate::specs::Patterns::kind_of_any))]
fn kind_of_any(tokens: &mut Tokens<'_>) -> Result<Selector, Halt>
    ensures { Parses (reads flat kind_of_any tokens.old) result tokens.new }
{
    if next_is(tokens, Mark::Shortest) {
        let span = expect(tokens, Mark::Shortest)?;
        let kind = SelectorKind::AnyShortest;
        return Ok(Selector { kind, span });
    }
    let count = number(tokens)?;
    Ok(Selector {
        kind: SelectorKind::AnyCount(count.0),
        span: count.1,
    })
}

fn prefix_of(kind: SelectorKind, span: Span, mode: Option<ModeWord>) -> Prefix
    ensures { result ≡ prefix_of kind span mode }
{
    Prefix {
        selector: Some(Selector { kind, span }),
        mode,
        from: span.from,
    }
}

#[tactic(auto, unfolding(crate::specs::Patterns::any_prefix, crate::specs::Patterns::kind_of_any))]
fn any_prefix(tokens: &mut Tokens<'_>) -> Result<Prefix, Halt>
    ensures { Parses (reads flat any_prefix tokens.old) result tokens.new }
{
    let word = expect(tokens, Mark::Any)?;
    if next_is(tokens, Mark::Shortest) || next_is(tokens, Mark::Number) {
        let any = kind_of_any(tokens)?;
        let mode = mode_and_noun(tokens)?;
        return Ok(prefix_of(any.kind, reach(word, any.span), mode));
    }
    let mode = mode_and_noun(tokens)?;
    Ok(prefix_of(SelectorKind::Any, word, mode))
}

#[tactic(auto, unfolding(crate::specs::Patterns::shortest_prefix))]
fn shortest_prefix(tokens: &mut Tokens<'_>) -> Result<Prefix, Halt>
    ensures { Parses (reads flat shortest_prefix tokens.old) result tokens.new }
{
    let word = expect(tokens, Mark::Shortest)?;
    let count = number(tokens)?;
    let mode = mode_and_noun(tokens)?;
    if next_is(tokens, Mark::Group) {
        let group = expect(tokens, Mark::Group)?;
        let kind = SelectorKind::ShortestGroup(count.0);
        return Ok(prefix_of(kind, reach(word, group), mode));
    }
    if next_is(tokens, Mark::Groups) {
        let group = expect(tokens, Mark::Groups)?;
        let kind = SelectorKind::ShortestGroup(count.0);
        return Ok(prefix_of(kind, reach(word, group), mode));
    }
    let kind = SelectorKind::Shortest(count.0);
    Ok(prefix_of(kind, reach(word, count.1), mode))
}

#[tactic(auto, unfolding(crate::specs::Patterns::all_prefix))]
fn all_prefix(tokens: &mut Tokens<'_>) -> Result<Prefix, Halt>
    ensures { Parses (reads flat all_prefix tokens.old) result tokens.new }
{
    let first = expect(tokens, Mark::All)?;
    let last = expect(tokens, Mark::Shortest)?;
    let mode = mode_and_noun(tokens)?;
    Ok(prefix_of(SelectorKind::AllShortest, reach(first, last), mode))
}

/// Whether a prefix is next.
pub(crate) fn next_is_prefix(tokens: &Tokens<'_>) -> bool
    ensures { result ≡ heads (on class starts_prefix) tokens.now }
{
    next_is_mode(tokens)
        || next_is(tokens, Mark::All)
        || next_is(tokens, Mark::Any)
        || next_is(tokens, Mark::Shortest)
}

/// What stands before the patterns of a path.
#[tactic(auto, unfolding(crate::specs::Patterns::prefix, crate::specs::Patterns::mode_part, crate::specs::Patterns::mode, crate::specs::Patterns::all_prefix, crate::specs::Patterns::any_prefix))]
pub(crate) fn prefix(tokens: &mut Tokens<'_>) -> Result<Prefix, Halt>
    ensures { Parses (reads flat prefix tokens.old) result tokens.new }
{
    if next_is_mode(tokens) {
        let mode = mode_part(tokens)?;
        let from = mode.span.from;
        return Ok(Prefix {
            selector: None,
            mode: Some(mode),
            from,
        });
    }
    if next_is(tokens, Mark::All) {
        return all_prefix(tokens);
    }
    if next_is(tokens, Mark::Any) {
        return any_prefix(tokens);
    }
    shortest_prefix(tokens)
}
