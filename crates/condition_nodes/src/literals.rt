ghost use Rattle.std.specs.Prelude.{◌≡◌, ◌≤◌, ◌^◌, true, false, cond, option_copied, Some as Just};
ghost use Rattle.civil_dates.specs.Texts.{is_date_text};
ghost use Rattle.pgq_base.specs.declared.value.Value.TheVariants.{Text as TextValue};
ghost use Rattle.token_grammar.specs.Rules.{on, the_token};
ghost use Rattle.token_grammar.specs.Checks.{first};
ghost use Rattle.token_grammar.specs.Parser.{heads, one_p, mapped_p};
ghost use Rattle.token_grammar.specs.Code.{Parses};
ghost use Rattle.token_reading.specs.Tokens.{class};
ghost use Rattle.condition_grammar.specs.Classes.{is_numeral, is_negatable, is_text, is_date_literal};
ghost use Rattle.condition_grammar.specs.Spans.{literal, reach};
ghost use Rattle.condition_grammar.specs.Dates.{date_value};
ghost use Rattle.condition_grammar.specs.Conditions.{negative, literal_of, text_in};
ghost use Rattle.condition_nodes.specs.Reading.{reads_flat};
ghost use Rattle.condition_nodes.specs.Literals.{literals, plain_value, negated_value, literal_text, literal_date};

use crate::nodes::{lone, reach};
use civil_dates::date_of_text;
use condition_grammar::Spanned;
use expr_tree::Expr;
use pgq_base::{Span, Text, Value};
use sql_lexer::Kind;
use std::alloc::Global;
use token_grammar::Halt;
use token_marks::Mark;
use token_reading::{Tokens, UNEXPECTED, expect, next_is};

fn plain_value(kind: &Kind) -> Option<Value>
    ensures { result ≡ plain_value kind.now }
{
    match kind {
        Kind::Number(n) if *n < 9223372036854775808 => Some(Value::Number(*n as i64)),
        Kind::Decimal(size) => Some(size.value(false)),
        _ => None,
    }
}

fn negative(n: u64) -> i64
    requires { n ≤ 2 ^ 63 }
    ensures { result ≡ negative n }
{
    if n == 0 {
        return 0;
    }
    let less = n - 1;
    -(less as i64) - 1
}

fn negated_value(kind: &Kind) -> Option<Value>
    ensures { result ≡ negated_value kind.now }
{
    match kind {
        Kind::Number(n) if *n <= 9223372036854775808 => Some(Value::Number(negative(*n))),
        Kind::Decimal(size) => Some(size.value(true)),
        _ => None,
    }
}

fn literal_text(kind: &Kind) -> Option<&Text>
    ensures { option_copied result ≡ literal_text kind.now }
{
    match kind {
        Kind::Literal(text) => Some(text),
        _ => None,
    }
}

fn text_date(text: &Text) -> Option<Value>
    ensures { result ≡ cond (is_date_text text.now) (Just (date_value text.now)) None }
{
    match date_of_text(text.as_text().as_bytes()) {
        Some(date) => Some(Value::Date(date)),
        None => None,
    }
}

fn literal_date(kind: &Kind) -> Option<Value>
    ensures { result ≡ literal_date kind.now }
{
    match kind {
        Kind::Literal(text) => text_date(text),
        _ => None,
    }
}

// A number or a decimal.
fn numeral<L: Drop>(alloc: Global, tokens: &mut Tokens<'_>) -> Result<Spanned<L>, Halt>
    ensures { Parses (one_p (on class is_numeral) (λ t. literal {L = L} t.span (literal_of false t.kind)) tokens.old) result tokens.new }
{
    let Some(token) = tokens.next() else {
        return Err(UNEXPECTED);
    };
    let Some(value) = plain_value(&token.kind) else {
        return Err(UNEXPECTED);
    };
    let literal = lone(alloc, token.span, Expr::Lit(value))?;
    tokens.skip();
    Ok(literal)
}

// What may stand behind a minus: its value there, and where it stands.
fn negated_numeral(tokens: &mut Tokens<'_>) -> Result<(Value, Span), Halt>
    ensures { Parses (mapped_p (λ t. (literal_of true t.kind, t.span)) (one_p (on class is_negatable) the_token) tokens.old) result tokens.new }
{
    let Some(token) = tokens.next() else {
        return Err(UNEXPECTED);
    };
    let Some(value) = negated_value(&token.kind) else {
        return Err(UNEXPECTED);
    };
    let span = token.span;
    tokens.skip();
    Ok((value, span))
}

fn text<L: Drop>(alloc: Global, tokens: &mut Tokens<'_>) -> Result<Spanned<L>, Halt>
    ensures { Parses (one_p (on class is_text) (λ t. literal {L = L} t.span (TextValue (text_in t.kind))) tokens.old) result tokens.new }
{
    let Some(token) = tokens.next() else {
        return Err(UNEXPECTED);
    };
    let Some(content) = literal_text(&token.kind) else {
        return Err(UNEXPECTED);
    };
    let value = Value::Text(content.copy(alloc)?);
    let literal = lone(alloc, token.span, Expr::Lit(value))?;
    tokens.skip();
    Ok(literal)
}

fn next_is_numeral(tokens: &Tokens<'_>) -> bool
    ensures { result ≡ heads (on class is_numeral) tokens.now }
{
    next_is(tokens, Mark::Number) || next_is(tokens, Mark::Decimal)
}

fn next_is_text(tokens: &Tokens<'_>) -> bool
    ensures { result ≡ heads (on class is_text) tokens.now }
{
    next_is(tokens, Mark::Literal) || next_is(tokens, Mark::DateLiteral)
}

/// Whether a literal is next, but for one of a date.
#[tactic(auto, unfolding(condition_grammar::specs::Conditions::literals))]
pub fn next_is_literal(tokens: &Tokens<'_>) -> bool
    ensures { result ≡ heads (on class (first (literals (Unit {0})))) tokens.now }
{
    next_is_numeral(tokens)
        || next_is(tokens, Mark::Minus)
        || next_is_text(tokens)
        || next_is(tokens, Mark::True)
        || next_is(tokens, Mark::False)
}

/// A literal, but for one of a date.
#[tactic(auto, unfolding(condition_grammar::specs::Conditions::literals))]
pub fn literal<L: Drop>(alloc: Global, tokens: &mut Tokens<'_>) -> Result<Spanned<L>, Halt>
    ensures { Parses (reads_flat (literals L) tokens.old) result tokens.new }
{
    if next_is_numeral(tokens) {
        return numeral(alloc, tokens);
    }
    if next_is(tokens, Mark::Minus) {
        let minus = expect(tokens, Mark::Minus)?;
        let number = negated_numeral(tokens)?;
        let span = reach(minus, number.1);
        return Ok(lone(alloc, span, Expr::Lit(number.0))?);
    }
    if next_is_text(tokens) {
        return text(alloc, tokens);
    }
    if next_is(tokens, Mark::True) {
        let span = expect(tokens, Mark::True)?;
        return Ok(lone(alloc, span, Expr::Lit(Value::Truth(true)))?);
    }
    let span = expect(tokens, Mark::False)?;
    Ok(lone(alloc, span, Expr::Lit(Value::Truth(false)))?)
}

/// The literal of a date, behind the word DATE that stands at the span.
pub fn date_text<L: Drop>(
    alloc: Global,
    tokens: &mut Tokens<'_>,
    word: Span,
) -> Result<Spanned<L>, Halt>
    ensures { Parses (one_p (on class is_date_literal) (λ t. literal {L = L} (reach word t.span) (date_value (text_in t.kind))) tokens.old) result tokens.new }
{
    let Some(token) = tokens.next() else {
        return Err(UNEXPECTED);
    };
    let Some(value) = literal_date(&token.kind) else {
        return Err(UNEXPECTED);
    };
    let span = reach(word, token.span);
    let literal = lone(alloc, span, Expr::Lit(value))?;
    tokens.skip();
    Ok(literal)
}
