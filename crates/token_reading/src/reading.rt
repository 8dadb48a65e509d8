ghost use Rattle.std.specs.Prelude.{◌≡◌, option_copied};
ghost use Rattle.token_grammar.specs.Rules.{on};
ghost use Rattle.token_grammar.specs.Parser.{heads, one_p, mapped_p, blocked_p};
ghost use Rattle.token_grammar.specs.Code.{Parses};
ghost use Rattle.token_marks.specs.declared.mark.Mark.TheVariants as m;
ghost use Rattle.token_reading.specs.Tokens.{class, is_mark, is_name, is_word, span_of, named, name_bytes, word_bytes, small_number, number_at};

use graph_ast::Named;
use pgq_base::{Name, Span, Stop};
use sql_lexer::{Kind, Token};
use std::alloc::Global;
use token_grammar::{Cause, Cursor, Halt};
use token_marks::{Mark, mark_of};

/// The tokens that are left.
pub type Tokens<'a> = Cursor<'a, Token>;

/// No sentence goes on with the next token, or ends here.
pub const UNEXPECTED: Halt = Stop::Refused(Cause::Unexpected);

/// One bracket too many would be open.
pub const TOO_DEEP: Halt = Stop::Refused(Cause::TooDeep);

/// The class of a token: the number of its mark.
#[tactic(auto, unfolding(crate::specs::Tokens::class))]
pub fn class_of(token: &Token) -> u8
    ensures { result ≡ class token.now }
{
    mark_of(token).number()
}

/// Whether the next token has the mark.
pub fn next_is(tokens: &Tokens<'_>, wanted: Mark) -> bool
    ensures { result ≡ heads (is_mark wanted) tokens.now }
{
    match tokens.next() {
        Some(token) => class_of(token) == wanted.number(),
        None => false,
    }
}

/// Goes past the next token, which has to have the mark, and answers where it stands. Another one, or
/// none, is not expected.
pub fn expect(tokens: &mut Tokens<'_>, wanted: Mark) -> Result<Span, Halt>
    ensures { Parses (one_p (is_mark wanted) span_of tokens.old) result tokens.new }
{
    let Some(token) = tokens.next() else {
        return Err(UNEXPECTED);
    };
    if class_of(token) != wanted.number() {
        return Err(UNEXPECTED);
    }
    let span = token.span;
    tokens.skip();
    Ok(span)
}

/// The fault where brackets with the mark may stand, but no more may be opened.
pub fn blocked(tokens: &Tokens<'_>, wanted: Mark) -> Halt
    ensures { Parses (blocked_p {A = Unit {0}} (is_mark wanted) tokens.now) (Err result) tokens.now }
{
    if next_is(tokens, wanted) {
        TOO_DEEP
    } else {
        UNEXPECTED
    }
}

fn name_in(kind: &Kind) -> Option<&Name>
    ensures { option_copied result ≡ name_bytes kind.now }
{
    match kind {
        Kind::Word(name) => Some(name),
        Kind::Delimited(name) => Some(name),
        _ => None,
    }
}

fn word_in(kind: &Kind) -> Option<&Name>
    ensures { option_copied result ≡ word_bytes kind.now }
{
    match kind {
        Kind::Word(name) => Some(name),
        _ => None,
    }
}

/// A bare word or a delimited name.
pub fn name(alloc: Global, tokens: &mut Tokens<'_>) -> Result<Named, Halt>
    ensures { Parses (one_p (on class is_name) named tokens.old) result tokens.new }
{
    let Some(token) = tokens.next() else {
        return Err(UNEXPECTED);
    };
    let Some(bytes) = name_in(&token.kind) else {
        return Err(UNEXPECTED);
    };
    let name = bytes.copy(alloc)?;
    let span = token.span;
    tokens.skip();
    Ok(Named { name, span })
}

/// Whether the next token is a bare word or a delimited name.
pub fn next_is_name(tokens: &Tokens<'_>) -> bool
    ensures { result ≡ heads (on class is_name) tokens.now }
{
    let Some(token) = tokens.next() else {
        return false;
    };
    match name_in(&token.kind) {
        Some(_) => true,
        None => false,
    }
}

/// A name whose bytes are not wanted.
pub fn skip_name(tokens: &mut Tokens<'_>) -> Result<(), Halt>
    ensures { Parses (mapped_p (λ d. tt) (one_p (on class is_name) named) tokens.old) result tokens.new }
{
    let Some(token) = tokens.next() else {
        return Err(UNEXPECTED);
    };
    let Some(_) = name_in(&token.kind) else {
        return Err(UNEXPECTED);
    };
    tokens.skip();
    Ok(())
}

/// A bare word.
pub fn word(alloc: Global, tokens: &mut Tokens<'_>) -> Result<Named, Halt>
    ensures { Parses (one_p (on class is_word) named tokens.old) result tokens.new }
{
    let Some(token) = tokens.next() else {
        return Err(UNEXPECTED);
    };
    let Some(bytes) = word_in(&token.kind) else {
        return Err(UNEXPECTED);
    };
    let name = bytes.copy(alloc)?;
    let span = token.span;
    tokens.skip();
    Ok(Named { name, span })
}

/// Whether the next token is a bare word.
pub fn next_is_word(tokens: &Tokens<'_>) -> bool
    ensures { result ≡ heads (on class is_word) tokens.now }
{
    let Some(token) = tokens.next() else {
        return false;
    };
    match word_in(&token.kind) {
        Some(_) => true,
        None => false,
    }
}

fn number_in(kind: &Kind) -> Option<u64>
    ensures { result ≡ small_number kind.now }
{
    match kind {
        Kind::Number(n) if *n < 9223372036854775808 => Some(*n),
        _ => None,
    }
}

/// A number below 2^63, and where it stands.
pub fn number(tokens: &mut Tokens<'_>) -> Result<(u64, Span), Halt>
    ensures { Parses (one_p (is_mark m.Number) number_at tokens.old) result tokens.new }
{
    let Some(token) = tokens.next() else {
        return Err(UNEXPECTED);
    };
    let Some(number) = number_in(&token.kind) else {
        return Err(UNEXPECTED);
    };
    let span = token.span;
    tokens.skip();
    Ok((number, span))
}
