ghost use Rattle.std.specs.Prelude.{◌≡◌, slice_get};
ghost use Rattle.token_reading.specs.Refusals.{span_at, code_for};

use pgq_base::{Code, Span};
use sql_lexer::Token;
use token_grammar::Cause;

/// The code by which tokens are refused for that cause.
pub fn code_for(cause: Cause) -> Code
    ensures { result ≡ code_for cause }
{
    match cause {
        Cause::Unexpected => Code::Unexpected,
        Cause::TooDeep => Code::TooDeep,
    }
}

/// The span of the token at that place, or the end of the text, which is `end` bytes long.
pub fn span_at(tokens: &[Token], place: usize, end: u32) -> Span
    ensures { result ≡ span_at end (slice_get tokens.now place) }
{
    match tokens.get(place) {
        Some(token) => token.span,
        None => Span { from: end, to: end },
    }
}
