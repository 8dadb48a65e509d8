ghost use Rattle.std.specs.Prelude.{◌≡◌, IfOk};
ghost use Rattle.table_words.specs.TableWords.{name_of, name_alone, Names};

use pgq_base::{Name, NoMemory, Role, Stop};
use sql_lexer::{Kind, Token, lex};
use std::alloc::Global;

// A name has at most 128 bytes, each of which may be a doubled quote, between two quotes.
const MOST_IDENTIFIER_BYTES: usize = 258;

// The name of a bare or a delimited name. A reserved word is none.
fn name_of(alloc: Global, kind: &Kind) -> Result<Option<Name>, NoMemory>
    ensures { IfOk result (λ name. name ≡ name_of kind.now) }
{
    match kind {
        Kind::Word(name) => Ok(Some(name.copy(alloc)?)),
        Kind::Delimited(name) => Ok(Some(name.copy(alloc)?)),
        _ => Ok(None),
    }
}

// The name of the one token of a text of that many bytes, if it stands on all of them.
fn name_alone(alloc: Global, tokens: &[Token], len: usize) -> Result<Option<Name>, NoMemory>
    ensures { IfOk result (λ name. name ≡ name_alone len tokens.now) }
{
    match tokens {
        [token] if token.span.from == 0 && token.span.to as usize == len => {
            name_of(alloc, &token.kind)
        }
        _ => Ok(None),
    }
}

/// The name of a text that is one identifier, with nothing before or behind it.
pub fn identifier(alloc: Global, text: &[u8]) -> Result<Option<Name>, NoMemory>
    ensures { IfOk result (Names text.now) }
{
    if text.len() > MOST_IDENTIFIER_BYTES {
        return Ok(None);
    }
    match lex(alloc, text, Role::Table) {
        Ok(tokens) => name_alone(alloc, tokens.as_slice(), text.len()),
        Err(Stop::Refused(_)) => Ok(None),
        Err(Stop::NoMemory) => Err(NoMemory),
    }
}
