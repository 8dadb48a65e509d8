ghost use Rattle.std.specs.Prelude.{◌≡◌, ℕ, Bool, List as Sequence};
ghost use Rattle.sql_lexer.specs.declared.token.Token.{Token as Lexeme};
ghost use Rattle.token_grammar.specs.Parser.{Answer, heads};
ghost use Rattle.token_grammar.specs.Code.{Parses};
ghost use Rattle.sql_parser.specs.Lists.{reads_list};

use pgq_base::List;
use std::alloc::Global;
use token_grammar::Halt;
use token_reading::Tokens;

/// What stands in lists: a first one, and others that each begin with a word or symbol of their own.
pub(crate) trait Listed: Sized + Drop {
    /// The parser of the first one, where so many parentheses may be opened.
    ghost first: { ℕ → Sequence Lexeme → Answer Lexeme Self };

    /// What another one begins with.
    ghost begins: { Lexeme → Bool };

    /// The parser of another one.
    ghost another: { ℕ → Sequence Lexeme → Answer Lexeme Self };

    /// Reads the first one.
    fn read_first(alloc: Global, tokens: &mut Tokens<'_>, depth: u8) -> Result<Self, Halt>
        ensures { Parses (first depth tokens.old) result tokens.new };

    /// Whether another one is next.
    fn another_is_next(tokens: &Tokens<'_>) -> bool
        ensures { result ≡ heads begins tokens.now };

    /// Reads another one.
    fn read_another(alloc: Global, tokens: &mut Tokens<'_>, depth: u8) -> Result<Self, Halt>
        ensures { Parses (another depth tokens.old) result tokens.new };
}

/// One or more.
pub(crate) fn list<I: Listed>(
    alloc: Global,
    tokens: &mut Tokens<'_>,
    depth: u8,
) -> Result<List<I>, Halt>
    ensures { Parses (reads_list (I.first depth) I.begins (I.another depth) tokens.old) result tokens.new }
{
    let first = I::read_first(alloc, tokens, depth)?;
    let mut all = List::new(alloc);
    all.push(first)?;
    for turn in 0..tokens.count() {
        if !I::another_is_next(tokens) {
            break;
        }
        let item = I::read_another(alloc, tokens, depth)?;
        all.push(item)?;
    }
    Ok(all)
}
