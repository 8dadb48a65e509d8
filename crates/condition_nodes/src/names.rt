ghost use Rattle.std.specs.Prelude.{◌≡◌, ◌<◌, true, OnOk};
ghost use Rattle.token_grammar.specs.Rules.{on};
ghost use Rattle.token_grammar.specs.Parser.{heads, one_p};
ghost use Rattle.token_grammar.specs.Code.{Parses};
ghost use Rattle.token_marks.specs.Marks.{number_of};
ghost use Rattle.token_reading.specs.Tokens.{class, named, is_name, is_mark};
ghost use Rattle.condition_grammar.specs.Classes.{is_undated};
ghost use Rattle.condition_nodes.specs.Reading.{open_p};

use graph_ast::Named;
use pgq_base::Span;
use std::alloc::Global;
use token_grammar::Halt;
use token_marks::Mark;
use token_reading::{TOO_DEEP, Tokens, UNEXPECTED, expect, name, next_is, next_is_name};

/// `(`, where so many more may be opened. Where none may, it is too deep.
pub fn open(tokens: &mut Tokens<'_>, depth: u8) -> Result<Span, Halt>
    ensures read { Parses (open_p depth tokens.old) result tokens.new }
    ensures within { OnOk result (0 < depth) }
{
    if depth != 0 {
        return expect(tokens, Mark::LeftParenthesis);
    }
    if next_is(tokens, Mark::LeftParenthesis) {
        return Err(TOO_DEEP);
    }
    Err(UNEXPECTED)
}

/// Whether a name other than the bare word DATE is next.
pub fn next_is_undated(tokens: &Tokens<'_>) -> bool
    ensures { result ≡ heads (on class is_undated) tokens.now }
{
    next_is_name(tokens) && !next_is(tokens, Mark::Date)
}

/// A name other than the bare word DATE.
pub fn undated_name(alloc: Global, tokens: &mut Tokens<'_>) -> Result<Named, Halt>
    ensures { Parses (one_p (on class is_undated) named tokens.old) result tokens.new }
{
    if !next_is_undated(tokens) {
        return Err(UNEXPECTED);
    }
    name(alloc, tokens)
}

/// The bare word of the mark, as a name.
pub fn word_of(alloc: Global, tokens: &mut Tokens<'_>, wanted: Mark) -> Result<Named, Halt>
    requires { is_name (number_of wanted) ≡ true }
    ensures { Parses (one_p (is_mark wanted) named tokens.old) result tokens.new }
{
    if !next_is(tokens, wanted) {
        return Err(UNEXPECTED);
    }
    name(alloc, tokens)
}
