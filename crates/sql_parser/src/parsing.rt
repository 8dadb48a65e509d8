ghost use Rattle.std.specs.Prelude.{◌≡◌, ℕ, List as Sequence, Result, IfOk, OnOk, IfErr};
ghost use Rattle.sql_lexer.specs.declared.token.Token.{Token as Lexeme};
ghost use Rattle.pgq_base.specs.declared.refusal.Refusal.{Refusal as AnyRefusal};
ghost use Rattle.pgq_base.specs.Answers.{Gives};
ghost use Rattle.sql_lexer.specs.Spans.{TokensLieIn, RefusalLiesIn};
ghost use Rattle.sql_lexer.specs.Texts.{AreInOrder};
ghost use Rattle.sql_algebra.specs.declared.text.SqlText.{SqlText as Text};
ghost use Rattle.sql_algebra.specs.Grammar.{sql};
ghost use Rattle.token_grammar.specs.Parser.{finish};
ghost use Rattle.token_grammar.specs.Code.{Parses};
ghost use Rattle.sql_parser.specs.Reading.{reads, at_depth};
ghost use Rattle.sql_parser.specs.Spans.{SpansLieIn};
ghost use Rattle.sql_parser.specs.Outcomes.{SpellsSql, IsShallow, IsFirstFault, IfRefused, IsOutcome};

use crate::selects::sql;
use pgq_base::{Detail, Refusal, Role, Stop};
use sql_algebra::SqlText;
use sql_lexer::Token;
use std::alloc::Global;
use token_grammar::{Cursor, Halt};
use token_reading::{Tokens, UNEXPECTED, code_for, span_at};

fn whole(alloc: Global, tokens: &mut Tokens<'_>) -> Result<SqlText, Halt>
    ensures { Parses (finish (reads (at_depth 128) sql tokens.old)) result tokens.new }
{
    let text = sql(alloc, tokens)?;
    if tokens.count() == 0 {
        Ok(text)
    } else {
        Err(UNEXPECTED)
    }
}

/// The tree of an SQL text that has these tokens and is `end` bytes long. `end` is not less than the end
/// of the last token. Whether its names, classes and tables stand in a catalog is not looked at.
///
/// The tree's spans are those of the tokens: where these stand in order and end by the text's end, as
/// those that `lex` answers do, the tree's lie in the text. Where the tokens are no SQL text, or one with more than 128
/// open parentheses, the refusal is 201 or 801, of role `Sql`, at the first fault: 201 stands at the
/// first token such that no SQL text begins with the tokens up to it, and at the text's end where all of
/// them begin one; 801 stands at a parenthesis that may follow there and would be the 129th open one.
/// Want of memory may be answered at any time. The grammar is a part of the SQL standard's; its codes
/// and its limit are this project's own.
pub fn parse_sql(alloc: Global, tokens: &[Token], end: u32) -> Result<SqlText, Stop>
    ensures ok { IfOk result (λ text. SpellsSql tokens.now text) }
    ensures shallow { OnOk result (IsShallow tokens.now) }
    ensures due { (due : Result Text AnyRefusal) → IsOutcome tokens.now end due → Gives due result }
    ensures refused { IfErr result (λ stop. IfRefused stop (IsFirstFault tokens.now end)) }
    ensures in_text { TokensLieIn end tokens.now → IfErr result (RefusalLiesIn end) }
    ensures spans { AreInOrder 0 end tokens.now → IfOk result (SpansLieIn end) }
{
    let mut left = Cursor::new(tokens);
    match whole(alloc, &mut left) {
        Ok(text) => Ok(text),
        Err(Stop::NoMemory) => Err(Stop::NoMemory),
        Err(Stop::Refused(cause)) => {
            let place = tokens.len() - left.count();
            Err(Stop::Refused(Refusal {
                role: Role::Sql,
                span: span_at(tokens, place, end),
                code: code_for(cause),
                detail: Detail::Nothing,
            }))
        }
    }
}

/// A law: tokens spell one SQL text's tree at most, whatever the depth of their parentheses.
pub fn one_tree()
    ensures { (tokens : Sequence Lexeme) (a b : Text) → SpellsSql tokens a → SpellsSql tokens b → a ≡ b }
{}

/// A law: reading the tokens of a text has one outcome, a tree or the refusal of one fault.
pub fn one_outcome()
    ensures one { (tokens : Sequence Lexeme) (end : ℕ) (a b : Result Text AnyRefusal) → IsOutcome tokens end a → IsOutcome tokens end b → a ≡ b }
    ensures some { (tokens : Sequence Lexeme) (end : ℕ) → (due : Result Text AnyRefusal) × IsOutcome tokens end due }
{}
