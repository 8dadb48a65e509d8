ghost use Rattle.std.specs.Prelude.{◌≡◌, ℕ, List as Sequence, Result, length, IfOk, OnOk, IfErr};
ghost use Rattle.std.specs.List.{AllByRecursion};
ghost use Rattle.sql_lexer.specs.declared.token.Token.{Token as Lexeme};
ghost use Rattle.pgq_base.specs.declared.refusal.Refusal.{Refusal as AnyRefusal};
ghost use Rattle.pgq_base.specs.Answers.{Gives};
ghost use Rattle.sql_lexer.specs.Spans.{TokensLieIn, RefusalLiesIn};
ghost use Rattle.sql_lexer.specs.Texts.{AreTokens, AreInOrder};
ghost use Rattle.graph_ast.specs.declared.query.QueryTree.{QueryTree as Tree};
ghost use Rattle.graph_ast.specs.Patterns.{IsJoined};
ghost use Rattle.graph_ast.specs.Spans.{LiesIn};
ghost use Rattle.token_grammar.specs.Parser.{finish};
ghost use Rattle.token_grammar.specs.Code.{Parses};
ghost use Rattle.pattern_parser.specs.Queries.{query};
ghost use Rattle.pattern_parser.specs.Reading.{reads, at_depth};
ghost use Rattle.graph_ast.specs.QuerySpans.{EachSpanHas};
ghost use Rattle.pattern_parser.specs.Outcomes.{SpellsQuery, IsShallow, IsFirstFault, IfRefused, IsOutcome};

use crate::queries::query;
use graph_ast::QueryTree;
use pgq_base::{Detail, Refusal, Role, Stop};
use sql_lexer::Token;
use std::alloc::Global;
use token_grammar::{Cursor, Halt};
use token_reading::{Tokens, UNEXPECTED, code_for, span_at};

fn whole(alloc: Global, tokens: &mut Tokens<'_>) -> Result<QueryTree, Halt>
    ensures { Parses (finish (reads (at_depth 64) query tokens.old)) result tokens.new }
{
    let tree = query(alloc, tokens)?;
    if tokens.count() == 0 {
        Ok(tree)
    } else {
        Err(UNEXPECTED)
    }
}

/// The tree of a query text that has these tokens and is `end` bytes long. `end` is not less than the
/// end of the last token.
///
/// The tree's spans are those of the tokens: where these stand in order and end by the text's end, as
/// those that `lex` answers do, the tree's lie in the text, and each of its unions has one joint less than operands. Where the tokens are no query text, or one
/// with more than 64 open parentheses and square brackets together, the refusal is 201 or 801, of role
/// `Query`, at the first fault: 201 stands at the first token such that no query text begins with the
/// tokens up to it, and at the text's end where all of them begin one; 801 stands at a bracket that may
/// follow there and would be the 65th open one. Want of memory may be answered at any time. The grammar is that of the
/// pattern queries of SQL/PGQ (ISO/IEC 9075-16), cut down; the codes and the limit are this project's own.
pub fn parse_query(alloc: Global, tokens: &[Token], end: u32) -> Result<QueryTree, Stop>
    ensures ok { IfOk result (λ tree. SpellsQuery tokens.now tree) }
    ensures shallow { OnOk result (IsShallow tokens.now) }
    ensures due { (due : Result Tree AnyRefusal) → IsOutcome tokens.now end due → Gives due result }
    ensures refused { IfErr result (λ stop. IfRefused stop (IsFirstFault tokens.now end)) }
    ensures in_text { TokensLieIn end tokens.now → IfErr result (RefusalLiesIn end) }
    ensures spans { AreInOrder 0 end tokens.now → IfOk result (EachSpanHas (LiesIn end)) }
    ensures joined { AreInOrder 0 end tokens.now → IfOk result (λ tree. AllByRecursion IsJoined tree.paths) }
{
    let mut left = Cursor::new(tokens);
    match whole(alloc, &mut left) {
        Ok(tree) => Ok(tree),
        Err(Stop::NoMemory) => Err(Stop::NoMemory),
        Err(Stop::Refused(cause)) => {
            let place = tokens.len() - left.count();
            Err(Stop::Refused(Refusal {
                role: Role::Query,
                span: span_at(tokens, place, end),
                code: code_for(cause),
                detail: Detail::Nothing,
            }))
        }
    }
}

/// A law: tokens spell one query tree at most, whatever the depth of their brackets.
pub fn one_tree()
    ensures { (tokens : Sequence Lexeme) (a b : Tree) → SpellsQuery tokens a → SpellsQuery tokens b → a ≡ b }
{}

/// A law: reading the tokens of a text has one outcome, a tree or the refusal of one fault.
pub fn one_outcome()
    ensures one { (tokens : Sequence Lexeme) (end : ℕ) (a b : Result Tree AnyRefusal) → IsOutcome tokens end a → IsOutcome tokens end b → a ≡ b }
    ensures some { (tokens : Sequence Lexeme) (end : ℕ) → (due : Result Tree AnyRefusal) × IsOutcome tokens end due }
{}

/// A law: the spans of a query text's tree lie in the text.
pub fn tree_in_text()
    ensures { (text : Sequence ℕ) (tokens : Sequence Lexeme) (tree : Tree) → AreTokens text tokens → SpellsQuery tokens tree → EachSpanHas (LiesIn (length text)) tree }
{}
