ghost use Rattle.std.specs.Prelude.{◌≡◌, ℕ, ◌≤◌, length, Result, IfOk, IfErr, Ok, Err, ◌⊎◌};
ghost use Rattle.pgq_base.specs.Answers.{Gives};
ghost use Rattle.pgq_base.specs.declared.refusal.Refusal.{Refusal as AnyRefusal};
ghost use Rattle.sql_algebra.specs.declared.tree.SqlQuery.{SqlQuery as Query};
ghost use Rattle.sql_lexer.specs.Spans.{RefusalLiesIn};
ghost use Rattle.sql_lexer.specs.Texts.{AreInOrder};
ghost use Rattle.sql_algebra.specs.Meaning.{names_of};
ghost use Rattle.sql_algebra.specs.Meant.{SpellsQuery};
ghost use Rattle.sql_algebra.specs.Soundness.{IsSound};
ghost use Rattle.sql_parser.specs.Outcomes.{IfRefused, IsFirstFault, IsShallow};
ghost use Rattle.sql_reader.specs.Reading.{IsRead, IsAnswer};
ghost use Rattle.sql_reader.specs.Shapes.{AreSized};

use crate::judging::judge_text;
use graph_ast::Catalog;
use pgq_base::Stop;
use sql_algebra::SqlQuery;
use sql_lexer::Token;
use sql_parser::parse_sql;
use std::alloc::Global;

/// The query that the tokens of an SQL text spell in a catalog. The text is `end` bytes long, which is not less than the
/// end of the last token.
///
/// Where the tokens are no SQL text, or one with more than 128 open parentheses, the refusal is that of `parse_sql`; else,
/// where the rules on names and classes give a fault, that of `judge_text`. The answer that is due is given, or want of
/// memory, which may come at any time. The query is sound in the catalog and has a column, where the decimals among the tokens are sizes, and
/// the refusal lies in the text, where the tokens stand in order and end by the text's end, as those that `lex` answers do.
pub fn read_sql(
    alloc: Global,
    tokens: &[Token],
    end: u32,
    catalog: &Catalog,
) -> Result<SqlQuery, Stop>
    ensures ok { IfOk result (λ query. IsRead tokens.now catalog.now (Ok query)) }
    ensures refused { IfErr result (λ stop. IfRefused stop (λ refusal. IsFirstFault tokens.now end refusal ⊎ IsRead tokens.now catalog.now (Err refusal))) }
    ensures due { (due : Result Query AnyRefusal) → IsAnswer tokens.now end catalog.now due → Gives due result }
    ensures sound { AreSized tokens.now → IfOk result (λ query. IsSound query catalog.now) }
    ensures columns { AreSized tokens.now → IfOk result (λ query. 1 ≤ length (names_of query)) }

    // It is the one sound query that the tokens spell.
    ensures spelled { IfOk result (λ query. SpellsQuery tokens.now query) }
    ensures complete { (query : Query) → SpellsQuery tokens.now query → IsSound query catalog.now → IsShallow tokens.now → Gives (Ok query) result }

    ensures in_text { AreInOrder 0 end tokens.now → IfErr result (RefusalLiesIn end) }
{
    match parse_sql(alloc, tokens, end) {
        Ok(text) => judge_text(alloc, &text, catalog),
        Err(stop) => Err(stop),
    }
}
