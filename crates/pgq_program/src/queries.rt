ghost use Rattle.std.specs.Prelude.{◌≡◌, ◌≤◌, length, IfOk, IfErr};
ghost use Rattle.std.specs.List.{AllByRecursion};
ghost use Rattle.graph_ast.specs.Catalogs.{IsValidCatalog};
ghost use Rattle.graph_ast.specs.Patterns.{IsJoined};
ghost use Rattle.query_lowering.specs.Translatable.{IsTranslatable};
ghost use Rattle.sql_lexer.specs.Spans.{RefusalLiesIn};
ghost use Rattle.pgq_program.specs.Queries.{not_served, IsJudged, IsQueryRead};
ghost use Rattle.pgq_program.specs.Texts.{GivesDue};

use graph_ast::{Catalog, CheckedQuery, QueryTree};
use pattern_check::{check_query, is_served};
use pattern_parser::parse_query;
use pgq_base::{Code, Detail, Refusal, Role, Span, Stop};
use plain_queries::makes_translatable;
use sql_lexer::lex;
use std::alloc::Global;

fn not_served() -> Refusal
    ensures { result ≡ not_served }
{
    Refusal {
        role: Role::Query,
        span: Span { from: 0, to: 0 },
        code: Code::Unexpected,
        detail: Detail::Nothing,
    }
}

fn judge(alloc: Global, catalog: &Catalog, tree: &QueryTree) -> Result<CheckedQuery, Stop>
    requires valid { IsValidCatalog catalog.now }
    requires joined { AllByRecursion IsJoined tree.now.paths }
    ensures { GivesDue (IsJudged catalog.now tree.now) result }
{
    if !is_served(tree) {
        return Err(Stop::Refused(not_served()));
    }
    check_query(alloc, catalog, tree)
}

/// The query that a query text that is not too large stands for in a catalog. It can be written as SQL, and a refusal
/// names a part of the text.
pub(crate) fn read_checked(
    alloc: Global,
    catalog: &Catalog,
    text: &[u8],
) -> Result<CheckedQuery, Stop>
    requires small { length text.now ≤ 1048576 }
    requires valid { IsValidCatalog catalog.now }
    ensures due { GivesDue (IsQueryRead catalog.now text.now) result }
    ensures translatable { IfOk result (λ query. IsTranslatable catalog.now query) }
    ensures in_text { IfErr result (RefusalLiesIn (length text.now)) }
{
    makes_translatable();
    let tokens = lex(alloc, text, Role::Query)?;
    let tree = parse_query(alloc, tokens.as_slice(), text.len() as u32)?;
    judge(alloc, catalog, &tree)
}
