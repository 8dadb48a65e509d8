ghost use Rattle.std.specs.Prelude.{◌≡◌, None, Some, IfOk, IfErr};
ghost use Rattle.graph_ast.specs.Catalogs.{IsValidCatalog};
ghost use Rattle.query_lowering.specs.Translatable.{IsTranslatable};
ghost use Rattle.sql_lexer.specs.Texts.{refusal};
ghost use Rattle.pgq_program.specs.Meaning.{Means};
ghost use Rattle.pgq_program.specs.Places.{StopNamesPart, of_role};
ghost use Rattle.pgq_program.specs.Texts.{IsSchemaDue, IsQueryDue, IsTextsDue, MeansDue, IsStopOf, GivesDue};

use crate::queries::read_checked;
use crate::schemas::read_catalog;
use graph_ast::{Catalog, CheckedQuery};
use pgq_base::{Code, Detail, List, NoMemory, Refusal, Role, Span, Stop};
use query_lowering::lower;
use sql_algebra::{layout_means, one_meaning};
use sql_printer::print;
use std::alloc::Global;

/// The greatest size of a schema, query or SQL text, in bytes.
pub(crate) const TEXT_LIMIT: u64 = 1_048_576;

/// A text that is too large, refused as a whole.
pub(crate) fn too_large(role: Role) -> Refusal
    ensures { result ≡ refusal role Code.TextTooLarge (record { from = 0; to = 0 }) }
{
    Refusal {
        role,
        span: Span { from: 0, to: 0 },
        code: Code::TextTooLarge,
        detail: Detail::Nothing,
    }
}

pub(crate) fn catalog_in(alloc: Global, schema: &[u8]) -> Result<Catalog, Stop>
    ensures due { GivesDue (IsSchemaDue schema.now) result }
    ensures valid { IfOk result (λ catalog. IsValidCatalog catalog) }
{
    if schema.len() as u64 > TEXT_LIMIT {
        return Err(Stop::Refused(too_large(Role::Schema)));
    }
    read_catalog(alloc, schema)
}

pub(crate) fn query_in(alloc: Global, catalog: &Catalog, query: &[u8]) -> Result<CheckedQuery, Stop>
    requires { IsValidCatalog catalog.now }
    ensures due { GivesDue (IsQueryDue catalog.now query.now) result }
    ensures translatable { IfOk result (λ query. IsTranslatable catalog.now query) }
{
    if query.len() as u64 > TEXT_LIMIT {
        return Err(Stop::Refused(too_large(Role::Query)));
    }
    read_checked(alloc, catalog, query)
}

/// Some text that means the query in its catalog.
pub(crate) fn sql_text(
    alloc: Global,
    catalog: &Catalog,
    query: &CheckedQuery,
) -> Result<List<u8>, NoMemory>
    requires { IsTranslatable catalog.now query.now }
    ensures { IfOk result (λ text. Means catalog.now query.now text) }
{
    layout_means();
    one_meaning();
    let sql = lower(alloc, catalog, query)?;
    print(alloc, &sql)
}

/// The SQL text that means the query of the query text over the tables of the schema text: the query's column names and,
/// for every instance that fits, the rows of the answer over the view, each equally often. The text means one SQL query.
///
/// The refusal is the first fault of the schema text, or else of the query text. Of one text these come in this order: more
/// than 1,048,576 bytes is refused by `TextTooLarge`; then come its tokens, its grammar and its rules, the codes of `lex`,
/// `parse_schema` and `check_schema`, and of `lex`, `parse_query` and `check_query`. A query text of a form that is not
/// served yet is refused by `Unexpected` as a whole, between its grammar and its rules. A refusal names a part of the text
/// of its role. Want of memory may come instead.
pub fn translate_texts(alloc: Global, schema: &[u8], query: &[u8]) -> Result<List<u8>, Stop>
    ensures means { IfOk result (λ text. MeansDue (IsTextsDue schema.now query.now) text) }
    ensures refused { IfErr result (λ stop. IsStopOf (IsTextsDue schema.now query.now) stop) }
    ensures in_text { IfErr result (StopNamesPart (of_role (Some schema.now) (Some query.now) None)) }
{
    text_over(alloc, schema, query)
}

fn text_over(alloc: Global, schema: &[u8], query: &[u8]) -> Result<List<u8>, Stop>
    ensures means { IfOk result (λ text. MeansDue (IsTextsDue schema.now query.now) text) }
    ensures refused { IfErr result (λ stop. IsStopOf (IsTextsDue schema.now query.now) stop) }
{
    let catalog = catalog_in(alloc, schema)?;
    let query = query_in(alloc, &catalog, query)?;
    Ok(sql_text(alloc, &catalog, &query)?)
}
