ghost use Rattle.std.specs.Prelude.{◌≤◌, length, IfErr, IfOk};
ghost use Rattle.graph_ast.specs.Catalogs.{IsValidCatalog};
ghost use Rattle.sql_lexer.specs.Spans.{RefusalLiesIn};
ghost use Rattle.pgq_program.specs.Schemas.{IsRead};
ghost use Rattle.pgq_program.specs.Texts.{GivesDue};

use graph_ast::Catalog;
use pgq_base::{Role, Stop};
use schema_parser::parse_schema;
use sql_lexer::lex;
use std::alloc::Global;
use view_check::check_schema;

/// The catalog of a schema text that is not too large. It is valid, and a refusal names a part of the text.
pub(crate) fn read_catalog(alloc: Global, text: &[u8]) -> Result<Catalog, Stop>
    requires { length text.now ≤ 1048576 }
    ensures due { GivesDue (IsRead text.now) result }
    ensures in_text { IfErr result (RefusalLiesIn (length text.now)) }
    ensures valid { IfOk result (λ catalog. IsValidCatalog catalog) }
{
    let tokens = lex(alloc, text, Role::Schema)?;
    let tree = parse_schema(alloc, tokens.as_slice(), text.len() as u32)?;
    check_schema(alloc, &tree)
}
