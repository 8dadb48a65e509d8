ghost use Rattle.std.specs.Prelude.{◌≤◌, length, IfOk, IfErr};
ghost use Rattle.sql_lexer.specs.Spans.{RefusalLiesIn};
ghost use Rattle.graph_ast.specs.Catalogs.{IsValidCatalog};

use graph_ast::Catalog;
use pgq_base::{Role, Stop};
use schema_parser::parse_schema;
use sql_lexer::lex;
use std::alloc::Global;
use view_check::check_schema;

/// The catalog of a schema text of at most 1,048,576 bytes, by the public contracts of the layers alone.
///
/// The catalog is valid, whatever the text. A refusal, of a piece, of the grammar or of a rule, names a
/// part of the text. Want of memory may be answered at any time.
pub fn catalog_of_text(alloc: Global, text: &[u8]) -> Result<Catalog, Stop>
    requires { length text.now ≤ 1048576 }
    ensures valid { IfOk result IsValidCatalog }
    ensures in_text { IfErr result (RefusalLiesIn (length text.now)) }
{
    let tokens = lex(alloc, text, Role::Schema)?;
    let tree = parse_schema(alloc, tokens.as_slice(), text.len() as u32)?;
    check_schema(alloc, &tree)
}
