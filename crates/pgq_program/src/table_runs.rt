ghost use Rattle.std.specs.Prelude.{◌≡◌, ◌<◌, All, IfErr, None, Ok, Some, length};
ghost use Rattle.graph_ast.specs.declared.catalog.Catalog.{Catalog as ACatalog};
ghost use Rattle.query_lowering.specs.Translatable.{IsTranslatable};
ghost use Rattle.pgq_program.specs.Places.{StopNamesPart, of_role};
ghost use Rattle.pgq_program.specs.TableRuns.{stopped, IsRunDue, IsTableDue};
ghost use Rattle.pgq_program.specs.Texts.{GivesDue, IsSchemaDue};

use crate::halt::Halt;
use crate::running::answer_table;
use crate::texts::{catalog_in, query_in};
use graph_ast::{Catalog, CheckedQuery};
use pgq_base::{List, Stop};
use std::alloc::Global;
use table_files::{TableText, instance_of};

// What halts a run that reads no file and no words is a refusal or want of memory.
fn stopped(answer: Result<List<u8>, Halt>) -> Result<List<u8>, Stop>
    ensures { result ≡ stopped answer }
{
    match answer {
        Ok(text) => Ok(text),
        Err(Halt::Refused(refusal)) => Err(Stop::Refused(refusal)),
        Err(_) => Err(Stop::NoMemory),
    }
}

// The table text of a query's answer over the instance that some texts give.
fn table_over(
    alloc: Global,
    catalog: &Catalog,
    query: &CheckedQuery,
    tables: &[TableText],
) -> Result<List<u8>, Stop>
    requires translatable { IsTranslatable catalog.now query.now }
    requires places { All (λ text. text.table < length catalog.now.tables) tables.now }
    ensures { GivesDue (IsTableDue catalog.now query.now tables.now) result }
{
    let instance = instance_of(alloc, catalog, tables)?;
    stopped(answer_table(alloc, catalog, query, &instance))
}

fn run_over(
    alloc: Global,
    schema: &[u8],
    query: &[u8],
    tables: &[TableText],
) -> Result<List<u8>, Stop>
    requires { (catalog : ACatalog) → IsSchemaDue schema.now (Ok catalog) → All (λ text. text.table < length catalog.tables) tables.now }
    ensures { GivesDue (IsRunDue schema.now query.now tables.now) result }
{
    let catalog = catalog_in(alloc, schema)?;
    let query = query_in(alloc, &catalog, query)?;
    table_over(alloc, &catalog, &query, tables)
}

/// The table text of the rows of a query's answer over the tables of the schema text, each with the rows of its own text; a
/// table without a text is empty. Each text names a table by its place where the schema text is without faults.
///
/// The refusal is the first fault of the schema text, or else of the query text, as `translate_texts` has it. Then come the
/// tables' texts in their order: 907 where they have more than 67,108,864 bytes together, or else 901 to 904; the keys and
/// references of their rows, 905 and 906; and 908 where the answer has more than 1,000,000 rows. Want of memory may come
/// instead.
pub fn run_texts(
    alloc: Global,
    schema: &[u8],
    query: &[u8],
    tables: &[TableText],
) -> Result<List<u8>, Stop>
    requires { (catalog : ACatalog) → IsSchemaDue schema.now (Ok catalog) → All (λ text. text.table < length catalog.tables) tables.now }
    ensures due { GivesDue (IsRunDue schema.now query.now tables.now) result }
    ensures in_text { IfErr result (StopNamesPart (of_role (Some schema.now) (Some query.now) None)) }
{
    run_over(alloc, schema, query, tables)
}
