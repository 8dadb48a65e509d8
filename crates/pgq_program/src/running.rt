ghost use Rattle.std.specs.Prelude.{◌≡◌, ◌<◌, ◌≤◌, IfSome, IfOk, IsErrOf, Some, [], length, All};
ghost use Rattle.csv_tables.specs.Constraints.{instance_rows};
ghost use Rattle.graph_ast.specs.Catalogs.{IsValidCatalog};
ghost use Rattle.graph_ast.specs.Fits.{Fits};
ghost use Rattle.graph_meaning.specs.Answers.{names};
ghost use Rattle.pgq_base.specs.Files.{IsAsked};
ghost use Rattle.query_lowering.specs.Translatable.{IsTranslatable};
ghost use Rattle.table_words.specs.declared.word.TableWord.{TableWord as WordOf};
ghost use Rattle.pgq_program.specs.Commands.Asked.{OfRun};
ghost use Rattle.pgq_program.specs.Halts.{halting};
ghost use Rattle.pgq_program.specs.Rows.{WritesTable};
ghost use Rattle.pgq_program.specs.Running.{answer_due, GivesRows};
ghost use Rattle.pgq_program.specs.Steps.{StepWrites, HaltCause, answer_at, IsAnswerAt, Owes};

use crate::evaluating::{instance_at, places_of};
use crate::evaluation::{rows_of, table_of};
use crate::halt::Halt;
use crate::steps::{catalog_of, query_at};
use csv_tables::one_table_text;
use graph_ast::{Catalog, CheckedQuery};
use pgq_base::{Instance, List, Role, Rows, Shelf};
use query_lowering::lower;
use std::alloc::Global;
use table_words::TableWord;

/// The rows of a query's answer over an instance that fits, in some order. More than 1,000,000 are refused.
pub(crate) fn answer_rows(
    alloc: Global,
    catalog: &Catalog,
    query: &CheckedQuery,
    instance: &Instance,
) -> Result<Rows, Halt>
    requires translatable { IsTranslatable catalog.now query.now }
    requires fits { Fits catalog.now (instance_rows instance.now) }
    ensures { GivesRows (halting (answer_due catalog.now query.now (instance_rows instance.now))) result }
{
    let sql = lower(alloc, catalog, query)?;
    rows_of(alloc, Role::Query, catalog, &sql, instance)
}

/// The table text of a query's answer over an instance that fits. The text of a table does not show the order of its rows.
pub(crate) fn answer_table(
    alloc: Global,
    catalog: &Catalog,
    query: &CheckedQuery,
    instance: &Instance,
) -> Result<List<u8>, Halt>
    requires translatable { IsTranslatable catalog.now query.now }
    requires fits { Fits catalog.now (instance_rows instance.now) }
    ensures told { WritesTable (names query.now) (halting (answer_due catalog.now query.now (instance_rows instance.now))) result }
    ensures never { IsErrOf result Halt.Usage → ⊥ }
    ensures calm { IsErrOf result Halt.ReadFault → ⊥ }
{
    one_table_text();
    let sql = lower(alloc, catalog, query)?;
    table_of(alloc, Role::Query, catalog, &sql, instance)
}

// The table text of a query's answer over the tables that the words name.
fn answer_at<F: Shelf>(
    alloc: Global,
    files: &mut F,
    catalog: &Catalog,
    query: &CheckedQuery,
    words: &[TableWord],
    places: &[u32],
) -> Result<List<u8>, Halt>
    requires translatable { IsTranslatable catalog.now query.now }
    requires asked { All (λ (word : WordOf). IsAsked word.file (F.words files.old)) words.now }
    requires each { length places.now ≡ length words.now }
    requires within { All (λ place. place < length catalog.now.tables) places.now }
    ensures words { F.words files.new ≡ F.words files.old }
    ensures files { F.files files.new ≡ F.files files.old }
    ensures cause { HaltCause (F.faults files.old) (F.faults files.new) result }
    ensures told { IfSome (F.files files.old) (λ told. WritesTable (names query.now) (answer_at catalog.now query.now words.now places.now told) result) }
    ensures never { IsErrOf result Halt.Usage → ⊥ }
{
    let instance = instance_at(alloc, files, catalog, words, places)?;
    answer_table(alloc, catalog, query, &instance)
}

// The query file, and then the tables' files.
fn answer_by<F: Shelf>(
    alloc: Global,
    files: &mut F,
    catalog: &Catalog,
    words: &[TableWord],
    places: &[u32],
    query: &str,
) -> Result<List<u8>, Halt>
    requires valid { IsValidCatalog catalog.now }
    requires query { IsAsked query.now (F.words files.old) }
    requires asked { All (λ (word : WordOf). IsAsked word.file (F.words files.old)) words.now }
    requires each { length places.now ≡ length words.now }
    requires within { All (λ place. place < length catalog.now.tables) places.now }
    ensures words { F.words files.new ≡ F.words files.old }
    ensures files { F.files files.new ≡ F.files files.old }
    ensures cause { HaltCause (F.faults files.old) (F.faults files.new) result }
    ensures told { IfSome (F.files files.old) (λ told. StepWrites (IsAnswerAt catalog.now words.now places.now query.now told) result) }
    ensures never { IsErrOf result Halt.Usage → ⊥ }
{
    let checked = query_at(alloc, files, catalog, query)?;
    answer_at(alloc, files, catalog, &checked, words, places)
}

/// The table text of a query's answer over the view of the tables that the words name.
pub(crate) fn run<F: Shelf>(
    alloc: Global,
    files: &mut F,
    schema: &str,
    query: &str,
    tables: &[TableWord],
) -> Result<List<u8>, Halt>
    requires schema { IsAsked schema.now (F.words files.old) }
    requires query { IsAsked query.now (F.words files.old) }
    requires tables { All (λ (word : WordOf). IsAsked word.file (F.words files.old)) tables.now }
    ensures words { F.words files.new ≡ F.words files.old }
    ensures files { F.files files.new ≡ F.files files.old }
    ensures cause { HaltCause (F.faults files.old) (F.faults files.new) result }
    ensures told { IfSome (F.files files.old) (λ told. StepWrites (Owes (Some (OfRun schema.now query.now tables.now)) told) result) }
    ensures never { tables.now ≡ [] → IsErrOf result Halt.Usage → ⊥ }
{
    let catalog = catalog_of(alloc, files, schema)?;
    let places = places_of(alloc, &catalog, tables)?;
    answer_by(alloc, files, &catalog, tables, places.as_slice(), query)
}
