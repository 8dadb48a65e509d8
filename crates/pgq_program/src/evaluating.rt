ghost use Rattle.std.specs.Prelude.{◌≡◌, ◌<◌, ◌≤◌, IfSome, IfOk, IsErrOf, Some, [], length, All};
ghost use Rattle.csv_tables.specs.Constraints.{instance_rows};
ghost use Rattle.csv_tables.specs.Outcomes.{seen};
ghost use Rattle.graph_ast.specs.Catalogs.{IsValidCatalog};
ghost use Rattle.graph_ast.specs.Fits.{Fits};
ghost use Rattle.pgq_base.specs.Files.{IsAsked};
ghost use Rattle.sql_algebra.specs.Meaning.{names_of};
ghost use Rattle.sql_algebra.specs.Soundness.{IsSound};
ghost use Rattle.table_files.specs.TablePlaces.{table_places};
ghost use Rattle.table_loads.specs.Loads.{instance_at};
ghost use Rattle.table_words.specs.declared.word.TableWord.{TableWord as WordOf};
ghost use Rattle.pgq_program.specs.Chains.{Only};
ghost use Rattle.pgq_program.specs.Commands.Asked.{OfEval};
ghost use Rattle.pgq_program.specs.Halts.{tables_halting, places_or};
ghost use Rattle.pgq_program.specs.Rows.{IsSqlRead, WritesTable};
ghost use Rattle.pgq_program.specs.Steps.{StepGives, StepWrites, HaltCause, Halted, IsSqlAt, rows_at, IsTableAt, Owes};

use crate::evaluation::{read_query_text, table_of};
use crate::halt::Halt;
use crate::steps::{catalog_of, text_of};
use graph_ast::Catalog;
use pgq_base::{Instance, List, Role, Shelf, Stop};
use sql_algebra::SqlQuery;
use std::alloc::Global;
use table_files::table_places;
use table_loads::{TablesStop, load_instance};
use table_words::TableWord;

fn query_in(alloc: Global, catalog: &Catalog, text: &[u8]) -> Result<SqlQuery, Halt>
    requires { length text.now ≤ 1048576 }
    ensures due { StepGives (Halted (IsSqlRead catalog.now text.now)) result }
    ensures sound { IfOk result (λ query. IsSound query catalog.now) }
    ensures columns { IfOk result (λ query. 1 ≤ length (names_of query)) }
    ensures never { IsErrOf result Halt.Usage → ⊥ }
    ensures calm { IsErrOf result Halt.ReadFault → ⊥ }
{
    match read_query_text(alloc, catalog, text) {
        Ok(query) => Ok(query),
        Err(Stop::Refused(refusal)) => Err(Halt::Refused(refusal)),
        Err(Stop::NoMemory) => Err(Halt::NoMemory),
    }
}

fn query_at<F: Shelf>(
    alloc: Global,
    files: &mut F,
    catalog: &Catalog,
    name: &str,
) -> Result<SqlQuery, Halt>
    requires { IsAsked name.now (F.words files.old) }
    ensures words { F.words files.new ≡ F.words files.old }
    ensures files { F.files files.new ≡ F.files files.old }
    ensures cause { HaltCause (F.faults files.old) (F.faults files.new) result }
    ensures told { IfSome (F.files files.old) (λ told. StepGives (IsSqlAt catalog.now name.now told) result) }
    ensures sound { IfOk result (λ query. IsSound query catalog.now) }
    ensures columns { IfOk result (λ query. 1 ≤ length (names_of query)) }
    ensures never { IsErrOf result Halt.Usage → ⊥ }
{
    let text = text_of(alloc, files, Role::Sql, name)?;
    query_in(alloc, catalog, text.as_slice())
}

/// The instance of the tables that the words name.
pub(crate) fn instance_at<F: Shelf>(
    alloc: Global,
    files: &mut F,
    catalog: &Catalog,
    words: &[TableWord],
    places: &[u32],
) -> Result<Instance, Halt>
    requires valid { IsValidCatalog catalog.now }
    requires asked { All (λ (word : WordOf). IsAsked word.file (F.words files.old)) words.now }
    requires each { length places.now ≡ length words.now }
    requires within { All (λ place. place < length catalog.now.tables) places.now }
    ensures words { F.words files.new ≡ F.words files.old }
    ensures files { F.files files.new ≡ F.files files.old }
    ensures cause { HaltCause (F.faults files.old) (F.faults files.new) result }
    ensures told { IfSome (F.files files.old) (λ told. StepGives (Only (tables_halting (instance_at catalog.now told words.now places.now))) (seen instance_rows result)) }
    ensures fits { IfOk result (λ instance. Fits catalog.now (instance_rows instance)) }
    ensures never { IsErrOf result Halt.Usage → ⊥ }
{
    match load_instance(alloc, files, catalog, words, places) {
        Ok(instance) => Ok(instance),
        Err(TablesStop::Refused(refusal)) => Err(Halt::Refused(refusal)),
        Err(TablesStop::ReadFault) => Err(Halt::ReadFault),
        Err(TablesStop::NoMemory) => Err(Halt::NoMemory),
    }
}

// The table text of a query over the tables that the words name.
fn table_at<F: Shelf>(
    alloc: Global,
    files: &mut F,
    catalog: &Catalog,
    query: &SqlQuery,
    words: &[TableWord],
    places: &[u32],
) -> Result<List<u8>, Halt>
    requires valid { IsValidCatalog catalog.now }
    requires asked { All (λ (word : WordOf). IsAsked word.file (F.words files.old)) words.now }
    requires each { length places.now ≡ length words.now }
    requires within { All (λ place. place < length catalog.now.tables) places.now }
    requires sound { IsSound query.now catalog.now }
    requires columns { 1 ≤ length (names_of query.now) }
    ensures words { F.words files.new ≡ F.words files.old }
    ensures files { F.files files.new ≡ F.files files.old }
    ensures cause { HaltCause (F.faults files.old) (F.faults files.new) result }
    ensures told { IfSome (F.files files.old) (λ told. WritesTable (names_of query.now) (rows_at catalog.now query.now words.now places.now told) result) }
    ensures never { IsErrOf result Halt.Usage → ⊥ }
{
    let instance = instance_at(alloc, files, catalog, words, places)?;
    table_of(alloc, Role::Sql, catalog, query, &instance)
}

// The SQL file, and then the tables' files.
fn table_by<F: Shelf>(
    alloc: Global,
    files: &mut F,
    catalog: &Catalog,
    words: &[TableWord],
    places: &[u32],
    sql: &str,
) -> Result<List<u8>, Halt>
    requires valid { IsValidCatalog catalog.now }
    requires sql { IsAsked sql.now (F.words files.old) }
    requires asked { All (λ (word : WordOf). IsAsked word.file (F.words files.old)) words.now }
    requires each { length places.now ≡ length words.now }
    requires within { All (λ place. place < length catalog.now.tables) places.now }
    ensures words { F.words files.new ≡ F.words files.old }
    ensures files { F.files files.new ≡ F.files files.old }
    ensures cause { HaltCause (F.faults files.old) (F.faults files.new) result }
    ensures told { IfSome (F.files files.old) (λ told. StepWrites (IsTableAt catalog.now words.now places.now sql.now told) result) }
    ensures never { IsErrOf result Halt.Usage → ⊥ }
{
    let query = query_at(alloc, files, catalog, sql)?;
    table_at(alloc, files, catalog, &query, words, places)
}

/// The places of the tables that the words name; Usage where one is unknown or stands twice.
pub(crate) fn places_of(
    alloc: Global,
    catalog: &Catalog,
    words: &[TableWord],
) -> Result<List<u32>, Halt>
    requires { IsValidCatalog catalog.now }
    ensures told { StepGives (Only (places_or (table_places catalog.now words.now))) result }
    ensures each { IfOk result (λ places. length places ≡ length words.now) }
    ensures within { IfOk result (All (λ place. place < length catalog.now.tables)) }
    ensures calm { IsErrOf result Halt.ReadFault → ⊥ }
    ensures never { words.now ≡ [] → IsErrOf result Halt.Usage → ⊥ }
{
    match table_places(alloc, catalog, words)? {
        Some(places) => Ok(places),
        None => Err(Halt::Usage),
    }
}

/// The table text of an SQL text over the tables that the words name.
pub(crate) fn eval<F: Shelf>(
    alloc: Global,
    files: &mut F,
    schema: &str,
    sql: &str,
    tables: &[TableWord],
) -> Result<List<u8>, Halt>
    requires schema { IsAsked schema.now (F.words files.old) }
    requires sql { IsAsked sql.now (F.words files.old) }
    requires tables { All (λ (word : WordOf). IsAsked word.file (F.words files.old)) tables.now }
    ensures words { F.words files.new ≡ F.words files.old }
    ensures files { F.files files.new ≡ F.files files.old }
    ensures cause { HaltCause (F.faults files.old) (F.faults files.new) result }
    ensures told { IfSome (F.files files.old) (λ told. StepWrites (Owes (Some (OfEval schema.now sql.now tables.now)) told) result) }
    ensures never { tables.now ≡ [] → IsErrOf result Halt.Usage → ⊥ }
{
    let catalog = catalog_of(alloc, files, schema)?;
    let places = places_of(alloc, &catalog, tables)?;
    table_by(alloc, files, &catalog, tables, places.as_slice(), sql)
}
