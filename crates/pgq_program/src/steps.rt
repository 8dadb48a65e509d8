ghost use Rattle.std.specs.Prelude.{◌≡◌, ℕ, ◌≤◌, ◌⊎◌, ◌++◌, IfSome, IfOk, IsErrOf, IsOkUnless, None, Some, Err, length, codes, decimal};
ghost use Rattle.graph_ast.specs.Catalogs.{IsValidCatalog};
ghost use Rattle.pgq_base.specs.Files.{IsAsked};
ghost use Rattle.query_lowering.specs.Translatable.{IsTranslatable};
ghost use Rattle.pgq_program.specs.Chains.{Only};
ghost use Rattle.pgq_program.specs.Commands.Asked.{OfTranslate, OfCheck, OfCheckQuery, OfSample};
ghost use Rattle.pgq_program.specs.Commands.{command_of, MayBeUsage};
ghost use Rattle.pgq_program.specs.Queries.{IsQueryRead};
ghost use Rattle.pgq_program.specs.Schemas.{IsRead};
ghost use Rattle.pgq_program.specs.Steps.{StepGives, StepWrites, HaltCause, text_at, Halted, IsCatalogAt, IsQueryAt, IsCheckedAt, IsTranslationIn, Owes};

use crate::evaluating::eval;
use crate::halt::Halt;
use crate::lines::put_number;
use crate::queries::read_checked;
use crate::running::run;
use crate::sampling::sample;
use crate::schemas::read_catalog;
use crate::texts::{TEXT_LIMIT, sql_text, too_large};
use crate::words::{Command, read_words};
use graph_ast::{Catalog, CheckedQuery};
use pgq_base::{List, LoadStop, NoMemory, Role, Shelf, Stop, Text, load};
use std::alloc::Global;

pub(crate) fn text_of<F: Shelf>(
    alloc: Global,
    files: &mut F,
    role: Role,
    name: &str,
) -> Result<List<u8>, Halt>
    requires { IsAsked name.now (F.words files.old) }
    ensures words { F.words files.new ≡ F.words files.old }
    ensures files { F.files files.new ≡ F.files files.old }
    ensures cause { HaltCause (F.faults files.old) (F.faults files.new) result }
    ensures told { IfSome (F.files files.old) (λ told. StepGives (Only (text_at role name.now told)) result) }
    ensures within { IfOk result (λ text. length text ≤ 1048576) }
    ensures never { IsErrOf result Halt.Usage → ⊥ }
{
    match load(alloc, files, name, TEXT_LIMIT) {
        Ok(text) => Ok(text),
        Err(LoadStop::Failed) => Err(Halt::ReadFault),
        Err(LoadStop::TooLong) => Err(Halt::Refused(too_large(role))),
        Err(LoadStop::NoMemory) => Err(Halt::NoMemory),
    }
}

fn catalog_in(alloc: Global, text: &[u8]) -> Result<Catalog, Halt>
    requires { length text.now ≤ 1048576 }
    ensures due { StepGives (Halted (IsRead text.now)) result }
    ensures valid { IfOk result (λ catalog. IsValidCatalog catalog) }
    ensures never { IsErrOf result Halt.Usage → ⊥ }
    ensures calm { IsErrOf result Halt.ReadFault → ⊥ }
{
    match read_catalog(alloc, text) {
        Ok(catalog) => Ok(catalog),
        Err(Stop::Refused(refusal)) => Err(Halt::Refused(refusal)),
        Err(Stop::NoMemory) => Err(Halt::NoMemory),
    }
}

pub(crate) fn catalog_of<F: Shelf>(
    alloc: Global,
    files: &mut F,
    name: &str,
) -> Result<Catalog, Halt>
    requires { IsAsked name.now (F.words files.old) }
    ensures words { F.words files.new ≡ F.words files.old }
    ensures files { F.files files.new ≡ F.files files.old }
    ensures cause { HaltCause (F.faults files.old) (F.faults files.new) result }
    ensures told { IfSome (F.files files.old) (λ told. StepGives (IsCatalogAt name.now told) result) }
    ensures valid { IfOk result (λ catalog. IsValidCatalog catalog) }
    ensures never { IsErrOf result Halt.Usage → ⊥ }
{
    let text = text_of(alloc, files, Role::Schema, name)?;
    catalog_in(alloc, text.as_slice())
}

fn check<F: Shelf>(alloc: Global, files: &mut F, schema: &str) -> Result<List<u8>, Halt>
    requires { IsAsked schema.now (F.words files.old) }
    ensures words { F.words files.new ≡ F.words files.old }
    ensures files { F.files files.new ≡ F.files files.old }
    ensures cause { HaltCause (F.faults files.old) (F.faults files.new) result }
    ensures never { IsErrOf result Halt.Usage → ⊥ }
    ensures told { IfSome (F.files files.old) (λ told. StepWrites (Owes (Some (OfCheck schema.now)) told) result) }
{
    let _ = catalog_of(alloc, files, schema)?;
    let mut text = List::new(alloc);
    text.extend(b"ok\n")?;
    Ok(text)
}

/// The query that a query text that is not too large stands for in a catalog.
pub(crate) fn query_in(alloc: Global, catalog: &Catalog, text: &[u8]) -> Result<CheckedQuery, Halt>
    requires small { length text.now ≤ 1048576 }
    requires valid { IsValidCatalog catalog.now }
    ensures due { StepGives (Halted (IsQueryRead catalog.now text.now)) result }
    ensures translatable { IfOk result (λ query. IsTranslatable catalog.now query) }
    ensures never { IsErrOf result Halt.Usage → ⊥ }
    ensures calm { IsErrOf result Halt.ReadFault → ⊥ }
{
    match read_checked(alloc, catalog, text) {
        Ok(query) => Ok(query),
        Err(Stop::Refused(refusal)) => Err(Halt::Refused(refusal)),
        Err(Stop::NoMemory) => Err(Halt::NoMemory),
    }
}

/// The query of the query file in a catalog.
pub(crate) fn query_at<F: Shelf>(
    alloc: Global,
    files: &mut F,
    catalog: &Catalog,
    name: &str,
) -> Result<CheckedQuery, Halt>
    requires asked { IsAsked name.now (F.words files.old) }
    requires valid { IsValidCatalog catalog.now }
    ensures words { F.words files.new ≡ F.words files.old }
    ensures files { F.files files.new ≡ F.files files.old }
    ensures cause { HaltCause (F.faults files.old) (F.faults files.new) result }
    ensures told { IfSome (F.files files.old) (λ told. StepGives (IsQueryAt catalog.now name.now told) result) }
    ensures translatable { IfOk result (λ query. IsTranslatable catalog.now query) }
    ensures never { IsErrOf result Halt.Usage → ⊥ }
{
    let text = text_of(alloc, files, Role::Query, name)?;
    query_in(alloc, catalog, text.as_slice())
}

// The query of the query text in the catalog of the schema text.
fn checked_of<F: Shelf>(
    alloc: Global,
    files: &mut F,
    schema: &str,
    query: &str,
) -> Result<CheckedQuery, Halt>
    requires schema { IsAsked schema.now (F.words files.old) }
    requires query { IsAsked query.now (F.words files.old) }
    ensures words { F.words files.new ≡ F.words files.old }
    ensures files { F.files files.new ≡ F.files files.old }
    ensures cause { HaltCause (F.faults files.old) (F.faults files.new) result }
    ensures told { IfSome (F.files files.old) (λ told. StepGives (IsCheckedAt schema.now query.now told) result) }
    ensures never { IsErrOf result Halt.Usage → ⊥ }
{
    let catalog = catalog_of(alloc, files, schema)?;
    query_at(alloc, files, &catalog, query)
}

// The text of the query file's query in a catalog.
fn translation<F: Shelf>(
    alloc: Global,
    files: &mut F,
    catalog: &Catalog,
    query: &str,
) -> Result<List<u8>, Halt>
    requires asked { IsAsked query.now (F.words files.old) }
    requires valid { IsValidCatalog catalog.now }
    ensures words { F.words files.new ≡ F.words files.old }
    ensures files { F.files files.new ≡ F.files files.old }
    ensures cause { HaltCause (F.faults files.old) (F.faults files.new) result }
    ensures never { IsErrOf result Halt.Usage → ⊥ }
    ensures told { IfSome (F.files files.old) (λ told. StepWrites (IsTranslationIn catalog.now query.now told) result) }
{
    let checked = query_at(alloc, files, catalog, query)?;
    Ok(sql_text(alloc, catalog, &checked)?)
}

fn translate<F: Shelf>(
    alloc: Global,
    files: &mut F,
    schema: &str,
    query: &str,
) -> Result<List<u8>, Halt>
    requires schema { IsAsked schema.now (F.words files.old) }
    requires query { IsAsked query.now (F.words files.old) }
    ensures words { F.words files.new ≡ F.words files.old }
    ensures files { F.files files.new ≡ F.files files.old }
    ensures cause { HaltCause (F.faults files.old) (F.faults files.new) result }
    ensures never { IsErrOf result Halt.Usage → ⊥ }
    ensures told { IfSome (F.files files.old) (λ told. StepWrites (Owes (Some (OfTranslate schema.now query.now)) told) result) }
{
    let catalog = catalog_of(alloc, files, schema)?;
    translation(alloc, files, &catalog, query)
}

fn weight_line(alloc: Global, weight: u64) -> Result<List<u8>, NoMemory>
    ensures { IfOk result (λ text. text ≡ codes "ok, weight " ++ decimal weight ++ codes "\n") }
{
    let mut text = List::new(alloc);
    text.extend(b"ok, weight ")?;
    put_number(alloc, &mut text, weight)?;
    text.extend(b"\n")?;
    Ok(text)
}

fn check_with_query<F: Shelf>(
    alloc: Global,
    files: &mut F,
    schema: &str,
    query: &str,
) -> Result<List<u8>, Halt>
    requires schema { IsAsked schema.now (F.words files.old) }
    requires query { IsAsked query.now (F.words files.old) }
    ensures words { F.words files.new ≡ F.words files.old }
    ensures files { F.files files.new ≡ F.files files.old }
    ensures cause { HaltCause (F.faults files.old) (F.faults files.new) result }
    ensures never { IsErrOf result Halt.Usage → ⊥ }
    ensures told { IfSome (F.files files.old) (λ told. StepWrites (Owes (Some (OfCheckQuery schema.now query.now)) told) result) }
{
    let checked = checked_of(alloc, files, schema, query)?;
    Ok(weight_line(alloc, checked.weight)?)
}

/// The text that the words ask for.
pub(crate) fn answer<F: Shelf>(
    alloc: Global,
    words: &[Text],
    files: &mut F,
) -> Result<List<u8>, Halt>
    requires { F.words files.old ≡ words.now }
    ensures words { F.words files.new ≡ F.words files.old }
    ensures files { F.files files.new ≡ F.files files.old }
    ensures cause { HaltCause (F.faults files.old) (F.faults files.new) result }
    ensures told { IfSome (F.files files.old) (λ told. StepWrites (Owes (command_of words.now) told) result) }
    ensures usage { command_of words.now ≡ None → (result ≡ Err Halt.Usage) ⊎ (result ≡ Err Halt.NoMemory) }
    ensures asked { IsErrOf result Halt.Usage → MayBeUsage (command_of words.now) }
    ensures sampled { (n : ℕ) → command_of words.now ≡ Some (OfSample n) → IsOkUnless result Halt.NoMemory }
{
    match read_words(alloc, words)? {
        None => Err(Halt::Usage),
        Some(Command::Translate(schema, query)) => translate(alloc, files, schema, query),
        Some(Command::Check(schema)) => check(alloc, files, schema),
        Some(Command::CheckQuery(schema, query)) => check_with_query(alloc, files, schema, query),
        Some(Command::Run(schema, query, tables)) => {
            run(alloc, files, schema, query, tables.as_slice())
        }
        Some(Command::Eval(schema, sql, tables)) => {
            eval(alloc, files, schema, sql, tables.as_slice())
        }
        Some(Command::Sample(count)) => sample(alloc, count),
    }
}
