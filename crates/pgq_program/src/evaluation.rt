ghost use Rattle.std.specs.Prelude.{◌≡◌, ◌≤◌, ◌<◌, IfOk, IfErr, IsErrOf, length, map, All};
ghost use Rattle.csv_tables.specs.Constraints.{instance_rows};
ghost use Rattle.csv_tables.specs.Outcomes.{seen, rows_of};
ghost use Rattle.graph_ast.specs.Catalogs.{IsValidCatalog};
ghost use Rattle.graph_ast.specs.Fits.{Fits};
ghost use Rattle.sql_algebra.specs.Meaning.{names_of, bag};
ghost use Rattle.sql_algebra.specs.Soundness.{IsSound};
ghost use Rattle.sql_lexer.specs.Spans.{RefusalLiesIn};
ghost use Rattle.row_eval.specs.declared.evaluator.EvalStop.TheVariants.{TooManyRows as IsTooMany};
ghost use Rattle.row_eval.specs.Stored.{row_values, stored};
ghost use Rattle.row_eval.specs.Typed.{MeetsTypes};
ghost use Rattle.pgq_program.specs.Chains.{Only};
ghost use Rattle.pgq_program.specs.Halts.{halting};
ghost use Rattle.pgq_program.specs.Rows.{IsSqlRead, too_many, rows_due, WritesTable};
ghost use Rattle.pgq_program.specs.Steps.{StepGives};
ghost use Rattle.pgq_program.specs.Texts.{GivesDue};

use crate::halt::Halt;
use csv_tables::write_rows;
use graph_ast::Catalog;
use pgq_base::{Code, Detail, Instance, List, Name, NoMemory, Refusal, Role, Rows, Span, Stop};
use row_eval::{EvalStop, Steps, evaluate};
use sql_algebra::{SelectColumn, SqlQuery};
use sql_lexer::lex;
use sql_reader::{lexed_are_sized, read_sql};
use std::alloc::Global;
use std::marker::Brand;
use std::sync::ledger::{Blank, Ledger};

/// The query that an SQL text that is not too large stands for in a catalog. It is sound and has a column; a refusal names
/// a part of the text.
pub(crate) fn read_query_text(
    alloc: Global,
    catalog: &Catalog,
    text: &[u8],
) -> Result<SqlQuery, Stop>
    requires { length text.now ≤ 1048576 }
    ensures due { GivesDue (IsSqlRead catalog.now text.now) result }
    ensures sound { IfOk result (λ query. IsSound query catalog.now) }
    ensures columns { IfOk result (λ query. 1 ≤ length (names_of query)) }
    ensures in_text { IfErr result (RefusalLiesIn (length text.now)) }
{
    let tokens = lex(alloc, text, Role::Sql)?;
    lexed_are_sized();
    read_sql(alloc, tokens.as_slice(), text.len() as u32, catalog)
}

fn names_in(alloc: Global, columns: &[SelectColumn]) -> Result<List<Name>, NoMemory>
    ensures { IfOk result (λ names. names ≡ map (λ column. column.name) columns.now) }
{
    let mut names = List::new(alloc);
    for column in columns {
        names.push(column.name.copy(alloc)?)?;
    }
    Ok(names)
}

// The names of a query's columns: those of its first select.
fn column_names(alloc: Global, query: &SqlQuery) -> Result<List<Name>, NoMemory>
    ensures { IfOk result (λ names. names ≡ names_of query.now) }
{
    match query.selects.as_slice() {
        [select, ..] => names_in(alloc, select.columns.as_slice()),
        [] => Ok(List::new(alloc)),
    }
}

// The rows of the query, whose reads are counted in a book of their own.
fn counted<L: Ledger>(
    alloc: Global,
    blank: Blank,
    query: &SqlQuery,
    catalog: &Catalog,
    instance: &Instance,
) -> Result<Rows, EvalStop>
    requires name { blank.name ≡ L.name }
    requires parts { blank.parts ≡ L.parts }
    requires one { blank.parts ≡ 1 }
    requires sound { IsSound query.now catalog.now }
    requires meets { MeetsTypes catalog.now (stored instance.now) }
    ensures rows { IfOk result (λ r. row_values r.rows ≡ bag catalog.now query.now (stored instance.now)) }
    ensures few { IfOk result (λ r. length (bag catalog.now query.now (stored instance.now)) ≤ 1000000) }
    ensures too_many { IsErrOf result IsTooMany → 1000000 < length (bag catalog.now query.now (stored instance.now)) }
{
    let (book, share) = blank.open::<L>();
    let mut steps = Steps::new(book, share);
    evaluate(alloc, query, catalog, instance, &mut steps)
}

fn too_many(role: Role) -> Refusal
    ensures { result ≡ too_many role }
{
    Refusal {
        role,
        span: Span { from: 0, to: 0 },
        code: Code::TooManyRows,
        detail: Detail::Nothing,
    }
}

/// The rows of the query, which are no more than are written; a refusal has the role of the text that asks.
pub(crate) fn rows_of(
    alloc: Global,
    role: Role,
    catalog: &Catalog,
    query: &SqlQuery,
    instance: &Instance,
) -> Result<Rows, Halt>
    requires sound { IsSound query.now catalog.now }
    requires valid { IsValidCatalog catalog.now }
    requires fits { Fits catalog.now (instance_rows instance.now) }
    ensures told { StepGives (Only (halting (rows_due role catalog.now query.now (instance_rows instance.now)))) (seen rows_of result) }
    ensures fit { IfOk result (λ rows. All (λ row. length row.values ≡ length (names_of query.now)) rows.rows) }
    ensures never { IsErrOf result Halt.Usage → ⊥ }
    ensures calm { IsErrOf result Halt.ReadFault → ⊥ }
{
    match counted::<Brand>(alloc, Blank::new(1), query, catalog, instance) {
        Ok(rows) => Ok(rows),
        Err(EvalStop::TooManyRows) => Err(Halt::Refused(too_many(role))),
        Err(EvalStop::NoMemory) => Err(Halt::NoMemory),
    }
}

/// The table text of the query's rows over an instance; a refusal has the role of the text that asks.
pub(crate) fn table_of(
    alloc: Global,
    role: Role,
    catalog: &Catalog,
    query: &SqlQuery,
    instance: &Instance,
) -> Result<List<u8>, Halt>
    requires sound { IsSound query.now catalog.now }
    requires columns { 1 ≤ length (names_of query.now) }
    requires valid { IsValidCatalog catalog.now }
    requires fits { Fits catalog.now (instance_rows instance.now) }
    ensures told { WritesTable (names_of query.now) (halting (rows_due role catalog.now query.now (instance_rows instance.now))) result }
    ensures never { IsErrOf result Halt.Usage → ⊥ }
    ensures calm { IsErrOf result Halt.ReadFault → ⊥ }
{
    let rows = rows_of(alloc, role, catalog, query, instance)?;
    let names = column_names(alloc, query)?;
    Ok(write_rows(alloc, names.as_slice(), rows.rows.as_slice())?)
}
