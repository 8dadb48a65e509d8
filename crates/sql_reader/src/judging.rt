ghost use Rattle.std.specs.Prelude.{◌≡◌, ℕ, IfErr};
ghost use Rattle.pgq_base.specs.Answers.{Gives};
ghost use Rattle.pgq_base.specs.declared.refusal.Stop.TheVariants.{Refused};
ghost use Rattle.sql_lexer.specs.Spans.{RefusalLiesIn};
ghost use Rattle.sql_parser.specs.Spans.{SpansLieIn};
ghost use Rattle.sql_reader.specs.Queries.{due, refused};

use crate::phases::first_fault;
use crate::queries::query_of;
use crate::tables::Tables;
use first_faults::Fault;
use graph_ast::Catalog;
use pgq_base::{Detail, Refusal, Role, Stop};
use sql_algebra::{SqlQuery, SqlText};
use std::alloc::Global;

fn refused(fault: Fault) -> Stop
    ensures { result ≡ Refused (refused fault) }
{
    Stop::Refused(Refusal {
        role: Role::Sql,
        span: fault.span,
        code: fault.code,
        detail: Detail::Nothing,
    })
}

/// The query that a text writes down in a catalog.
///
/// It is refused exactly where the rules on names and classes give a fault: with the first fault, by place and then by code,
/// of the first of the phases names and types that has one, which lies in each text in which the spans of the tree lie.
/// Want of memory may be answered at any time.
#[tactic(auto, unfolding(crate::specs::Queries::due))]
pub fn judge_text(alloc: Global, text: &SqlText, catalog: &Catalog) -> Result<SqlQuery, Stop>
    ensures answer { Gives (due catalog.now text.now) result }
    ensures in_text { (length : ℕ) → SpansLieIn length text.now → IfErr result (RefusalLiesIn length) }
{
    let tables = Tables::new(alloc, catalog)?;
    if let Some(fault) = first_fault(alloc, &tables, text)? {
        return Err(refused(fault));
    }
    Ok(query_of(alloc, &tables, text)?)
}
