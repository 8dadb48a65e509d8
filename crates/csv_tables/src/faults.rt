ghost use Rattle.std.specs.Prelude.{◌≡◌, IfOk};
ghost use Rattle.csv_tables.specs.Outcomes.{IsRefusal, refusal_of};

use pgq_base::{Code, Detail, Name, NoMemory, Refusal, Role, Span, Stop};
use std::alloc::Global;

/// What is wrong with a table: its code, and the row and the column where it stands. Rows are counted from
/// 1 after the header and columns from 1 by their place in the schema; 0 stands for none.
#[derive(Clone, Copy, Debug, PartialEq, Eq)]
pub struct TableFault {
    pub code: Code,
    pub row: u64,
    pub column: u32,
}

// The refusal of the table with this fault.
fn refusal_of(alloc: Global, table: &Name, fault: TableFault) -> Result<Refusal, NoMemory>
    ensures { IfOk result (λ r. r ≡ refusal_of table.now fault) }
{
    Ok(Refusal {
        role: Role::Table,
        span: Span { from: 0, to: 0 },
        code: fault.code,
        detail: Detail::At {
            table: table.copy(alloc)?,
            row: fault.row,
            column: fault.column,
        },
    })
}

/// The refusal of the table with this fault, unless memory runs out.
pub fn refuse(alloc: Global, table: &Name, fault: TableFault) -> Stop
    ensures { IsRefusal (refusal_of table.now fault) result }
{
    match refusal_of(alloc, table, fault) {
        Ok(refusal) => Stop::Refused(refusal),
        Err(NoMemory) => Stop::NoMemory,
    }
}
