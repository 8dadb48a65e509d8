ghost use Rattle.std.specs.Prelude.{◌≡◌, IfOk};
ghost use Rattle.row_eval.specs.Slots.{lent_rows};
ghost use Rattle.row_eval.specs.Access.{rows_given};
ghost use Rattle.row_eval.specs.Served.{IsServed};
ghost use Rattle.row_eval.specs.Branches.{resumed, rows_left, HasRows};

use crate::access::Access;
use crate::index::{Index, index_at};
use crate::places::{Places, places_by_any};
use crate::source::RowSource;
use pgq_base::{NoMemory, Row};
use std::alloc::Global;

/// What stages are run over: the rows and the indexes of the accesses.
#[derive(Drop)]
pub struct Search<'a, 'r, R: RowSource> {
    pub alloc: Global,
    pub rows: &'r R,
    pub indexes: &'a [Index<'r>],
}

/// A join whose rows are tried one after another on top of a stack: those at the places from the next one on are left. Behind it
/// so many of the stages are done.
#[derive(Drop)]
pub struct Branch<'a, 'r> {
    pub access: &'a Access,
    pub rows: &'a [&'r Row],
    pub places: Places<'a>,
    pub next: usize,
    pub behind: usize,
}

impl<'a, 'r> Branch<'a, 'r> {
    /// The branch with the rows from another place on.
    pub fn resumed(self, next: usize) -> Branch<'a, 'r>
        ensures { result ≡ resumed self.entry next }
    {
        Branch { next, ..self }
    }
}

/// The branch of a join on top of a stack. All rows that the access gives are left.
pub fn opened<'a, 'r, R: RowSource>(
    search: &Search<'a, 'r, R>,
    access: &'a Access,
    behind: usize,
    stack: &[&'r Row],
) -> Result<Branch<'a, 'r>, NoMemory>
    requires { IsServed (R.tables search.now.rows.now) search.now.indexes.now access.now }
    ensures right { IfOk result (HasRows (R.tables search.now.rows.now)) }
    ensures rows { IfOk result (λ b. rows_left (R.tables search.now.rows.now) b (lent_rows stack.now) ≡ rows_given (R.tables search.now.rows.now) access.now (lent_rows stack.now)) }
    ensures behind { IfOk result (λ b. b.behind ≡ behind) }
{
    let index = index_at(search.indexes, access.index);
    let rows = index.rows.as_slice();
    let keys = access.keys.as_slice();
    let places = places_by_any(search.alloc, keys, index.groups.as_slice(), rows, stack)?;
    Ok(Branch {
        access,
        rows,
        places,
        next: 0,
        behind,
    })
}
