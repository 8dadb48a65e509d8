ghost use Rattle.std.specs.Prelude.{◌≡◌, IfOk};
ghost use Rattle.row_eval.specs.Scopes.{placed, reach_under};

use crate::scope::Reached;
use pgq_base::NoMemory;
use sql_algebra::FromItem;
use std::alloc::Global;

/// The items of a select with the places of their rows, and behind them those in reach around it.
pub fn reach_of<'q>(
    alloc: Global,
    items: &'q [FromItem],
    outer: &[Reached<'q>],
) -> Result<Vec<Reached<'q>>, NoMemory>
    ensures { IfOk result (λ r. placed r.items ≡ reach_under items.now (placed outer.now)) }
{
    let mut reach = Vec::new(alloc);
    for (index, item) in items.iter().enumerate() {
        let place = outer.len() + index;
        reach.push(Reached { item, place })?;
    }
    for reached in outer {
        reach.push(*reached)?;
    }
    Ok(reach)
}
