ghost use Rattle.std.specs.Prelude.{◌≡◌, ◌-◌, ◌<◌, ◌≤◌, true, IfOk, length};
ghost use Rattle.row_eval.specs.Sorted.{Narrows};

use crate::frame::Slot;
use crate::sorting::Sorted;
use crate::ways::{places_tied, ways_of};
use expr_tree::Expr;
use pgq_base::NoMemory;
use std::alloc::Global;

// Whether there is a leg of the place, without ways.
fn lacks_ways(sorted: &Sorted, depth: usize, place: usize) -> bool
    ensures below { result ≡ true → depth ≤ place }
    ensures leg { result ≡ true → place - depth < length sorted.now.legs.items }
{
    if place < depth || place - depth >= sorted.legs.len() {
        return false;
    }
    sorted.legs[place - depth].ways.as_slice().is_empty()
}

// Gives the leg of a place the ways of a condition, where it has none yet.
fn narrow_at(
    alloc: Global,
    sorted: Sorted,
    condition: &Expr<Slot>,
    depth: usize,
    place: usize,
) -> Result<Sorted, NoMemory>
    ensures { IfOk result (Narrows depth condition.now sorted) }
{
    if !lacks_ways(&sorted, depth, place) {
        return Ok(sorted);
    }
    let ways = ways_of(alloc, condition, place)?;
    let Sorted { first, legs } = sorted;
    let mut legs = legs;
    legs[place - depth].ways = ways;
    Ok(Sorted { first, legs })
}

/// Gives legs the ways by which the alternatives of a condition tie their rows, as far as they have none yet.
pub fn narrow(
    alloc: Global,
    sorted: Sorted,
    condition: &Expr<Slot>,
    depth: usize,
) -> Result<Sorted, NoMemory>
    ensures { IfOk result (Narrows depth condition.now sorted) }
{
    let places = places_tied(alloc, condition)?;
    let mut sorted = sorted;
    for place in places.as_slice() {
        sorted = narrow_at(alloc, sorted, condition, depth, *place)?;
    }
    Ok(sorted)
}
