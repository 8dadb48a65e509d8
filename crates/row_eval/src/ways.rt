ghost use Rattle.std.specs.Prelude.{◌≡◌, ◌++◌, ◌∷◌, IfOk, [], true};
ghost use Rattle.std.specs.List.{list_all, list_any};
ghost use Rattle.row_eval.specs.Access.{agree};
ghost use Rattle.row_eval.specs.Slots.{is_kept, slot_value};
ghost use Rattle.row_eval.specs.Ways.{StayTied, AreWays};

use crate::access::{Key, Own, Tied};
use crate::frame::Slot;
use crate::ties::{Side, equal_slots, own, side_at};
use expr_tree::Expr;
use pgq_base::{List, NoMemory};
use std::alloc::Global;

fn pushed(tied: List<Tied>, column: Own, other: Slot) -> Result<List<Tied>, NoMemory>
    ensures { IfOk result (λ all. all ≡ tied ++ record { own = column; other = other } ∷ []) }
{
    let mut tied = tied;
    tied.push(Tied { own: column, other })?;
    Ok(tied)
}

// Ties a column of the row at a place to one of an earlier row, where these two are such.
fn tied_by(a: Slot, b: Slot, place: usize, tied: List<Tied>) -> Result<List<Tied>, NoMemory>
    ensures { IfOk result (StayTied place (λ t. agree (slot_value t a) (slot_value t b)) tied) }
{
    match (side_at(a, place), side_at(b, place)) {
        (Side::Own, Side::Earlier) => pushed(tied, own(a), b),
        (Side::Earlier, Side::Own) => pushed(tied, own(b), a),
        _ => Ok(tied),
    }
}

fn tied_more(condition: &Expr<Slot>, place: usize, tied: List<Tied>) -> Result<List<Tied>, NoMemory>
    ensures { IfOk result (StayTied place (λ t. is_kept t condition.now) tied) }
{
    match equal_slots(condition) {
        Some((a, b)) => tied_by(a, b, place, tied),
        None => Ok(tied),
    }
}

fn tied_by_all(alloc: Global, members: &[Expr<Slot>], place: usize) -> Result<List<Tied>, NoMemory>
    ensures { IfOk result (StayTied place (λ t. list_all (is_kept t) members.now) []) }
{
    let mut tied = List::new(alloc);
    for member in members {
        tied = tied_more(member, place, tied)?;
    }
    Ok(tied)
}

// The ties that hold where an alternative is True: those of its equalities.
fn tied_in(alloc: Global, alternative: &Expr<Slot>, place: usize) -> Result<List<Tied>, NoMemory>
    ensures { IfOk result (StayTied place (λ t. is_kept t alternative.now) []) }
{
    match alternative {
        Expr::All(members) => tied_by_all(alloc, members.as_slice(), place),
        _ => tied_more(alternative, place, List::new(alloc)),
    }
}

fn ways_among(
    alloc: Global,
    alternatives: &[Expr<Slot>],
    place: usize,
) -> Result<List<Key>, NoMemory>
    ensures { IfOk result (AreWays place (λ t. list_any (is_kept t) alternatives.now)) }
{
    let mut ways = List::new(alloc);
    for alternative in alternatives {
        let tied = tied_in(alloc, alternative, place)?;
        if tied.as_slice().is_empty() {
            return Ok(List::new(alloc));
        }
        ways.push(Key { tied })?;
    }
    Ok(ways)
}

/// The ways to the row at a place where a condition is True, one for each of its alternatives; none where one of them ties
/// nothing.
pub fn ways_of(alloc: Global, condition: &Expr<Slot>, place: usize) -> Result<List<Key>, NoMemory>
    ensures { IfOk result (AreWays place (λ t. is_kept t condition.now)) }
{
    match condition {
        Expr::Any(alternatives) => ways_among(alloc, alternatives.as_slice(), place),
        _ => Ok(List::new(alloc)),
    }
}

/// By how many alternatives of a condition rows are looked up. Of more of them each row would be looked up by hundreds of keys.
pub const MOST_WAYS: usize = 16;

// The later place of two columns of different rows that are equal where an expression is True.
fn add_place(expr: &Expr<Slot>, places: Vec<usize>) -> Result<Vec<usize>, NoMemory> {
    let mut places = places;
    if let Some((a, b)) = equal_slots(expr) {
        if a.item != b.item {
            places.push(a.item.max(b.item))?;
        }
    }
    Ok(places)
}

fn places_among(alloc: Global, members: &[Expr<Slot>]) -> Result<Vec<usize>, NoMemory> {
    let mut places = Vec::new(alloc);
    for member in members {
        places = add_place(member, places)?;
    }
    Ok(places)
}

/// The places whose rows a condition may tie: those that its first alternative ties; none where there are too many alternatives.
pub fn places_tied(alloc: Global, condition: &Expr<Slot>) -> Result<Vec<usize>, NoMemory> {
    let Expr::Any(alternatives) = condition else {
        return Ok(Vec::new(alloc));
    };
    if alternatives.as_slice().len() > MOST_WAYS {
        return Ok(Vec::new(alloc));
    }
    match alternatives.as_slice().first() {
        Some(Expr::All(members)) => places_among(alloc, members.as_slice()),
        Some(alternative) => add_place(alternative, Vec::new(alloc)),
        None => Ok(Vec::new(alloc)),
    }
}
