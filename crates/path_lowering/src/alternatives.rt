ghost use Rattle.std.specs.Prelude.{◌≡◌, ◌<◌, ◌^◌, ◌∷◌, [], Bool, not, IfOk, length, map, filter};
ghost use Rattle.std.specs.List.{list_any, list_all};
ghost use Rattle.path_lowering.specs.Blocks.{is_empty, shared_outside as outside};
ghost use Rattle.path_lowering.specs.Emitted.{all_of as all_of_these};
ghost use Rattle.path_lowering.specs.Apart.{apart, is_among as found_among, is_in_all as found_in_all, without as left_without, split as split_of};

use crate::columns::list_of;
use crate::modes::any_of;
use expr_tree::{Expr, same_expr};
use pgq_base::NoMemory;
use sql_algebra::ColumnLeaf;
use std::alloc::Global;

fn is_among(conditions: &[Expr<ColumnLeaf>], condition: &Expr<ColumnLeaf>) -> bool
    ensures { result ≡ found_among conditions.now condition.now }
{
    for other in conditions {
        if same_expr(condition, other) {
            return true;
        }
    }
    false
}

fn is_in_all(alternatives: &[Vec<Expr<ColumnLeaf>>], condition: &Expr<ColumnLeaf>) -> bool
    ensures { result ≡ found_in_all (map (λ a. a.items) alternatives.now) condition.now }
{
    for alternative in alternatives {
        if !is_among(alternative.as_slice(), condition) {
            return false;
        }
    }
    true
}

/// The conditions that are not among the common ones.
fn without(
    alloc: Global,
    common: &[Expr<ColumnLeaf>],
    alternative: Vec<Expr<ColumnLeaf>>,
) -> Result<Vec<Expr<ColumnLeaf>>, NoMemory>
    ensures { IfOk result (λ rest. rest.items ≡ left_without common.now alternative.items) }
{
    let mut rest = Vec::new(alloc);
    for condition in alternative {
        if !is_among(common, &condition) {
            rest.push(condition)?;
        }
    }
    Ok(rest)
}

/// The AND of the members; one alone stands for itself.
fn all_of(alloc: Global, members: Vec<Expr<ColumnLeaf>>) -> Result<Expr<ColumnLeaf>, NoMemory>
    ensures { IfOk result (λ made. made ≡ all_of_these members.items) }
{
    let mut members = members;
    if members.len() == 1 {
        if let Some(only) = members.pop() {
            return Ok(only);
        }
    }
    Ok(Expr::All(list_of(alloc, members)?))
}

fn has_empty(rests: &[Vec<Expr<ColumnLeaf>>]) -> bool
    ensures { result ≡ list_any is_empty (map (λ a. a.items) rests.now) }
{
    for rest in rests {
        if rest.len() == 0 {
            return true;
        }
    }
    false
}

fn all_of_each(
    alloc: Global,
    rests: Vec<Vec<Expr<ColumnLeaf>>>,
) -> Result<Vec<Expr<ColumnLeaf>>, NoMemory>
    ensures { IfOk result (λ made. made.items ≡ map all_of_these (map (λ a. a.items) rests.items)) }
{
    let mut made = Vec::new(alloc);
    for rest in rests {
        made.push(all_of(alloc, rest)?)?;
    }
    Ok(made)
}

/// What all alternatives share, and one OR of the rest of each, which is left out where one has no rest.
fn shared_outside(
    alloc: Global,
    common: Vec<Expr<ColumnLeaf>>,
    rests: Vec<Vec<Expr<ColumnLeaf>>>,
) -> Result<Vec<Expr<ColumnLeaf>>, NoMemory>
    ensures { IfOk result (λ made. made.items ≡ outside common.items (map (λ a. a.items) rests.items)) }
{
    let mut common = common;
    if !has_empty(rests.as_slice()) {
        common.push(any_of(alloc, all_of_each(alloc, rests)?)?)?;
    }
    Ok(common)
}

#[derive(Drop)]
struct SharedAndRest {
    common: Vec<Expr<ColumnLeaf>>,
    rest: Vec<Expr<ColumnLeaf>>,
}

/// The conditions that all others have, and those that some have not.
fn parted(
    alloc: Global,
    first: Vec<Expr<ColumnLeaf>>,
    others: &[Vec<Expr<ColumnLeaf>>],
) -> Result<SharedAndRest, NoMemory>
    ensures common { IfOk result (λ made. made.common.items ≡ filter (found_in_all (map (λ a. a.items) others.now)) first.items) }
    ensures rest { IfOk result (λ made. made.rest.items ≡ filter (λ condition. not (found_in_all (map (λ a. a.items) others.now) condition)) first.items) }
{
    let mut common = Vec::new(alloc);
    let mut rest = Vec::new(alloc);
    for condition in first {
        if is_in_all(others, &condition) {
            common.push(condition)?;
        } else {
            rest.push(condition)?;
        }
    }
    Ok(SharedAndRest { common, rest })
}

/// The rest of the first alternative, and that of each other one.
fn rests_of(
    alloc: Global,
    common: &[Expr<ColumnLeaf>],
    rest: Vec<Expr<ColumnLeaf>>,
    others: Vec<Vec<Expr<ColumnLeaf>>>,
) -> Result<Vec<Vec<Expr<ColumnLeaf>>>, NoMemory>
    ensures { IfOk result (λ rests. map (λ a. a.items) rests.items ≡ rest.items ∷ map (left_without common.now) (map (λ a. a.items) others.items)) }
{
    let mut rests = Vec::new(alloc);
    rests.push(rest)?;
    for other in others {
        rests.push(without(alloc, common, other)?)?;
    }
    Ok(rests)
}

/// The conditions of several alternatives: what all share stands outside of one OR of the rest of each.
fn split(
    alloc: Global,
    first: Vec<Expr<ColumnLeaf>>,
    others: Vec<Vec<Expr<ColumnLeaf>>>,
) -> Result<Vec<Expr<ColumnLeaf>>, NoMemory>
    ensures { IfOk result (λ made. made.items ≡ split_of first.items (map (λ a. a.items) others.items)) }
{
    let SharedAndRest { common, rest } = parted(alloc, first, others.as_slice())?;
    let rests = rests_of(alloc, common.as_slice(), rest, others)?;
    shared_outside(alloc, common, rests)
}

/// The conditions of a first alternative and of others.
pub(crate) fn combined(
    alloc: Global,
    first: Vec<Expr<ColumnLeaf>>,
    others: Vec<Vec<Expr<ColumnLeaf>>>,
) -> Result<Vec<Expr<ColumnLeaf>>, NoMemory>
    ensures { IfOk result (λ made. made.items ≡ apart (first.items ∷ map (λ a. a.items) others.items)) }
{
    if others.len() == 0 {
        return Ok(first);
    }
    split(alloc, first, others)
}
