ghost use Rattle.std.specs.Prelude.{◌≡◌, ◌+◌, ◌≤◌, map, IfOk};
ghost use Rattle.std.specs.List.{sum_by};
ghost use Rattle.normal_form.specs.Rows.{seen, joined, payment};
ghost use Rattle.normal_form.specs.Spending.{spent, counted};
ghost use Rattle.normal_form.specs.RowWeights.{costs_along, AreBought};

use crate::joined::{Joined, join};
use crate::path_weight::spend;
use crate::rows::Costed;
use crate::sizes::sum;
use pgq_base::{List, Name, NoMemory};
use std::alloc::Global;

/// What a row costs: the answer's nodes and the costs of its path blocks.
#[tactic(auto, unfolding(crate::specs::Spending::greatest_number))]
fn cost_of_row(answer: u64, row: &[Costed<'_>]) -> u64
    ensures { result ≡ counted (answer + sum_by (λ part. part.cost) row.now) }
{
    let mut cost = answer;
    for part in row {
        cost = sum(cost, part.cost);
    }
    cost
}

/// Pays for rows.
fn spend_rows(answer: u64, rows: &[List<Costed<'_>>], amount: u64) -> Option<u64>
    requires { amount ≤ 1000000 }
    ensures { result ≡ spent amount (sum_by (λ row. answer + sum_by (λ part. part.cost) row) rows.now) }
{
    let mut left = amount;
    for row in rows {
        match spend(left, cost_of_row(answer, row.as_slice())) {
            None => return None,
            Some(less) => left = less,
        }
    }
    Some(left)
}

/// The rows, and what is left after the payment for joining. Without a column or a condition a row costs
/// nothing: then there may be as many rows as memory holds.
fn buy_rows<'b>(
    alloc: Global,
    names: &[&Name],
    lists: &[List<Costed<'b>>],
    answer: u64,
    amount: u64,
) -> Result<Option<Joined<'b>>, NoMemory>
    requires { amount ≤ 1000000 }
    ensures { IfOk result (λ all. AreBought (map (λ n. n.now) names.now) (map (map seen) lists.entry.now) answer amount all) }
{
    if answer > 0 {
        let all = join(alloc, names, lists, amount)?;
        return Ok(all);
    }
    match join(alloc, names, lists, u64::MAX)? {
        None => Err(NoMemory),
        Some(all) => match spend(amount, u64::MAX - all.left) {
            None => Ok(None),
            Some(left) => Ok(Some(Joined {
                rows: all.rows,
                left,
            })),
        },
    }
}

/// Pays for joining path blocks and for the rows that this gives.
pub(crate) fn weigh_rows(
    alloc: Global,
    names: &[&Name],
    lists: &[List<Costed<'_>>],
    answer: u64,
    amount: u64,
) -> Result<Option<u64>, NoMemory>
    requires { amount ≤ 1000000 }
    ensures { IfOk result (λ left. left ≡ spent amount (payment (map (λ n. n.now) names.now) (map (map seen) lists.now)
        + sum_by (λ row. answer + costs_along row) (joined (map (λ n. n.now) names.now) (map (map seen) lists.now)))) }
{
    match buy_rows(alloc, names, lists, answer, amount)? {
        None => Ok(None),
        Some(all) => Ok(spend_rows(answer, all.rows.as_slice(), all.left)),
    }
}
