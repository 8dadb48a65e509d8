ghost use Rattle.std.specs.Prelude.{◌≡◌, ◌+◌, ◌≤◌, ◌<◌, ◌++◌, ◌∷◌, [], true, ◌&&◌, not, is_some, IsSome, IfOk, OnOk, length, take, slice_index_or};
ghost use Rattle.pgq_base.specs.Instances.{rows_at};
ghost use Rattle.sql_algebra.specs.Meaning.{has_none};
ghost use Rattle.row_eval.specs.Slots.{lent_rows};
ghost use Rattle.row_eval.specs.Access.{matches_row};
ghost use Rattle.row_eval.specs.Served.{AllServed};
ghost use Rattle.row_eval.specs.Stages.{found, visits, accesses, Collects};
ghost use Rattle.row_eval.specs.Branches.{reached, found_from, visits_from, found_reached, visits_reached, found_tried, visits_tried, Advances, IsRight, IsRightReached, IsTopped};

use crate::access::{Access, matches};
use crate::branch::{Branch, Search, opened};
use crate::frame::{Output, all_hold, output_row_of};
use crate::source::RowSource;
use crate::stage::Stage;
use crate::steps::Steps;
use pgq_base::{List, NoMemory, Row};
use std::alloc::Global;
use std::sync::ledger::Ledger;

/// What is put out for each stack that is found, and for how many at most.
#[derive(Clone, Copy)]
pub struct Aim<'a> {
    pub outputs: &'a [Output],
    pub limit: usize,
}

/// Where stages led to: whether there were not too many stacks, and the branch of the next join, if one was reached.
#[derive(Drop)]
struct Entered<'a, 'r> {
    pub all: bool,
    pub further: Option<Branch<'a, 'r>>,
}

impl Entered<'_, '_> {
    /// Whether the next row is to be tried.
    fn is_done(&self) -> bool
        ensures { result ≡ (self.now.all && not (is_some self.now.further)) }
    {
        self.all && self.further.is_none()
    }
}

/// Where the rows of a branch led to, and which place is next.
#[derive(Drop)]
struct Tried<'a, 'r> {
    pub next: usize,
    pub entered: Entered<'a, 'r>,
}

/// Runs stages. It answers whether the outputs of all that they find were put out; else these are too many.
#[cycle(run)]
pub fn run<'a, 'r, R: RowSource, L: Ledger>(
    stages: &'a [Stage],
    search: &Search<'a, 'r, R>,
    aim: &Aim<'_>,
    stack: &mut Vec<&'r Row>,
    out: &mut List<Row>,
    steps: &mut Steps<L>,
) -> Result<bool, NoMemory>
    requires { AllServed (R.tables search.now.rows.now) search.now.indexes.now (accesses stages.now) }
    ensures collects { IfOk result (Collects aim.now.outputs.now aim.now.limit out.old out.new (found (R.tables search.now.rows.now) stages.now (lent_rows stack.old.items))) }
    ensures stack { OnOk result (stack.new.items ≡ stack.old.items) }
    ensures steps { steps.new ≤ steps.old + visits (R.tables search.now.rows.now) stages.now (lent_rows stack.old.items) }
{
    let entered = enter(stages, stages.len(), search, aim, stack, out, steps)?;
    let Entered { all, further } = entered;
    match further {
        None => Ok(all),
        Some(branch) => run_branches(stages, branch, search, aim, stack, out, steps),
    }
}

/// Whether stages find nothing. It stops at the first stack.
#[cycle(run)]
fn is_absent<'a, 'r, R: RowSource, L: Ledger>(
    stages: &'a [Stage],
    search: &Search<'a, 'r, R>,
    stack: &mut Vec<&'r Row>,
    steps: &mut Steps<L>,
) -> Result<bool, NoMemory>
    requires { AllServed (R.tables search.now.rows.now) search.now.indexes.now (accesses stages.now) }
    ensures none { IfOk result (λ b. b ≡ has_none (found (R.tables search.now.rows.now) stages.now (lent_rows stack.old.items))) }
    ensures stack { OnOk result (stack.new.items ≡ stack.old.items) }
    ensures steps { steps.new ≤ steps.old + visits (R.tables search.now.rows.now) stages.now (lent_rows stack.old.items) }
{
    let mut none = List::new(search.alloc);
    let aim = Aim {
        outputs: &[],
        limit: 0,
    };
    run(stages, search, &aim, stack, &mut none, steps)
}

/// Runs stages from a join on, and each join that this leads to. The last branch is tried first.
#[cycle(run)]
fn run_branches<'a, 'r, R: RowSource, L: Ledger>(
    stages: &'a [Stage],
    first: Branch<'a, 'r>,
    search: &Search<'a, 'r, R>,
    aim: &Aim<'_>,
    stack: &mut Vec<&'r Row>,
    out: &mut List<Row>,
    steps: &mut Steps<L>,
) -> Result<bool, NoMemory>
    requires right { IsRight (R.tables search.now.rows.now) stages.now first }
    requires served { AllServed (R.tables search.now.rows.now) search.now.indexes.now (accesses stages.now) }
    ensures collects { IfOk result (Collects aim.now.outputs.now aim.now.limit out.old out.new (found_from (R.tables search.now.rows.now) stages.now first.entry (lent_rows stack.old.items))) }
    ensures stack { OnOk result (stack.new.items ≡ stack.old.items) }
    ensures steps { steps.new ≤ steps.old + visits_from (R.tables search.now.rows.now) stages.now first.entry (lent_rows stack.old.items) }
{
    let base = stack.len();
    let mut branches = Vec::new(search.alloc);
    branches.push(first)?;
    'branches: while let Some(branch) = branches.pop() {
        stack.truncate(base + branches.len());
        let tried = run_rows(stages, &branch, search, aim, stack, out, steps)?;
        let Tried { next, entered } = tried;
        let Entered { all, further } = entered;
        if !all {
            stack.truncate(base);
            return Ok(false);
        }
        if let Some(further) = further {
            branches.push(branch.resumed(next))?;
            branches.push(further)?;
        }
    }
    stack.truncate(base);
    Ok(true)
}

/// Tries the rows of a branch, up to the first one that leads to a further join.
#[cycle(run)]
fn run_rows<'a, 'r, R: RowSource, L: Ledger>(
    stages: &'a [Stage],
    branch: &Branch<'a, 'r>,
    search: &Search<'a, 'r, R>,
    aim: &Aim<'_>,
    stack: &mut Vec<&'r Row>,
    out: &mut List<Row>,
    steps: &mut Steps<L>,
) -> Result<Tried<'a, 'r>, NoMemory>
    requires right { IsRight (R.tables search.now.rows.now) stages.now branch.now }
    requires served { AllServed (R.tables search.now.rows.now) search.now.indexes.now (accesses stages.now) }
    ensures collects { IfOk result (λ t. Advances aim.now.outputs.now aim.now.limit out.old out.new (found_from (R.tables search.now.rows.now) stages.now branch.now (lent_rows stack.old.items)) (found_tried (R.tables search.now.rows.now) stages.now branch.now t.next t.entered.further (lent_rows stack.old.items) (lent_rows stack.new.items)) t.entered.all) }
    ensures stack { IfOk result (λ t. IsTopped t.entered.further stack.old.items stack.new.items) }
    ensures steps { steps.new ≤ steps.old + visits_from (R.tables search.now.rows.now) stages.now branch.now (lent_rows stack.old.items) }
    ensures left { IfOk result (λ t. steps.new + visits_tried (R.tables search.now.rows.now) stages.now branch.now t.next t.entered.further (lent_rows stack.old.items) (lent_rows stack.new.items) ≤ steps.old + visits_from (R.tables search.now.rows.now) stages.now branch.now (lent_rows stack.old.items)) }
    ensures fewer { IfOk result (λ t. reached t.entered.further + visits_tried (R.tables search.now.rows.now) stages.now branch.now t.next t.entered.further (lent_rows stack.old.items) (lent_rows stack.new.items) ≤ visits_from (R.tables search.now.rows.now) stages.now branch.now (lent_rows stack.old.items)) }
    ensures right { IfOk result (λ t. IsRightReached (R.tables search.now.rows.now) stages.now t.entered.further) }
{
    let places = branch.places.as_slice();
    let mut next = branch.next;
    while next < places.len() {
        let place = places[next];
        next += 1;
        if agrees_at(branch.access, branch.rows, place, stack.as_slice()) {
            let entered = enter_row(stages, branch, place, search, aim, stack, out, steps)?;
            if !entered.is_done() {
                return Ok(Tried { next, entered });
            }
        }
    }
    let entered = Entered {
        all: true,
        further: None,
    };
    Ok(Tried { next, entered })
}

/// Does the stages behind a join with one row on top. The row stays where a further join is reached.
#[cycle(run)]
fn enter_row<'a, 'r, R: RowSource, L: Ledger>(
    stages: &'a [Stage],
    branch: &Branch<'a, 'r>,
    place: usize,
    search: &Search<'a, 'r, R>,
    aim: &Aim<'_>,
    stack: &mut Vec<&'r Row>,
    out: &mut List<Row>,
    steps: &mut Steps<L>,
) -> Result<Entered<'a, 'r>, NoMemory>
    requires right { IsRight (R.tables search.now.rows.now) stages.now branch.now }
    requires place { place < length (rows_at (R.tables search.now.rows.now) branch.now.access.now.table) }
    requires served { AllServed (R.tables search.now.rows.now) search.now.indexes.now (accesses stages.now) }
    ensures collects { IfOk result (λ e. Advances aim.now.outputs.now aim.now.limit out.old out.new (found (R.tables search.now.rows.now) (take branch.now.behind stages.now) (lent_rows stack.old.items ++ slice_index_or (rows_at (R.tables search.now.rows.now) branch.now.access.now.table) place [] ∷ [])) (found_reached (R.tables search.now.rows.now) stages.now e.further (lent_rows stack.new.items)) e.all) }
    ensures stack { IfOk result (λ e. IsTopped e.further stack.old.items stack.new.items) }
    ensures steps { steps.new ≤ steps.old + (1 + visits (R.tables search.now.rows.now) (take branch.now.behind stages.now) (lent_rows stack.old.items ++ slice_index_or (rows_at (R.tables search.now.rows.now) branch.now.access.now.table) place [] ∷ [])) }
    ensures left { IfOk result (λ e. steps.new + visits_reached (R.tables search.now.rows.now) stages.now e.further (lent_rows stack.new.items) ≤ steps.old + (1 + visits (R.tables search.now.rows.now) (take branch.now.behind stages.now) (lent_rows stack.old.items ++ slice_index_or (rows_at (R.tables search.now.rows.now) branch.now.access.now.table) place [] ∷ []))) }
    ensures lower { IfOk result (λ e. visits_reached (R.tables search.now.rows.now) stages.now e.further (lent_rows stack.new.items) ≤ visits (R.tables search.now.rows.now) (take branch.now.behind stages.now) (lent_rows stack.old.items ++ slice_index_or (rows_at (R.tables search.now.rows.now) branch.now.access.now.table) place [] ∷ [])) }
    ensures right { IfOk result (λ e. IsRightReached (R.tables search.now.rows.now) stages.now e.further) }
{
    let row = search.rows.row(branch.access.table, place, steps);
    stack.push(row)?;
    let entered = enter(stages, branch.behind, search, aim, stack, out, steps)?;
    if entered.further.is_none() {
        stack.pop();
    }
    Ok(entered)
}

/// Does so many of the stages, up to the next join. Where there is none, the output of the stack is put out.
#[cycle(run)]
fn enter<'a, 'r, R: RowSource, L: Ledger>(
    stages: &'a [Stage],
    count: usize,
    search: &Search<'a, 'r, R>,
    aim: &Aim<'_>,
    stack: &mut Vec<&'r Row>,
    out: &mut List<Row>,
    steps: &mut Steps<L>,
) -> Result<Entered<'a, 'r>, NoMemory>
    requires count { count ≤ length stages.now }
    requires served { AllServed (R.tables search.now.rows.now) search.now.indexes.now (accesses stages.now) }
    ensures collects { IfOk result (λ e. Advances aim.now.outputs.now aim.now.limit out.old out.new (found (R.tables search.now.rows.now) (take count stages.now) (lent_rows stack.old.items)) (found_reached (R.tables search.now.rows.now) stages.now e.further (lent_rows stack.old.items)) e.all) }
    ensures stack { OnOk result (stack.new.items ≡ stack.old.items) }
    ensures steps { steps.new ≤ steps.old + visits (R.tables search.now.rows.now) (take count stages.now) (lent_rows stack.old.items) }
    ensures left { IfOk result (λ e. steps.new + visits_reached (R.tables search.now.rows.now) stages.now e.further (lent_rows stack.old.items) ≤ steps.old + visits (R.tables search.now.rows.now) (take count stages.now) (lent_rows stack.old.items)) }
    ensures lower { IfOk result (λ e. visits_reached (R.tables search.now.rows.now) stages.now e.further (lent_rows stack.old.items) ≤ visits (R.tables search.now.rows.now) (take count stages.now) (lent_rows stack.old.items)) }
    ensures all { IfOk result (λ e. IsSome e.further → e.all ≡ true) }
    ensures right { IfOk result (λ e. IsRightReached (R.tables search.now.rows.now) stages.now e.further) }
{
    let mut left = count;
    while left > 0 {
        left -= 1;
        let passed = match &stages[left] {
            Stage::Keep(conditions) => all_hold(conditions.as_slice(), stack.as_slice()),
            Stage::Absent(inner) => is_absent(inner.as_slice(), search, stack, steps)?,
            Stage::Join(access) => {
                let branch = opened(search, access, left, stack.as_slice())?;
                return Ok(Entered {
                    all: true,
                    further: Some(branch),
                });
            }
        };
        if !passed {
            return Ok(Entered {
                all: true,
                further: None,
            });
        }
    }
    let all = put_out(search.alloc, stack.as_slice(), aim, out)?;
    Ok(Entered { all, further: None })
}

/// Whether the row at a place agrees with the stack.
fn agrees_at(access: &Access, lent: &[&Row], place: usize, stack: &[&Row]) -> bool
    requires { place < length lent.now }
    ensures { result ≡ matches_row access.now (lent_rows stack.now) (slice_index_or (lent_rows lent.now) place []) }
{
    matches(access, lent[place], stack)
}

fn put_out(
    alloc: Global,
    stack: &[&Row],
    aim: &Aim<'_>,
    out: &mut List<Row>,
) -> Result<bool, NoMemory>
    ensures { IfOk result (Collects aim.now.outputs.now aim.now.limit out.old out.new (lent_rows stack.now ∷ [])) }
{
    if out.as_slice().len() >= aim.limit {
        return Ok(false);
    }
    out.push(output_row_of(alloc, aim.outputs, stack)?)?;
    Ok(true)
}
