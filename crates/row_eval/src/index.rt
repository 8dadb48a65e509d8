ghost use Rattle.std.specs.Prelude.{◌≡◌, ℕ, ◌+◌, ◌<◌, ◌≤◌, ◌++◌, ◌∷◌, [], cond, IfOk, OnOk, length, slice_get, slice_index_or, false, ◌==◌};
ghost use Rattle.std.specs.Option.{option_copied};
ghost use Rattle.std.specs.Hash.FoldHasher as folding;
ghost use Rattle.std.specs.List.{fold};
ghost use Rattle.pgq_base.specs.Values.{owned};
ghost use Rattle.pgq_base.specs.Instances.{rows_at};
ghost use Rattle.row_eval.specs.Slots.{lent_rows};
ghost use Rattle.row_eval.specs.Served.{writes, row_code, stack_code, group_in, is_code, is_candidate, shares_code, merge, places_from, IsGroupsOf, AreGroupsOf, IsIndexOf};

use crate::access::{Key, Tied, value_of_own};
use crate::frame::slot_in;
use crate::group::Group;
use crate::source::RowSource;
use crate::steps::Steps;
use pgq_base::{NoMemory, Row, ValueRef};
use std::alloc::Global;
use std::collections::HashMap;
use std::hash::{FoldHasher, Hash, Hasher};
use std::sync::ledger::Ledger;

/// The places of a table's rows by a code of the columns that are tied.
#[derive(Drop)]
pub struct Groups {
    pub places: HashMap<u64, Group>,
}

/// The rows of a table, and their groups by each key.
#[derive(Drop)]
pub struct Index<'r> {
    pub rows: Vec<&'r Row>,
    pub groups: Vec<Groups>,
}

fn feed(value: ValueRef<'_>, hasher: &mut FoldHasher)
    ensures { hasher.new ≡ fold folding.write hasher.old (writes (owned value.entry)) }
{
    match value {
        ValueRef::Null => {}
        ValueRef::Truth(truth) => truth.hash(hasher),
        ValueRef::Number(number) => number.hash(hasher),
        ValueRef::Decimal(decimal) => {
            decimal.unscaled.hash(hasher);
            decimal.scale.hash(hasher);
        }
        ValueRef::Date(date) => date.day.hash(hasher),
        ValueRef::Text(text) => hasher.write(text.as_bytes()),
    }
}

fn code_of_row(tied: &[Tied], row: &Row) -> Option<u64>
    ensures { result ≡ row_code tied.now row.now.values }
{
    let mut hasher = FoldHasher::default();
    for tie in tied {
        match value_of_own(row, tie.own) {
            ValueRef::Null => return None,
            value => feed(value, &mut hasher),
        }
    }
    Some(hasher.finish())
}

/// The code of the rows that agree with these; none where a tied value is Null.
pub fn code_of_stack(tied: &[Tied], stack: &[&Row]) -> Option<u64>
    ensures { result ≡ stack_code tied.now (lent_rows stack.now) }
{
    let mut hasher = FoldHasher::default();
    for tie in tied {
        match slot_in(stack, tie.other) {
            ValueRef::Null => return None,
            value => feed(value, &mut hasher),
        }
    }
    Some(hasher.finish())
}

// Puts a place under its code, if it has one.
fn add_place(
    alloc: Global,
    groups: &mut HashMap<u64, Group>,
    code: Option<u64>,
    place: usize,
) -> Result<(), NoMemory>
    ensures { OnOk result ((q : ℕ) → group_in groups.new q ≡ cond (is_code q code) (group_in groups.old q ++ place ∷ []) (group_in groups.old q)) }
{
    if let Some(code) = code {
        groups
            .entry(code)?
            .or_insert(Group::new())
            .push(alloc, place)?;
    }
    Ok(())
}

// The rows of a table. Each is read once.
fn rows_read<'r, R: RowSource, L: Ledger>(
    alloc: Global,
    table: u32,
    rows: &'r R,
    steps: &mut Steps<L>,
) -> Result<Vec<&'r Row>, NoMemory>
    requires { table < length (R.tables rows.now) }
    ensures lent { IfOk result (λ lent. lent_rows lent.items ≡ rows_at (R.tables rows.now) table) }
    ensures steps { steps.new ≤ steps.old + length (rows_at (R.tables rows.now) table) }
{
    let count = rows.count(table);
    let mut lent = Vec::with_capacity(alloc, count)?;
    for place in 0..count {
        lent.push(rows.row(table, place, steps))?;
    }
    Ok(lent)
}

fn groups_of(alloc: Global, tied: &[Tied], lent: &[&Row]) -> Result<Groups, NoMemory>
    ensures { IfOk result (IsGroupsOf tied.now (lent_rows lent.now)) }
{
    let mut places = HashMap::with_capacity(alloc, lent.len())?;
    for place in 0..lent.len() {
        let code = code_of_row(tied, lent[place]);
        add_place(alloc, &mut places, code, place)?;
    }
    Ok(Groups { places })
}

fn all_groups(alloc: Global, keys: &[Key], lent: &[&Row]) -> Result<Vec<Groups>, NoMemory>
    ensures { IfOk result (λ all. AreGroupsOf keys.now (lent_rows lent.now) all.items) }
{
    let mut all = Vec::new(alloc);
    for key in keys {
        all.push(groups_of(alloc, key.tied.as_slice(), lent)?)?;
    }
    Ok(all)
}

/// The index of a table, with groups for each key. Each row is read once.
pub fn build_index<'r, R: RowSource, L: Ledger>(
    alloc: Global,
    table: u32,
    keys: &[Key],
    rows: &'r R,
    steps: &mut Steps<L>,
) -> Result<Index<'r>, NoMemory>
    requires { table < length (R.tables rows.now) }
    ensures index { IfOk result (IsIndexOf keys.now (rows_at (R.tables rows.now) table)) }
    ensures steps { steps.new ≤ steps.old + length (rows_at (R.tables rows.now) table) }
{
    let lent = rows_read(alloc, table, rows, steps)?;
    let groups = all_groups(alloc, keys, lent.as_slice())?;
    Ok(Index { rows: lent, groups })
}

impl Groups {
    /// The places of the rows under a code.
    pub fn group(&self, code: u64) -> &[usize]
        ensures { result.now ≡ group_in self.now.places code }
    {
        match self.places.get(&code) {
            Some(group) => group.as_slice(),
            None => &[],
        }
    }

    /// The places of the rows that have the code of these by what is tied.
    pub fn places_of(&self, tied: &[Tied], stack: &[&Row], lent: &[&Row]) -> &[usize]
        requires { IsGroupsOf tied.now (lent_rows lent.now) self.now }
        ensures { result.now ≡ places_from (λ row. shares_code (stack_code tied.now (lent_rows stack.now)) (row_code tied.now row)) 0 (lent_rows lent.now) }
    {
        match code_of_stack(tied, stack) {
            Some(code) => self.group(code),
            None => &[],
        }
    }
}

/// The index of a number.
pub fn index_at<'a, 'r>(indexes: &'a [Index<'r>], number: usize) -> &'a Index<'r>
    requires { number < length indexes.now }
    ensures { slice_get indexes.now number ≡ Some result.now }
{
    &indexes[number]
}
