ghost use Rattle.std.specs.Prelude.{◌≡◌, ◌<◌, ◌≤◌, ◌++◌, ◌∷◌, [], cond, nat_lt, true, false, IfOk, OnOk, length, slice_index, slice_index_or as get_or};
ghost use Rattle.row_eval.specs.Slots.{lent_rows};
ghost use Rattle.row_eval.specs.Branches.{places_in};
ghost use Rattle.row_eval.specs.Served.{is_candidate, merge, places_from, AreGroupsOf};

use crate::access::Key;
use crate::index::Groups;
use pgq_base::{NoMemory, Row};
use std::alloc::Global;

// Whether the number at a place of a list is there and no larger.
fn comes_first(list: &[usize], place: usize, x: usize) -> bool
    ensures there { result ≡ true → place < length list.now }
    ensures first { result ≡ true → slice_index list.now place ≤ x }
    ensures later { result ≡ false → place < length list.now → x < slice_index list.now place }
{
    if place < list.len() {
        list[place] <= x
    } else {
        false
    }
}

// Puts a number behind the others where it is smaller.
fn push_smaller(all: &mut Vec<usize>, y: usize, x: usize) -> Result<(), NoMemory>
    ensures { OnOk result (all.new.items ≡ cond (nat_lt y x) (all.old.items ++ y ∷ []) all.old.items) }
{
    if y < x {
        all.push(y)?;
    }
    Ok(())
}

// Two ascending lists as one, without repeats.
fn merged(alloc: Global, a: &[usize], b: &[usize]) -> Result<Vec<usize>, NoMemory>
    ensures { IfOk result (λ all. all.items ≡ merge a.now b.now) }
{
    let mut all = Vec::with_capacity(alloc, a.len().saturating_add(b.len()))?;
    let mut i = 0;
    let mut j = 0;
    while i < a.len() {
        let x = a[i];
        if comes_first(b, j, x) {
            push_smaller(&mut all, b[j], x)?;
            j += 1;
        } else {
            all.push(x)?;
            i += 1;
        }
    }
    all.extend_from_slice(&b[j..])?;
    Ok(all)
}

fn groups_at(groups: &[Groups], number: usize) -> &Groups
    requires { number < length groups.now }
    ensures { result.now ≡ get_or groups.now number result.now }
{
    &groups[number]
}

// The places, in order, of the rows that by one of the keys have the code of these.
fn merged_places(
    alloc: Global,
    keys: &[Key],
    groups: &[Groups],
    lent: &[&Row],
    stack: &[&Row],
) -> Result<Vec<usize>, NoMemory>
    requires { AreGroupsOf keys.now (lent_rows lent.now) groups.now }
    ensures { IfOk result (λ all. all.items ≡ places_from (is_candidate keys.now (lent_rows stack.now)) 0 (lent_rows lent.now)) }
{
    let mut all = Vec::new(alloc);
    for number in 0..keys.len() {
        let tied = keys[number].tied.as_slice();
        let places = groups_at(groups, number).places_of(tied, stack, lent);
        all = merged(alloc, all.as_slice(), places)?;
    }
    Ok(all)
}

/// Places of rows: those that were merged, and where there are none those of a group, which is lent.
#[derive(Drop)]
pub struct Places<'a> {
    pub group: &'a [usize],
    pub merged: Vec<usize>,
}

impl<'a> Places<'a> {
    /// The places, in order.
    pub fn as_slice(&self) -> &[usize]
        ensures { result.now ≡ places_in self.now }
    {
        if self.merged.is_empty() {
            self.group
        } else {
            self.merged.as_slice()
        }
    }
}

/// The places, in order, of the rows that by one of the keys have the code of these. Those of one key are not copied.
pub fn places_by_any<'a>(
    alloc: Global,
    keys: &[Key],
    groups: &'a [Groups],
    lent: &[&Row],
    stack: &[&Row],
) -> Result<Places<'a>, NoMemory>
    requires { AreGroupsOf keys.now (lent_rows lent.now) groups.now }
    ensures { IfOk result (λ places. places_in places ≡ places_from (is_candidate keys.now (lent_rows stack.now)) 0 (lent_rows lent.now)) }
{
    if keys.len() == 1 {
        let group = groups_at(groups, 0).places_of(keys[0].tied.as_slice(), stack, lent);
        return Ok(Places {
            group,
            merged: Vec::new(alloc),
        });
    }
    let merged = merged_places(alloc, keys, groups, lent, stack)?;
    Ok(Places { group: &[], merged })
}
