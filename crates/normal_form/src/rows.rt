ghost use Rattle.std.specs.Prelude.{◌≡◌, ◌++◌, ◌∷◌, [], ◌≤◌, nat_eq, length, map, flat_map, option_map, option_copied, IfOk};
ghost use Rattle.std.specs.List.{list_all};
ghost use Rattle.graph_meaning.specs.Lists.{first_of};
ghost use Rattle.normal_form.specs.Search.{IsWhole};
ghost use Rattle.normal_form.specs.Rows.{seen, tagged_in, tagged_along, are_as, joins, extended};
ghost use Rattle.normal_form.specs.Groups.{found};

use crate::groups::{common, grouped, key_of};
use crate::names::is_one_of;
use graph_ast::PathBlock;
use pgq_base::{List, Name, NoMemory};
use std::alloc::Global;

/// A path block, and what it costs in a row.
#[derive(Clone, Copy)]
pub(crate) struct Costed<'b> {
    pub block: &'b PathBlock,
    pub cost: u64,
}

/// The element at the first place of a path block that is tagged with a name.
fn held(block: &PathBlock, name: &Name) -> Option<u32>
    ensures { result ≡ first_of (tagged_in name.now block.now) }
{
    let tags = block.tags.as_slice();
    let elements = block.elements.as_slice();
    for place in 0..tags.len() {
        if place >= elements.len() {
            return None;
        }
        if is_one_of(name, tags[place].names.as_slice()) {
            return Some(elements[place]);
        }
    }
    None
}

/// The element at the first place of a row that is tagged with a name.
pub(crate) fn held_along(row: &[Costed<'_>], name: &Name) -> Option<u32>
    ensures { result ≡ first_of (tagged_along name.now (map seen row.now)) }
{
    for part in row {
        if let Some(element) = held(part.block, name) {
            return Some(element);
        }
    }
    None
}

/// Whether all places of a path block that are tagged with a name have this element.
fn all_are(block: &PathBlock, name: &Name, element: u32) -> bool
    ensures { result ≡ list_all (nat_eq element) (tagged_in name.now block.now) }
{
    let tags = block.tags.as_slice();
    let elements = block.elements.as_slice();
    for place in 0..tags.len() {
        if place >= elements.len() {
            return true;
        }
        if is_one_of(name, tags[place].names.as_slice()) && elements[place] != element {
            return false;
        }
    }
    true
}

/// Whether the places of a path block that are tagged with a name have the element that stands there in a
/// row, or one element where none stands there.
fn joins_at(row: &[Costed<'_>], block: &PathBlock, name: &Name) -> bool
    ensures { result ≡ are_as (first_of (tagged_along name.now (map seen row.now))) (tagged_in name.now block.now) }
{
    match held_along(row, name) {
        Some(element) => all_are(block, name, element),
        None => match held(block, name) {
            Some(element) => all_are(block, name, element),
            None => true,
        },
    }
}

/// Whether a path block may follow a row.
fn joins(names: &[&Name], row: &[Costed<'_>], block: &PathBlock) -> bool
    ensures { result ≡ joins (map (λ n. n.now) names.now) (map seen row.now) block.now }
{
    for name in names {
        if !joins_at(row, block, name) {
            return false;
        }
    }
    true
}

fn behind<'b>(
    alloc: Global,
    row: &[Costed<'b>],
    part: Costed<'b>,
) -> Result<List<Costed<'b>>, NoMemory>
    ensures { IfOk result (λ all. all ≡ row.entry.now ++ part.entry ∷ []) }
{
    let mut all = List::new(alloc);
    all.extend(row)?;
    all.push(part)?;
    Ok(all)
}

/// Adds a row followed by each path block that may follow it, and gives nothing where there are then more
/// rows than so many.
fn extend<'b>(
    alloc: Global,
    names: &[&Name],
    list: &[Costed<'b>],
    row: &[Costed<'b>],
    mut done: List<List<Costed<'b>>>,
    most: usize,
) -> Result<Option<List<List<Costed<'b>>>>, NoMemory>
    requires { length done ≤ most }
    ensures { IfOk result (λ all. IsWhole most (option_map (map (map seen)) all) (map (map seen) done.entry ++ extended (map (λ n. n.now) names.now) (map seen list.entry.now) (map seen row.entry.now))) }
{
    for part in list {
        if joins(names, row, part.block) {
            if done.as_slice().len() >= most {
                return Ok(None);
            }
            done.push(behind(alloc, row, *part)?)?;
        }
    }
    Ok(Some(done))
}

/// Adds a row followed by each path block of a group that may follow it.
fn extend_by<'b>(
    alloc: Global,
    names: &[&Name],
    group: Option<&List<Costed<'b>>>,
    row: &[Costed<'b>],
    done: List<List<Costed<'b>>>,
    most: usize,
) -> Result<Option<List<List<Costed<'b>>>>, NoMemory>
    requires { length done ≤ most }
    ensures { IfOk result (λ all. IsWhole most (option_map (map (map seen)) all) (map (map seen) done.entry ++ extended (map (λ n. n.now) names.now) (found (option_copied group.entry)) (map seen row.entry.now))) }
{
    match group {
        None => Ok(Some(done)),
        Some(group) => extend(alloc, names, group.as_slice(), row, done, most),
    }
}

/// The rows followed by the path blocks that may follow them, and nothing where they are more than so many.
/// A row is tried with those path blocks alone that have its elements at the names that all of them have.
pub(crate) fn extend_all<'b>(
    alloc: Global,
    names: &[&Name],
    list: &[Costed<'b>],
    rows: &[List<Costed<'b>>],
    most: usize,
) -> Result<Option<List<List<Costed<'b>>>>, NoMemory>
    ensures { IfOk result (λ all. IsWhole most (option_map (map (map seen)) all) (flat_map (extended (map (λ n. n.now) names.now) (map seen list.entry.now)) (map (map seen) rows.entry.now))) }
{
    let common = common(alloc, names, list, rows)?;
    let groups = grouped(alloc, common.as_slice(), list)?;
    let mut done = List::new(alloc);
    for row in rows {
        let key = key_of(alloc, common.as_slice(), row.as_slice())?;
        let group = groups.get(key.as_slice());
        match extend_by(alloc, names, group, row.as_slice(), done, most)? {
            None => return Ok(None),
            Some(more) => done = more,
        }
    }
    Ok(Some(done))
}
