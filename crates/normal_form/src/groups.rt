ghost use Rattle.std.specs.Prelude.{◌≡◌, ◌++◌, ◌∷◌, [], ◌&&◌, ℕ, List as Seq, cond, nat_eq, map, IfOk};
ghost use Rattle.std.specs.List.{list_all};
ghost use Rattle.std.specs.Cmp.Lexicographic.{pointwise};
ghost use Rattle.normal_form.specs.Rows.{seen};
ghost use Rattle.normal_form.specs.Groups.{key_of, has_name, common, group_at, AreGroups};

use crate::rows::{Costed, held_along};
use pgq_base::{List, Name, NoMemory};
use std::alloc::Global;
use std::collections::HashMap;

/// Path blocks by the elements that they have at some names.
pub(crate) type Groups<'b> = HashMap<Vec<u32>, List<Costed<'b>>>;

/// The elements that stand first in a row at some names, and 0 at each that it does not have.
pub(crate) fn key_of(
    alloc: Global,
    names: &[&Name],
    row: &[Costed<'_>],
) -> Result<Vec<u32>, NoMemory>
    ensures { IfOk result (λ key. key.items ≡ key_of (map (λ n. n.now) names.now) (map seen row.now)) }
{
    let mut key = Vec::new(alloc);
    for name in names {
        key.push(held_along(row, name).unwrap_or(0))?;
    }
    Ok(key)
}

fn all_have(rows: &[List<Costed<'_>>], name: &Name) -> bool
    ensures { result ≡ list_all (has_name name.now) (map (map seen) rows.now) }
{
    for row in rows {
        if held_along(row.as_slice(), name).is_none() {
            return false;
        }
    }
    true
}

fn each_has(list: &[Costed<'_>], name: &Name) -> bool
    ensures { result ≡ list_all (λ part. has_name name.now (part ∷ [])) (map seen list.now) }
{
    for part in list {
        if held_along(&[*part], name).is_none() {
            return false;
        }
    }
    true
}

fn is_common(list: &[Costed<'_>], rows: &[List<Costed<'_>>], name: &Name) -> bool
    ensures { result ≡ (list_all (has_name name.now) (map (map seen) rows.now) && list_all (λ part. has_name name.now (part ∷ [])) (map seen list.now)) }
{
    all_have(rows, name) && each_has(list, name)
}

/// The names that all rows and all path blocks have.
pub(crate) fn common<'a>(
    alloc: Global,
    names: &[&'a Name],
    list: &[Costed<'_>],
    rows: &[List<Costed<'_>>],
) -> Result<Vec<&'a Name>, NoMemory>
    ensures { IfOk result (λ all. map (λ n. n.now) all.items ≡ common (map (λ n. n.now) names.entry.now) (map seen list.now) (map (map seen) rows.now)) }
{
    let mut all = Vec::new(alloc);
    for name in names {
        if is_common(list, rows, name) {
            all.push(*name)?;
        }
    }
    Ok(all)
}

/// Puts a path block behind those at its key.
fn put<'b>(
    alloc: Global,
    mut groups: Groups<'b>,
    key: Vec<u32>,
    part: Costed<'b>,
) -> Result<Groups<'b>, NoMemory>
    ensures { IfOk result (λ all. (other : Seq ℕ) → group_at all other ≡ group_at groups.entry other ++ cond (pointwise nat_eq other key.items) (seen part.entry ∷ []) []) }
{
    let mut group = match groups.remove(key.as_slice()) {
        None => List::new(alloc),
        Some(group) => group,
    };
    group.push(part)?;
    groups.insert(key, group)?;
    Ok(groups)
}

/// The path blocks of a list by the elements that they have at the names.
pub(crate) fn grouped<'b>(
    alloc: Global,
    names: &[&Name],
    list: &[Costed<'b>],
) -> Result<Groups<'b>, NoMemory>
    ensures { IfOk result (λ groups. AreGroups (map (λ n. n.now) names.now) (map seen list.entry.now) groups) }
{
    let mut groups = HashMap::new(alloc);
    for part in list {
        let key = key_of(alloc, names, &[*part])?;
        groups = put(alloc, groups, key, *part)?;
    }
    Ok(groups)
}
