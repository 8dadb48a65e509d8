ghost use Rattle.std.specs.Prelude.{◌≡◌, ◌&&◌, drop, flat_map, option_copied, option_to_list, slice_get, IfOk};
ghost use Rattle.std.specs.List.{list_all};
ghost use Rattle.first_faults.specs.Faults.{first_of};
ghost use Rattle.pattern_check.specs.declared.mentions.Mention.{Mention as MentionTree};
ghost use Rattle.pattern_check.specs.Mentions.{row_said, rows_said};
ghost use Rattle.pattern_check.specs.NameRules.{is_declared, is_group, same_truth, has_variables_of, variables_differ, unlike_first, unlike_among, union_faults};

use crate::declared::Declared;
use crate::mentions::{Mention, union_mentions};
use crate::repeats::row_declared;
use first_faults::{Fault, note};
use graph_ast::{Joint, PathTree};
use pgq_base::{Code, List, NoMemory};
use std::alloc::Global;

fn same_truth(a: bool, b: bool) -> bool
    ensures { result ≡ same_truth a b }
{
    if a { b } else { !b }
}

fn is_like(m: &Mention<'_>, xs: &Declared<'_>, ys: &Declared<'_>) -> bool
    ensures { result ≡ (is_declared ys.now m.now.variable.now.name && same_truth (is_group xs.now m.now.variable.now.name) (is_group ys.now m.now.variable.now.name)) }
{
    let name = &m.variable.name;
    ys.has(name) && same_truth(xs.has_group(name), ys.has_group(name))
}

fn all_like(ms: &[Mention<'_>], xs: &Declared<'_>, ys: &Declared<'_>) -> bool
    ensures { result ≡ list_all (λ (m : MentionTree). is_declared ys.now m.variable.now.name && same_truth (is_group xs.now m.variable.now.name) (is_group ys.now m.variable.now.name)) ms.now }
{
    ms.iter().all(|m| is_like(m, xs, ys))
}

fn has_variables_of(xs: &Declared<'_>, ys: &Declared<'_>) -> bool
    ensures { result ≡ has_variables_of xs.now ys.now }
{
    all_like(xs.firsts(), xs, ys)
}

fn have_same_variables(xs: &Declared<'_>, ys: &Declared<'_>) -> bool
    ensures { result ≡ (has_variables_of xs.now ys.now && has_variables_of ys.now xs.now) }
{
    has_variables_of(xs, ys) && has_variables_of(ys, xs)
}

fn item_at<T>(items: &[T], place: usize) -> Option<&T>
    ensures { option_copied result ≡ slice_get items.entry.now place }
{
    if place < items.len() {
        Some(&items[place])
    } else {
        None
    }
}

fn variables_differ<'t>(
    alloc: Global,
    first: Option<Fault>,
    model: &Declared<'t>,
    operand: &[Mention<'t>],
    joint: Option<&Joint>,
) -> Result<Option<Fault>, NoMemory>
    ensures { IfOk result (λ found. found ≡ first_of first (flat_map (variables_differ model.now (row_said operand.now)) (option_to_list (option_copied joint.entry)))) }
{
    match joint {
        None => Ok(first),
        Some(joint) => {
            let other = row_declared(alloc, operand)?;
            let same = have_same_variables(model, &other);
            Ok(note(first, !same, Code::UnionVariablesDiffer, joint.span))
        }
    }
}

#[tactic(auto, using(crate::proofs::NamePhase::operands_on))]
fn unlike_first<'t>(
    alloc: Global,
    first: Option<Fault>,
    model: &Declared<'t>,
    operands: &[List<Mention<'t>>],
    joints: &[Joint],
) -> Result<Option<Fault>, NoMemory>
    ensures { IfOk result (λ found. found ≡ first_of first (unlike_first model.now (rows_said operands.now) joints.now)) }
{
    let mut found = first;
    for i in 0..operands.len() {
        found = variables_differ(
            alloc,
            found,
            model,
            operands[i].as_slice(),
            item_at(joints, i),
        )?;
    }
    Ok(found)
}

fn behind_first<T>(items: &[T]) -> &[T]
    ensures { result.now ≡ drop 1 items.entry.now }
{
    match items {
        [] => items,
        [_, rest @ ..] => rest,
    }
}

fn unlike_among<'t>(
    alloc: Global,
    first: Option<Fault>,
    operands: &[List<Mention<'t>>],
    joints: &[Joint],
) -> Result<Option<Fault>, NoMemory>
    ensures { IfOk result (λ found. found ≡ first_of first (unlike_among (rows_said operands.now) joints.now)) }
{
    match item_at(operands, 0) {
        None => Ok(first),
        Some(model) => {
            let model = row_declared(alloc, model.as_slice())?;
            unlike_first(alloc, first, &model, behind_first(operands), joints)
        }
    }
}

fn path_unions(
    alloc: Global,
    first: Option<Fault>,
    path: &PathTree,
) -> Result<Option<Fault>, NoMemory>
    ensures { IfOk result (λ found. found ≡ first_of first (union_faults path.now)) }
{
    let operands = union_mentions(alloc, &path.body)?;
    unlike_among(
        alloc,
        first,
        operands.as_slice(),
        path.body.joints.as_slice(),
    )
}

/// The first of the faults so far and of those at operands that do not declare the variables of the first operand of their path
/// pattern.
pub fn unions_faults(
    alloc: Global,
    first: Option<Fault>,
    paths: &[PathTree],
) -> Result<Option<Fault>, NoMemory>
    ensures { IfOk result (λ found. found ≡ first_of first (flat_map union_faults paths.now)) }
{
    let mut found = first;
    for path in paths {
        found = path_unions(alloc, found, path)?;
    }
    Ok(found)
}
