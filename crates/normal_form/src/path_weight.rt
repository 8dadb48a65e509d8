ghost use Rattle.std.specs.Prelude.{◌≡◌, ◌+◌, ◌*◌, ◌<◌, ◌≤◌, ◌^◌, length, map, IfOk};
ghost use Rattle.std.specs.List.{fold, sum_by};
ghost use Rattle.graph_meaning.specs.Lists.{numbers_below};
ghost use Rattle.graph_meaning.specs.Choices.{choices, singletons_of};
ghost use Rattle.graph_meaning.specs.Blocks.{path_blocks, shapes_of};
ghost use Rattle.graph_meaning.specs.Weights.{choice_size, prefix_weight, place_weight};
ghost use Rattle.normal_form.specs.Kept.{IsKept};
ghost use Rattle.normal_form.specs.Merged.{with_finding, findings, gathered};
ghost use Rattle.normal_form.specs.Spending.{spent, counted};
ghost use Rattle.normal_form.specs.Paying.{choice_weight, IsGathered, IsWeighed};

use crate::choices::choices;
use crate::merged::Merged;
use crate::names::singletons;
use crate::search::{Ground, expand, numbers_of, search};
use crate::sizes::{choice_size, product, sum};
use graph_ast::{Alternative, CheckedPath, Graph, PathBlock};
use pgq_base::{List, NoMemory};
use std::alloc::Global;

/// What is left of an amount after a cost, and nothing where the cost is more.
pub(crate) fn spend(left: u64, cost: u64) -> Option<u64>
    ensures { result ≡ spent left cost }
{
    if cost <= left {
        Some(left - cost)
    } else {
        None
    }
}

/// Path blocks that are gathered choice by choice, and what is left after the assignments of these choices.
#[derive(Drop)]
pub(crate) struct Gathering {
    pub left: u64,
    pub merged: Merged,
}

/// The path blocks of a path pattern, and what is left after its assignments.
#[derive(Drop)]
pub(crate) struct Weighed {
    pub left: u64,
    pub blocks: List<PathBlock>,
}

/// So many assignments, each of the choice's size.
fn places_weight(path: &CheckedPath, choice: &Alternative, number: usize) -> u64
    ensures { result ≡ counted (number * choice_size path.now choice.now) }
{
    if number == 0 {
        return 0;
    }
    product(number as u64, choice_size(path, choice))
}

/// Pays for the assignments of a choice, and puts the choice into the blocks of the shapes that it has.
fn weigh_choice(
    alloc: Global,
    ground: &Ground<'_, '_, '_, '_>,
    place: u32,
    path: &CheckedPath,
    choice: &Alternative,
    gathering: Gathering,
) -> Result<Option<Gathering>, NoMemory>
    requires operand { choice.now.operand < length path.now.operands }
    requires singletons { map (λ n. n.now) ground.now.singletons.now ≡ singletons_of path.now }
    requires vertices { ground.now.vertices.now ≡ numbers_below (length ground.now.graph.now.vertices) }
    requires edges { ground.now.edges.now ≡ numbers_below (length ground.now.graph.now.edges) }
    requires kept { IsKept gathering.merged }
    requires few { gathering.left ≤ 1000000 }
    ensures { IfOk result (λ more. IsGathered gathering.left (choice_weight ground.now.graph.now path.now choice.now) (fold (with_finding place) gathering.merged.blocks.items (map (λ shape. (shape, choice.now)) (shapes_of ground.now.graph.now path.now choice.now))) more) }
{
    let Gathering { left, merged } = gathering;
    let expanded = expand(alloc, path, choice)?;
    let found = match search(alloc, ground, &expanded, left as usize)? {
        None => return Ok(None),
        Some(found) => found,
    };
    let number = found.complete.as_slice().len();
    let cost = sum(found.count as u64, places_weight(path, choice, number));
    match spend(left, cost) {
        None => Ok(None),
        Some(left) => {
            let merged = merged.put_all(
                alloc,
                place,
                expanded.tags.as_slice(),
                found.complete.as_slice(),
                choice,
            )?;
            Ok(Some(Gathering { left, merged }))
        }
    }
}

/// Pays for the assignments of all choices of a path pattern, and gathers its path blocks.
fn weigh_choices(
    alloc: Global,
    ground: &Ground<'_, '_, '_, '_>,
    place: u32,
    path: &CheckedPath,
    alternatives: &[Alternative],
    amount: u64,
) -> Result<Option<Gathering>, NoMemory>
    requires all { alternatives.now ≡ choices path.now }
    requires singletons { map (λ n. n.now) ground.now.singletons.now ≡ singletons_of path.now }
    requires vertices { ground.now.vertices.now ≡ numbers_below (length ground.now.graph.now.vertices) }
    requires edges { ground.now.edges.now ≡ numbers_below (length ground.now.graph.now.edges) }
    requires few { amount ≤ 1000000 }
    ensures { IfOk result (λ more. IsGathered amount (sum_by (choice_weight ground.now.graph.now path.now) (choices path.now)) (gathered place (findings ground.now.graph.now path.now)) more) }
{
    let mut gathering = Gathering {
        left: amount,
        merged: Merged::new(alloc),
    };
    for choice in alternatives {
        match weigh_choice(alloc, ground, place, path, choice, gathering)? {
            None => return Ok(None),
            Some(more) => gathering = more,
        }
    }
    Ok(Some(gathering))
}

/// Pays for the assignments of a path pattern as they are found, and gives its path blocks; nothing where the
/// cost is above the amount.
pub(crate) fn weigh_path(
    alloc: Global,
    graph: &Graph,
    place: u32,
    path: &CheckedPath,
    amount: u64,
) -> Result<Option<Weighed>, NoMemory>
    requires vertices { length graph.now.vertices < 2 ^ 32 }
    requires edges { length graph.now.edges < 2 ^ 32 }
    requires operands { length path.now.operands < 2 ^ 32 }
    requires few { amount ≤ 1000000 }
    ensures { IfOk result (λ weighed. IsWeighed amount (prefix_weight graph.now path.now + place_weight graph.now path.now) (path_blocks graph.now place path.now) weighed) }
{
    let singletons = singletons(alloc, path)?;
    let numbers = numbers_of(alloc, graph)?;
    let ground = Ground {
        graph,
        vertices: numbers.vertices.as_slice(),
        edges: numbers.edges.as_slice(),
        singletons: singletons.as_slice(),
    };
    let choices = choices(alloc, path)?;
    match weigh_choices(alloc, &ground, place, path, choices.as_slice(), amount)? {
        None => Ok(None),
        Some(gathering) => Ok(Some(Weighed {
            left: gathering.left,
            blocks: gathering.merged.into_blocks(),
        })),
    }
}
