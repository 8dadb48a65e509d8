ghost use Rattle.std.specs.Prelude.{◌≡◌, ◌≤◌, ◌++◌, IfOk, length, map, filter, flat_map};
ghost use Rattle.std.specs.List.{AllZip};
ghost use Rattle.multisets.specs.Bags.{IsIn};
ghost use Rattle.graph_ast.specs.declared.blocks.PathBlock.{PathBlock as APathBlock};
ghost use Rattle.graph_meaning.specs.Weights.{is_candidate as is_candidate_of};
ghost use Rattle.sql_algebra.specs.declared.tree.Conjunct.TheVariants.{NotExists};
ghost use Rattle.path_lowering.specs.Apart.{apart};
ghost use Rattle.path_lowering.specs.Lowered.{lay, lay_all};
ghost use Rattle.path_lowering.specs.Shortest.{candidate_laid, candidate_select as select_of_candidate};
ghost use Rattle.shortest_lowering.specs.Comparable.{IsPosed, IsComparable};
ghost use Rattle.shortest_lowering.specs.Selected.{shorter_of};

use crate::candidate::candidate_select;
use graph_ast::{CheckedPath, PathBlock};
use path_lowering::{Scene, Spot, is_candidate, spots_along};
use pgq_base::{List, NoMemory};
use sql_algebra::Conjunct;
use sqlite_items::Boxed;
use std::alloc::Global;

/// Adds that no candidate has rows between the ends of some places.
fn add_none_shorter(
    alloc: Global,
    scene: &Scene<'_>,
    conjuncts: List<Conjunct>,
    path: &CheckedPath,
    part: &PathBlock,
    blocks: &[PathBlock],
    outside: &[Spot],
) -> Result<List<Conjunct>, NoMemory>
    requires { (other : APathBlock) → IsIn other (filter (is_candidate_of part.now) blocks.now) → IsPosed scene.now.catalog.now scene.now.graph.now path.now outside.now other }
    ensures { IfOk result (λ all. all ≡ conjuncts ++ map (λ other. NotExists (select_of_candidate scene.now.catalog.now scene.now.graph.now
        (candidate_laid scene.now.catalog.now scene.now.graph.now apart path.now other) outside.now)) (filter (is_candidate_of part.now) blocks.now)) }
{
    let mut all = conjuncts;
    for block in blocks {
        let is_shorter = is_candidate(part, block);
        if is_shorter {
            let select = candidate_select(alloc, scene, path, block, outside)?;
            all.push(Conjunct::NotExists(Boxed::new(alloc, select)?))?;
        }
    }
    Ok(all)
}

/// Adds what a path asks under ALL SHORTEST of its places, which have the first of some items.
fn add_shorter(
    alloc: Global,
    scene: &Scene<'_>,
    conjuncts: List<Conjunct>,
    path: &CheckedPath,
    part: &PathBlock,
    items: &[u32],
    candidates: &[List<PathBlock>],
) -> Result<List<Conjunct>, NoMemory>
    requires comparable { IsComparable scene.now.catalog.now scene.now.graph.now candidates.now path.now part.now }
    requires many { length part.now.elements ≤ length items.now }
    ensures { IfOk result (λ all. all ≡ conjuncts ++ shorter_of scene.now.catalog.now scene.now.graph.now apart
        (lay scene.now.catalog.now scene.now.graph.now 65 apart path.now part.now items.now)) }
{
    if !path.all_shortest {
        return Ok(conjuncts);
    }
    let made = spots_along(alloc, part.elements.as_slice(), items)?;
    let blocks = candidates[part.path as usize].as_slice();
    let outside = made.as_slice();
    add_none_shorter(alloc, scene, conjuncts, path, part, blocks, outside)
}

/// Adds what each path of a block asks under ALL SHORTEST, along places that have these items.
#[cycle(shorter)]
pub(crate) fn add_all_shorter(
    alloc: Global,
    scene: &Scene<'_>,
    conjuncts: List<Conjunct>,
    paths: &[CheckedPath],
    parts: &[PathBlock],
    items: &[u32],
    candidates: &[List<PathBlock>],
) -> Result<List<Conjunct>, NoMemory>
    requires comparable { AllZip (IsComparable scene.now.catalog.now scene.now.graph.now candidates.now) paths.now parts.now }
    requires many { length items.now ≡ length (flat_map (λ part. part.elements) parts.now) }
    ensures { IfOk result (λ all. all ≡ conjuncts ++ flat_map (shorter_of scene.now.catalog.now scene.now.graph.now apart)
        (lay_all scene.now.catalog.now scene.now.graph.now 65 apart paths.now parts.now items.now)) }
{
    match paths {
        [] => Ok(conjuncts),
        [path, more @ ..] => match parts {
            [] => Ok(conjuncts),
            [part, others @ ..] => {
                let all = add_shorter(alloc, scene, conjuncts, path, part, items, candidates)?;
                let count = part.elements.as_slice().len();
                add_all_shorter(alloc, scene, all, more, others, &items[count..], candidates)
            }
        },
    }
}
