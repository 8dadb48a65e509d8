ghost use Rattle.std.specs.Prelude.{◌≡◌, ◌<◌, ◌^◌, length, map, IfOk};
ghost use Rattle.std.specs.List.{fold};
ghost use Rattle.graph_ast.specs.Lookups.{graph_at};
ghost use Rattle.graph_meaning.specs.Lists.{numbers_below};
ghost use Rattle.graph_meaning.specs.Choices.{choices, singletons_of};
ghost use Rattle.graph_meaning.specs.Blocks.{path_blocks, shapes_of};
ghost use Rattle.graph_meaning.specs.Weights.{path_at};
ghost use Rattle.normal_form.specs.Checked.{IsNumbered};
ghost use Rattle.normal_form.specs.Kept.{IsKept};
ghost use Rattle.normal_form.specs.Merged.{with_finding, findings, gathered};

use crate::choices::choices;
use crate::merged::Merged;
use crate::names::singletons;
use crate::search::{Ground, expand, numbers_of, search};
use graph_ast::{Alternative, Catalog, CheckedPath, CheckedQuery, Graph, PathBlock};
use pgq_base::{List, NoMemory};
use std::alloc::Global;

/// Puts a choice into the blocks of the shapes that it has. No memory holds as many assignments as are
/// looked for.
fn with_shapes(
    alloc: Global,
    ground: &Ground<'_, '_, '_, '_>,
    place: u32,
    path: &CheckedPath,
    choice: &Alternative,
    merged: Merged,
) -> Result<Merged, NoMemory>
    requires operand { choice.now.operand < length path.now.operands }
    requires singletons { map (λ n. n.now) ground.now.singletons.now ≡ singletons_of path.now }
    requires vertices { ground.now.vertices.now ≡ numbers_below (length ground.now.graph.now.vertices) }
    requires edges { ground.now.edges.now ≡ numbers_below (length ground.now.graph.now.edges) }
    requires kept { IsKept merged }
    ensures kept { IfOk result (λ more. IsKept more) }
    ensures blocks { IfOk result (λ more. more.blocks.items ≡ fold (with_finding place) merged.blocks.items (map (λ shape. (shape, choice.now)) (shapes_of ground.now.graph.now path.now choice.now))) }
{
    let expanded = expand(alloc, path, choice)?;
    match search(alloc, ground, &expanded, usize::MAX)? {
        None => Err(NoMemory),
        Some(found) => merged.put_all(
            alloc,
            place,
            expanded.tags.as_slice(),
            found.complete.as_slice(),
            choice,
        ),
    }
}

/// What all choices of a path pattern gather.
fn gathered(
    alloc: Global,
    ground: &Ground<'_, '_, '_, '_>,
    place: u32,
    path: &CheckedPath,
    alternatives: &[Alternative],
) -> Result<Merged, NoMemory>
    requires all { alternatives.now ≡ choices path.now }
    requires singletons { map (λ n. n.now) ground.now.singletons.now ≡ singletons_of path.now }
    requires vertices { ground.now.vertices.now ≡ numbers_below (length ground.now.graph.now.vertices) }
    requires edges { ground.now.edges.now ≡ numbers_below (length ground.now.graph.now.edges) }
    ensures { IfOk result (λ merged. merged.blocks.items ≡ gathered place (findings ground.now.graph.now path.now)) }
{
    let mut merged = Merged::new(alloc);
    for choice in alternatives {
        merged = with_shapes(alloc, ground, place, path, choice, merged)?;
    }
    Ok(merged)
}

/// The path blocks of one path pattern, numbered by its place.
#[tactic(auto, using(crate::proofs::BlocksGathered::blocks_gathered))]
pub(crate) fn blocks_of_path(
    alloc: Global,
    graph: &Graph,
    place: u32,
    path: &CheckedPath,
) -> Result<List<PathBlock>, NoMemory>
    requires vertices { length graph.now.vertices < 2 ^ 32 }
    requires edges { length graph.now.edges < 2 ^ 32 }
    requires operands { length path.now.operands < 2 ^ 32 }
    ensures { IfOk result (λ blocks. blocks ≡ path_blocks graph.now place path.now) }
{
    let singletons = singletons(alloc, path)?;
    let numbers = numbers_of(alloc, graph)?;
    let ground = Ground {
        graph,
        vertices: numbers.vertices.as_slice(),
        edges: numbers.edges.as_slice(),
        singletons: singletons.as_slice(),
    };
    let choices = choices(alloc, path)?;
    let merged = gathered(alloc, &ground, place, path, choices.as_slice())?;
    Ok(merged.into_blocks())
}

/// The path blocks of a path pattern: each pair of tags and a feasible assignment of all places once, in
/// the order of the first choice that has it, with all choices that have it.
pub fn path_blocks(
    alloc: Global,
    catalog: &Catalog,
    query: &CheckedQuery,
    path: u32,
) -> Result<List<PathBlock>, NoMemory>
    requires { IsNumbered catalog.now query.now path }
    ensures { IfOk result (λ blocks. blocks ≡ path_blocks (graph_at catalog.now query.now.graph) path (path_at query.now path)) }
{
    let graph = &catalog.graphs.as_slice()[query.graph as usize];
    blocks_of_path(alloc, graph, path, &query.paths.as_slice()[path as usize])
}
