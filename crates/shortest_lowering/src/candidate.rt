ghost use Rattle.std.specs.Prelude.{◌≡◌, ◌<◌, ◌^◌, ◌++◌, ◌∷◌, [], IfOk, length, map};
ghost use Rattle.graph_meaning.specs.Lists.{numbers_below as numbers_under};
ghost use Rattle.sql_algebra.specs.declared.tree.Conjunct.TheVariants.{Plain};
ghost use Rattle.path_lowering.specs.Apart.{apart};
ghost use Rattle.path_lowering.specs.Selects.{select_with};
ghost use Rattle.path_lowering.specs.Shortest.{one_column, candidate_laid, candidate_select as select_of_candidate};
ghost use Rattle.shortest_lowering.specs.Comparable.{candidate_spots, candidate_conditions, with_conjuncts, IsStanding, IsPosed};
ghost use Rattle.shortest_lowering.specs.PathCandidates.{IsByItself, path_candidate as candidate_of_block};

use expr_tree::Expr;
use graph_ast::{Catalog, CheckedPath, Graph, Output, PathBlock};
use path_lowering::{
    Place, Scene, Spot, add_path_singletons, add_places, ends_across, key_leaves, path_conditions,
    select_of, sharing_conditions, spots_along,
};
use pgq_base::{List, Name, NoMemory, Value};
use sql_algebra::{Candidate, ColumnLeaf, Conjunct, Select};
use std::alloc::Global;

fn numbers_below(alloc: Global, count: usize) -> Result<Vec<u32>, NoMemory>
    requires { count < 2 ^ 32 }
    ensures { IfOk result (λ made. made.items ≡ numbers_under count) }
{
    let mut made = Vec::new(alloc);
    for i in 0..count {
        made.push(i as u32)?;
    }
    Ok(made)
}

/// The column of a SELECT of which only the existence of rows is asked: 1 AS C.
fn one_output(alloc: Global) -> Result<List<Output>, NoMemory>
    ensures { IfOk result (λ made. made ≡ one_column ∷ []) }
{
    let mut made = List::new(alloc);
    made.push(Output {
        value: Expr::Lit(Value::Number(1)),
        name: Name::from_bytes(alloc, b"C")?,
    })?;
    Ok(made)
}

/// The conditions of a candidate along its places: those of its alternatives and of its mode, then those of places of one singleton.
fn conditions_of(
    alloc: Global,
    scene: &Scene<'_>,
    path: &CheckedPath,
    candidate: &PathBlock,
    places: &[Place<'_>],
    spots: &[Spot],
) -> Result<Vec<Expr<ColumnLeaf>>, NoMemory>
    requires letter { scene.now.prefix < 128 }
    requires standing { IsStanding scene.now.catalog.now scene.now.graph.now path.now candidate.now }
    requires spots { spots.now ≡ candidate_spots candidate.now }
    requires seats { map (λ p. p.spot) places.now ≡ candidate_spots candidate.now }
    requires tags { map (λ p. p.tags.now) places.now ≡ candidate.now.tags }
    ensures { IfOk result (λ made. made.items ≡ candidate_conditions scene.now.catalog.now scene.now.graph.now scene.now.prefix path.now candidate.now) }
{
    let singletons = add_path_singletons(Vec::new(alloc), path)?;
    let names = singletons.as_slice();
    let mut made = path_conditions(alloc, scene, path, candidate, spots)?;
    let mut shared = sharing_conditions(alloc, scene, names, places)?;
    made.append(&mut shared)?;
    Ok(made)
}

/// The SELECT of a candidate along its places.
fn select_along(
    alloc: Global,
    scene: &Scene<'_>,
    path: &CheckedPath,
    candidate: &PathBlock,
    spots: &[Spot],
) -> Result<Select, NoMemory>
    requires letter { scene.now.prefix < 128 }
    requires standing { IsStanding scene.now.catalog.now scene.now.graph.now path.now candidate.now }
    requires spots { spots.now ≡ candidate_spots candidate.now }
    ensures { IfOk result (λ select. select ≡ select_with scene.now.catalog.now scene.now.graph.now scene.now.prefix candidate.now.tags (candidate_spots candidate.now)
        (candidate_conditions scene.now.catalog.now scene.now.graph.now scene.now.prefix path.now candidate.now) (one_column ∷ [])) }
{
    let made = add_places(Vec::new(alloc), candidate.tags.as_slice(), spots)?;
    let places = made.as_slice();
    let conditions = conditions_of(alloc, scene, path, candidate, places, spots)?;
    let columns = one_output(alloc)?;
    select_of(alloc, scene, places, conditions, columns.as_slice())
}

fn add_plain(
    conjuncts: List<Conjunct>,
    conditions: Vec<Expr<ColumnLeaf>>,
) -> Result<List<Conjunct>, NoMemory>
    ensures { IfOk result (λ all. all ≡ conjuncts ++ map Plain conditions.items) }
{
    let mut all = conjuncts;
    for condition in conditions {
        all.push(Conjunct::Plain(condition))?;
    }
    Ok(all)
}

/// The SELECT with more conditions, as conjuncts of their own.
pub(crate) fn with_conditions(
    select: Select,
    conditions: Vec<Expr<ColumnLeaf>>,
) -> Result<Select, NoMemory>
    ensures { IfOk result (λ all. all ≡ with_conjuncts select (map Plain conditions.items)) }
{
    let Select {
        columns,
        from,
        conjuncts,
    } = select;
    let conjuncts = add_plain(conjuncts, conditions)?;
    Ok(Select {
        columns,
        from,
        conjuncts,
    })
}

/// The places of a candidate, each with an item of its own.
fn spots_of(alloc: Global, candidate: &PathBlock) -> Result<Vec<Spot>, NoMemory>
    requires { length candidate.now.elements < 2 ^ 32 }
    ensures { IfOk result (λ made. made.items ≡ candidate_spots candidate.now) }
{
    let elements = candidate.elements.as_slice();
    let items = numbers_below(alloc, elements.len())?;
    spots_along(alloc, elements, items.as_slice())
}

/// The SELECT of a candidate under the letter S, between the ends of some places of the SELECT around it.
pub(crate) fn candidate_select(
    alloc: Global,
    scene: &Scene<'_>,
    path: &CheckedPath,
    candidate: &PathBlock,
    outside: &[Spot],
) -> Result<Select, NoMemory>
    requires { IsPosed scene.now.catalog.now scene.now.graph.now path.now outside.now candidate.now }
    ensures { IfOk result (λ select. select ≡ select_of_candidate scene.now.catalog.now scene.now.graph.now
        (candidate_laid scene.now.catalog.now scene.now.graph.now apart path.now candidate.now) outside.now) }
{
    let inner = Scene {
        catalog: scene.catalog,
        graph: scene.graph,
        prefix: b'S',
    };
    let made = spots_of(alloc, candidate)?;
    let spots = made.as_slice();
    let select = select_along(alloc, &inner, path, candidate, spots)?;
    let ends = ends_across(alloc, &inner, spots, outside)?;
    with_conditions(select, ends)
}

/// The candidate of a path block by itself: its SELECT under the letter S, its number of edges, the elements at its ends, and the leaves of
/// their keys.
pub fn path_candidate(
    alloc: Global,
    catalog: &Catalog,
    graph: &Graph,
    path: &CheckedPath,
    block: &PathBlock,
) -> Result<Candidate, NoMemory>
    requires { IsByItself catalog.now graph.now path.now block.now }
    ensures { IfOk result (λ candidate. candidate ≡ candidate_of_block catalog.now graph.now path.now block.now) }
{
    let scene = Scene {
        catalog,
        graph,
        prefix: b'S',
    };
    let made = spots_of(alloc, block)?;
    let spots = made.as_slice();
    let elements = block.elements.as_slice();
    let select = select_along(alloc, &scene, path, block, spots)?;
    let first_key = key_leaves(alloc, &scene, &spots[0])?;
    let last_key = key_leaves(alloc, &scene, &spots[spots.len() - 1])?;
    Ok(Candidate {
        select,
        length: (elements.len() / 2) as u32,
        first: elements[0],
        last: elements[elements.len() - 1],
        first_key,
        last_key,
    })
}
