ghost use Rattle.std.specs.Prelude.{◌≡◌, ◌<◌, ◌+◌, ◌*◌, ◌^◌, ◌++◌, IfOk, Option, None, Some, Bool, false, bytes_eq, slice_get, map, flat_map, replicate};
ghost use Rattle.multisets.specs.Bags.{IsIn};
ghost use Rattle.graph_meaning.specs.Choices.{edges_in as edges_among, scoped_by, iterated};
ghost use Rattle.path_lowering.specs.declared.spots.Spot.{Spot as ASpot};
ghost use Rattle.path_lowering.specs.Emitted.{lowered as lowered_condition, lowered_leaf as lowered_leaf_of, scoped_condition, spot_in as spot_within};
ghost use Rattle.path_lowering.specs.Shown.{HasProperties};
ghost use Rattle.path_lowering.specs.Unrolled.{edges_of, scoped_in};

use crate::expansion::{PieceAt, add_pieces, edges_in, placed};
use crate::properties::lowered_leaf;
use crate::scene::Scene;
use crate::spots::Spot;
use expr_tree::{Expr, map_leaves};
use graph_ast::{Piece, PropertyLeaf, Step};
use pgq_base::{Name, NoMemory};
use sql_algebra::ColumnLeaf;
use std::alloc::Global;

fn declares(piece: &Piece, name: &Name) -> bool
    ensures { result ≡ elim (Rattle.graph_meaning.specs.Choices.pattern_of piece.now).variable [ None ↦ false | Some variable ↦ bytes_eq variable name.now ] }
{
    let pattern = match piece {
        Piece::Vertex(pattern) => pattern,
        Piece::Edge(_, pattern) => pattern,
    };
    match &pattern.variable {
        None => false,
        Some(variable) => variable.as_bytes() == name.as_bytes(),
    }
}

fn spot_at(spots: &[Spot], place: usize) -> Option<Spot>
    ensures { result ≡ slice_get spots.now place }
{
    if place < spots.len() {
        Some(spots[place])
    } else {
        None
    }
}

/// The place of the first of some element patterns that has the variable.
fn spot_in(scope: &[PieceAt<'_>], spots: &[Spot], name: &Name) -> Option<Spot>
    ensures { result ≡ spot_within (map (λ p. (p.place, p.piece.now)) scope.now) spots.now name.now }
{
    for placed in scope {
        if declares(placed.piece, name) {
            return spot_at(spots, placed.place);
        }
    }
    None
}

/// The condition over the columns for which its properties stand, where the variables are those of some element patterns.
fn scoped(
    alloc: Global,
    scene: &Scene<'_>,
    spots: &[Spot],
    scope: &[PieceAt<'_>],
    condition: &Expr<PropertyLeaf>,
) -> Result<Expr<ColumnLeaf>, NoMemory>
    requires letter { scene.now.prefix < 128 }
    requires there { (spot : ASpot) → IsIn spot spots.now → HasProperties scene.now.catalog.now scene.now.graph.now spot }
    ensures { IfOk result (λ made. made ≡ lowered_condition scene.now.catalog.now scene.now.graph.now scene.now.prefix
        (spot_within (map (λ p. (p.place, p.piece.now)) scope.now) spots.now) condition.now) }
{
    map_leaves(
        alloc,
        condition,
        |leaf: &PropertyLeaf| -> Result<Expr<ColumnLeaf>, NoMemory>
            requires letter { scene.now.prefix < 128 }
            requires there { (spot : ASpot) → IsIn spot spots.now → HasProperties scene.now.catalog.now scene.now.graph.now spot }
            ensures { IfOk result (λ made. made ≡ lowered_leaf_of scene.entry.now.catalog.now scene.entry.now.graph.now scene.entry.now.prefix
                (spot_within (map (λ p. (p.place, p.piece.now)) scope.entry.now) spots.entry.now) leaf.now) }
        { lowered_leaf(alloc, scene, spot_in(scope, spots, &leaf.variable), leaf) },
    )
}

/// Conditions over the variables of some element patterns.
pub(crate) fn scoped_conditions(
    alloc: Global,
    scene: &Scene<'_>,
    spots: &[Spot],
    scope: &[PieceAt<'_>],
    conditions: &[Expr<PropertyLeaf>],
) -> Result<Vec<Expr<ColumnLeaf>>, NoMemory>
    requires letter { scene.now.prefix < 128 }
    requires there { (spot : ASpot) → IsIn spot spots.now → HasProperties scene.now.catalog.now scene.now.graph.now spot }
    ensures { IfOk result (λ made. made.items ≡ map (scoped_condition scene.now.catalog.now scene.now.graph.now scene.now.prefix spots.now)
        (scoped_by (map (λ p. (p.place, p.piece.now)) scope.now) conditions.now)) }
{
    let mut made = Vec::new(alloc);
    for condition in conditions {
        made.push(scoped(alloc, scene, spots, scope, condition)?)?;
    }
    Ok(made)
}

/// The conditions of a part in each of its iterations, where so many edge patterns stand before.
fn part_conditions(
    alloc: Global,
    scene: &Scene<'_>,
    spots: &[Spot],
    edges: usize,
    pieces: &[Piece],
    conditions: &[Expr<PropertyLeaf>],
    count: u32,
) -> Result<Vec<Expr<ColumnLeaf>>, NoMemory>
    requires letter { scene.now.prefix < 128 }
    requires there { (spot : ASpot) → IsIn spot spots.now → HasProperties scene.now.catalog.now scene.now.graph.now spot }
    requires room { edges + count * edges_among pieces.now < 2 ^ 63 }
    ensures { IfOk result (λ made. made.items ≡ map (scoped_condition scene.now.catalog.now scene.now.graph.now scene.now.prefix spots.now)
        (iterated edges (replicate count (record { pieces = pieces.now; conditions = conditions.now })))) }
{
    let own = add_pieces(Vec::new(alloc), pieces)?;
    let mut made = Vec::new(alloc);
    let mut before = edges;
    for turn in 0..count {
        let _ = turn;
        let scope = placed(alloc, before, own.as_slice())?;
        let mut more = scoped_conditions(alloc, scene, spots, scope.as_slice(), conditions)?;
        made.append(&mut more)?;
        before += edges_in(pieces);
    }
    Ok(made)
}

/// Adds the conditions of all parts in each of their iterations, where so many edge patterns stand before.
#[cycle(steps)]
#[tactic(auto, using(crate::proofs::Lists::map_joined))]
fn add_conditions(
    alloc: Global,
    scene: &Scene<'_>,
    spots: &[Spot],
    made: Vec<Expr<ColumnLeaf>>,
    edges: usize,
    steps: &[Step],
    counts: &[u32],
) -> Result<Vec<Expr<ColumnLeaf>>, NoMemory>
    requires letter { scene.now.prefix < 128 }
    requires there { (spot : ASpot) → IsIn spot spots.now → HasProperties scene.now.catalog.now scene.now.graph.now spot }
    requires room { edges + edges_of steps.now counts.now < 2 ^ 63 }
    ensures { IfOk result (λ all. all.items ≡ made.items ++ map (scoped_condition scene.now.catalog.now scene.now.graph.now scene.now.prefix spots.now)
        (scoped_in edges steps.now counts.now)) }
{
    match steps {
        [] => Ok(made),
        [Step::One(Piece::Vertex(_)), rest @ ..] => add_conditions(
            alloc, scene, spots, made, edges, rest, counts,
        ),
        [Step::One(Piece::Edge(_, _)), rest @ ..] => add_conditions(
            alloc,
            scene,
            spots,
            made,
            edges + 1,
            rest,
            counts,
        ),
        [
            Step::Part {
                pieces,
                conditions,
                ..
            },
            rest @ ..,
        ] => match counts {
            [] => Ok(made),
            [count, more @ ..] => {
                let mut made = made;
                let pieces = pieces.as_slice();
                let mut own = part_conditions(
                    alloc,
                    scene,
                    spots,
                    edges,
                    pieces,
                    conditions.as_slice(),
                    *count,
                )?;
                made.append(&mut own)?;
                let after = edges + *count as usize * edges_in(pieces);
                add_conditions(alloc, scene, spots, made, after, rest, more)
            }
        },
    }
}

/// The conditions of the parts of some steps, in each iteration.
pub(crate) fn iterated_conditions(
    alloc: Global,
    scene: &Scene<'_>,
    spots: &[Spot],
    steps: &[Step],
    counts: &[u32],
) -> Result<Vec<Expr<ColumnLeaf>>, NoMemory>
    requires letter { scene.now.prefix < 128 }
    requires there { (spot : ASpot) → IsIn spot spots.now → HasProperties scene.now.catalog.now scene.now.graph.now spot }
    requires room { edges_of steps.now counts.now < 2 ^ 63 }
    ensures { IfOk result (λ made. made.items ≡ map (scoped_condition scene.now.catalog.now scene.now.graph.now scene.now.prefix spots.now)
        (scoped_in 0 steps.now counts.now)) }
{
    add_conditions(alloc, scene, spots, Vec::new(alloc), 0, steps, counts)
}
