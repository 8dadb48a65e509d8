ghost use Rattle.std.specs.Prelude.{◌≡◌, ◌<◌, ◌+◌, ◌-◌, ◌^◌, IfOk, slice_get, map, flat_map};
ghost use Rattle.multisets.specs.Bags.{IsIn};
ghost use Rattle.graph_meaning.specs.Choices.{PlacedPiece as APlacedPiece, expanded, expansion_of};
ghost use Rattle.path_lowering.specs.declared.spots.Spot.{Spot as ASpot};
ghost use Rattle.path_lowering.specs.Emitted.{between as conditions_between, piece_conditions as conditions_of_piece, choice_conditions as conditions_of_choice};
ghost use Rattle.path_lowering.specs.Shown.{HasProperties};
ghost use Rattle.path_lowering.specs.Unrolled.{IsBetween, IsPieceAt};
ghost use Rattle.path_lowering.specs.Layable.{IsChoiceAt};

use crate::edges::edge_conditions;
use crate::expansion::{PieceAt, pieces_of, placed};
use crate::scene::Scene;
use crate::scopes::{iterated_conditions, scoped_conditions};
use crate::spots::Spot;
use expr_tree::Expr;
use graph_ast::{Alternative, CheckedPath, Direction, Operand, Piece};
use pgq_base::NoMemory;
use sql_algebra::ColumnLeaf;
use std::alloc::Global;

/// The key equalities of an edge at a place with its neighbours.
fn edge_at(
    alloc: Global,
    scene: &Scene<'_>,
    spots: &[Spot],
    place: usize,
    direction: Direction,
) -> Result<Vec<Expr<ColumnLeaf>>, NoMemory>
    requires letter { scene.now.prefix < 128 }
    requires between { IsBetween scene.now.catalog.now scene.now.graph.now spots.now place direction }
    ensures { IfOk result (λ made. made.items ≡ conditions_between scene.now.catalog.now scene.now.graph.now scene.now.prefix direction
        (slice_get spots.now (place - 1)) (slice_get spots.now place) (slice_get spots.now (place + 1))) }
{
    let left = &spots[place - 1];
    let edge = &spots[place];
    let right = &spots[place + 1];
    edge_conditions(alloc, scene, direction, left, edge, right)
}

/// The key equalities of an element pattern: those of an edge with its neighbours.
fn piece_conditions(
    alloc: Global,
    scene: &Scene<'_>,
    spots: &[Spot],
    placed: &PieceAt<'_>,
) -> Result<Vec<Expr<ColumnLeaf>>, NoMemory>
    requires letter { scene.now.prefix < 128 }
    requires there { IsPieceAt scene.now.catalog.now scene.now.graph.now spots.now (placed.now.place, placed.now.piece.now) }
    ensures { IfOk result (λ made. made.items ≡ conditions_of_piece scene.now.catalog.now scene.now.graph.now scene.now.prefix spots.now (placed.now.place, placed.now.piece.now)) }
{
    match placed.piece {
        Piece::Vertex(_) => Ok(Vec::new(alloc)),
        Piece::Edge(direction, _) => edge_at(alloc, scene, spots, placed.place, *direction),
    }
}

fn pieces_conditions(
    alloc: Global,
    scene: &Scene<'_>,
    spots: &[Spot],
    pieces: &[PieceAt<'_>],
) -> Result<Vec<Expr<ColumnLeaf>>, NoMemory>
    requires letter { scene.now.prefix < 128 }
    requires there { (piece : APlacedPiece) → IsIn piece (map (λ p. (p.place, p.piece.now)) pieces.now) → IsPieceAt scene.now.catalog.now scene.now.graph.now spots.now piece }
    ensures { IfOk result (λ made. made.items ≡ flat_map (conditions_of_piece scene.now.catalog.now scene.now.graph.now scene.now.prefix spots.now) (map (λ p. (p.place, p.piece.now)) pieces.now)) }
{
    let mut made = Vec::new(alloc);
    for piece in pieces {
        let mut more = piece_conditions(alloc, scene, spots, piece)?;
        made.append(&mut more)?;
    }
    Ok(made)
}

/// The conditions of an operand, whose parts are repeated so often, along the places of its path.
fn operand_conditions(
    alloc: Global,
    scene: &Scene<'_>,
    operand: &Operand,
    counts: &[u32],
    spots: &[Spot],
) -> Result<Vec<Expr<ColumnLeaf>>, NoMemory>
    requires letter { scene.now.prefix < 128 }
    requires room { (expanded operand.now counts.now).edges < 2 ^ 63 }
    requires pieces { (piece : APlacedPiece) → IsIn piece (expanded operand.now counts.now).pieces → IsPieceAt scene.now.catalog.now scene.now.graph.now spots.now piece }
    requires properties { (spot : ASpot) → IsIn spot spots.now → HasProperties scene.now.catalog.now scene.now.graph.now spot }
    ensures { IfOk result (λ made. made.items ≡ conditions_of_choice scene.now.catalog.now scene.now.graph.now scene.now.prefix (expanded operand.now counts.now) spots.now) }
{
    let own = pieces_of(alloc, operand, counts)?;
    let all = placed(alloc, 0, own.as_slice())?;
    let pieces = all.as_slice();
    let steps = operand.steps.as_slice();
    let mut iterated = iterated_conditions(alloc, scene, spots, steps, counts)?;
    let conditions = operand.conditions.as_slice();
    let mut whole = scoped_conditions(alloc, scene, spots, pieces, conditions)?;
    let mut made = pieces_conditions(alloc, scene, spots, pieces)?;
    made.append(&mut iterated)?;
    made.append(&mut whole)?;
    Ok(made)
}

/// The conditions of a choice along the places of its path: that edges join their neighbours, then its own conditions.
pub(crate) fn choice_conditions(
    alloc: Global,
    scene: &Scene<'_>,
    path: &CheckedPath,
    choice: &Alternative,
    spots: &[Spot],
) -> Result<Vec<Expr<ColumnLeaf>>, NoMemory>
    requires letter { scene.now.prefix < 128 }
    requires there { IsChoiceAt scene.now.catalog.now scene.now.graph.now path.now spots.now choice.now }
    requires properties { (spot : ASpot) → IsIn spot spots.now → HasProperties scene.now.catalog.now scene.now.graph.now spot }
    ensures { IfOk result (λ made. made.items ≡ conditions_of_choice scene.now.catalog.now scene.now.graph.now scene.now.prefix (expansion_of path.now choice.now) spots.now) }
{
    let operand = &path.operands.as_slice()[choice.operand as usize];
    operand_conditions(alloc, scene, operand, choice.counts.as_slice(), spots)
}
