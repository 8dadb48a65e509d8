ghost use Rattle.std.specs.Prelude.{◌≡◌, ◌++◌, ◌+◌, ◌<◌, ◌≤◌, ◌^◌, length, map, flat_map, replicate, IfOk};
ghost use Rattle.graph_meaning.specs.Choices.{iterations, edges_in as edges_among, placed as placed_pieces};
ghost use Rattle.path_lowering.specs.Unrolled.{repeated};

use graph_ast::{Operand, Piece, Step};
use pgq_base::NoMemory;
use std::alloc::Global;

/// An element pattern at a place.
#[derive(Clone, Copy)]
pub(crate) struct PieceAt<'a> {
    pub place: usize,
    pub piece: &'a Piece,
}

/// Adds some element patterns.
pub(crate) fn add_pieces<'a>(
    mut all: Vec<&'a Piece>,
    pieces: &'a [Piece],
) -> Result<Vec<&'a Piece>, NoMemory>
    ensures { IfOk result (λ v. map (λ p. p.now) v.items ≡ map (λ p. p.now) all.entry.items ++ pieces.entry.now) }
{
    for piece in pieces {
        all.push(piece)?;
    }
    Ok(all)
}

fn add_often<'a>(
    mut all: Vec<&'a Piece>,
    pieces: &'a [Piece],
    count: u32,
) -> Result<Vec<&'a Piece>, NoMemory>
    ensures { IfOk result (λ v. map (λ p. p.now) v.items ≡ map (λ p. p.now) all.entry.items ++ flat_map (λ x. x) (replicate count pieces.entry.now)) }
{
    for turn in 0..count {
        let _ = turn;
        all = add_pieces(all, pieces)?;
    }
    Ok(all)
}

/// Adds the element patterns of some steps, each part as often as its count says.
#[cycle(steps)]
fn add_steps<'a>(
    mut all: Vec<&'a Piece>,
    steps: &'a [Step],
    counts: &[u32],
) -> Result<Vec<&'a Piece>, NoMemory>
    ensures { IfOk result (λ v. map (λ p. p.now) v.items ≡ map (λ p. p.now) all.entry.items ++ repeated steps.entry.now counts.now) }
{
    match steps {
        [] => Ok(all),
        [Step::One(piece), rest @ ..] => {
            all.push(piece)?;
            add_steps(all, rest, counts)
        }
        [Step::Part { pieces, .. }, rest @ ..] => match counts {
            [] => Ok(all),
            [count, more @ ..] => {
                all = add_often(all, pieces.as_slice(), *count)?;
                add_steps(all, rest, more)
            }
        },
    }
}

/// The element patterns of a choice, in their order.
#[tactic(auto, using(crate::proofs::UnrolledLemmas::repeated_is))]
pub(crate) fn pieces_of<'a>(
    alloc: Global,
    operand: &'a Operand,
    counts: &[u32],
) -> Result<Vec<&'a Piece>, NoMemory>
    ensures { IfOk result (λ v. map (λ p. p.now) v.items ≡ flat_map (λ part. part.pieces) (iterations operand.entry.now.steps counts.now)) }
{
    add_steps(Vec::new(alloc), operand.steps.as_slice(), counts)
}

/// The number of edge patterns.
pub(crate) fn edges_in(pieces: &[Piece]) -> usize
    ensures value { result ≡ edges_among pieces.now }
    ensures most { result ≤ length pieces.now }
{
    let mut edges = 0;
    for piece in pieces {
        match piece {
            Piece::Vertex(_) => {}
            Piece::Edge(_, _) => edges += 1,
        }
    }
    edges
}

/// The element patterns at their places, where so many edge patterns stand before them.
pub(crate) fn placed<'a>(
    alloc: Global,
    edges: usize,
    pieces: &[&'a Piece],
) -> Result<Vec<PieceAt<'a>>, NoMemory>
    requires { edges + edges_among (map (λ p. p.now) pieces.now) < 2 ^ 63 }
    ensures { IfOk result (λ v. map (λ p. (p.place, p.piece.now)) v.items ≡ placed_pieces edges (map (λ p. p.now) pieces.entry.now)) }
{
    let mut all = Vec::new(alloc);
    let mut edges = edges;
    for piece in pieces {
        match piece {
            Piece::Vertex(_) => all.push(PieceAt {
                place: 2 * edges,
                piece: *piece,
            })?,
            Piece::Edge(_, _) => {
                all.push(PieceAt {
                    place: 2 * edges + 1,
                    piece: *piece,
                })?;
                edges += 1;
            }
        }
    }
    Ok(all)
}
