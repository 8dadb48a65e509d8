ghost use Rattle.std.specs.Prelude.{◌≡◌, ◌≤◌, ◌<◌, ◌++◌, IfOk, length, map};
ghost use Rattle.path_lowering.specs.declared.spots.Kind.TheVariants.{Vertex};
ghost use Rattle.path_lowering.specs.Spots.{other_kind as kind_after, spots_along as spots_of_path};

use crate::properties::Place;
use crate::spots::{Kind, Spot};
use graph_ast::Tags;
use pgq_base::NoMemory;
use std::alloc::Global;

fn other_kind(kind: Kind) -> Kind
    ensures { result ≡ kind_after kind }
{
    match kind {
        Kind::Vertex => Kind::Edge,
        Kind::Edge => Kind::Vertex,
    }
}

/// The places of a path, vertices and edges in turn, with the first of some items.
pub fn spots_along(alloc: Global, elements: &[u32], items: &[u32]) -> Result<Vec<Spot>, NoMemory>
    requires { length elements.now ≤ length items.now }
    ensures { IfOk result (λ made. made.items ≡ spots_of_path Vertex elements.now items.now) }
{
    let mut made = Vec::new(alloc);
    let mut kind = Kind::Vertex;
    for (i, element) in elements.iter().enumerate() {
        let item = items[i];
        made.push(Spot {
            kind,
            element: *element,
            item,
        })?;
        kind = other_kind(kind);
    }
    Ok(made)
}

/// Adds places with their tags.
pub fn add_places<'a>(
    places: Vec<Place<'a>>,
    own: &'a [Tags],
    spots: &[Spot],
) -> Result<Vec<Place<'a>>, NoMemory>
    requires { length own.now ≡ length spots.now }
    ensures tags { IfOk result (λ all. map (λ p. p.tags.now) all.items ≡ map (λ p. p.tags.now) places.entry.items ++ own.entry.now) }
    ensures spots { IfOk result (λ all. map (λ p. p.spot) all.items ≡ map (λ p. p.spot) places.entry.items ++ spots.entry.now) }
{
    let mut places = places;
    for (i, tags) in own.iter().enumerate() {
        places.push(Place {
            tags,
            spot: spots[i],
        })?;
    }
    Ok(places)
}
