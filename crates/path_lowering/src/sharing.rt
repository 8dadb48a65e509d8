ghost use Rattle.std.specs.Prelude.{◌≡◌, ◌<◌, IfOk, ℕ, List, length, map, flat_map};
ghost use Rattle.multisets.specs.Bags.{IsIn};
ghost use Rattle.graph_meaning.specs.Lists.{tagged};
ghost use Rattle.path_lowering.specs.declared.spots.Spot.{Spot as ASpot};
ghost use Rattle.path_lowering.specs.Spots.{element_at};
ghost use Rattle.path_lowering.specs.Emitted.{same_key as same_key_at, all_same_key, sharing_conditions as conditions_of_sharing};
ghost use Rattle.path_lowering.specs.Shown.{HasKey};

use crate::columns::compared;
use crate::modes::key_side;
use crate::properties::{Place, has_name};
use crate::scene::Scene;
use crate::spots::Spot;
use expr_tree::{Comparison, Expr};
use pgq_base::{Name, NoMemory};
use sql_algebra::ColumnLeaf;
use std::alloc::Global;

/// The key equalities between places of one singleton that have items of their own.
pub fn sharing_conditions(
    alloc: Global,
    scene: &Scene<'_>,
    names: &[&Name],
    places: &[Place<'_>],
) -> Result<Vec<Expr<ColumnLeaf>>, NoMemory>
    requires letter { scene.now.prefix < 128 }
    requires keys { (spot : ASpot) → IsIn spot (map (λ p. p.spot) places.now) → HasKey scene.now.catalog.now scene.now.graph.now spot }
    requires alike { (name : List ℕ) (a b : ASpot) → IsIn name (map (λ n. n.now) names.now)
        → IsIn a (tagged name (map (λ p. p.tags.now) places.now) (map (λ p. p.spot) places.now)) → IsIn b (tagged name (map (λ p. p.tags.now) places.now) (map (λ p. p.spot) places.now))
        → element_at scene.now.graph.now a ≡ element_at scene.now.graph.now b }
    ensures { IfOk result (λ made. made.items ≡ conditions_of_sharing scene.now.catalog.now scene.now.graph.now scene.now.prefix
        (map (λ n. n.now) names.now) (map (λ p. p.tags.now) places.now) (map (λ p. p.spot) places.now)) }
{
    let mut made = Vec::new(alloc);
    for name in names {
        let spots = tagged_spots(alloc, name, places)?;
        let mut more = same_keys(alloc, scene, spots.as_slice())?;
        made.append(&mut more)?;
    }
    Ok(made)
}

fn tagged_spots(alloc: Global, name: &Name, places: &[Place<'_>]) -> Result<Vec<Spot>, NoMemory>
    ensures { IfOk result (λ found. found.items ≡ tagged name.now (map (λ p. p.tags.now) places.now) (map (λ p. p.spot) places.now)) }
{
    let mut found = Vec::new(alloc);
    for place in places {
        if has_name(place.tags, name) {
            found.push(place.spot)?;
        }
    }
    Ok(found)
}

fn same_keys(
    alloc: Global,
    scene: &Scene<'_>,
    spots: &[Spot],
) -> Result<Vec<Expr<ColumnLeaf>>, NoMemory>
    requires letter { scene.now.prefix < 128 }
    requires keys { (spot : ASpot) → IsIn spot spots.now → HasKey scene.now.catalog.now scene.now.graph.now spot }
    requires alike { (a b : ASpot) → IsIn a spots.now → IsIn b spots.now → element_at scene.now.graph.now a ≡ element_at scene.now.graph.now b }
    ensures { IfOk result (λ made. made.items ≡ all_same_key scene.now.catalog.now scene.now.graph.now scene.now.prefix spots.now) }
{
    match spots {
        [] => Ok(Vec::new(alloc)),
        [first, others @ ..] => same_as(alloc, scene, first, others),
    }
}

fn same_as(
    alloc: Global,
    scene: &Scene<'_>,
    first: &Spot,
    others: &[Spot],
) -> Result<Vec<Expr<ColumnLeaf>>, NoMemory>
    requires letter { scene.now.prefix < 128 }
    requires own { HasKey scene.now.catalog.now scene.now.graph.now first.now }
    requires keys { (other : ASpot) → IsIn other others.now → HasKey scene.now.catalog.now scene.now.graph.now other }
    requires alike { (other : ASpot) → IsIn other others.now → element_at scene.now.graph.now first.now ≡ element_at scene.now.graph.now other }
    ensures { IfOk result (λ made. made.items ≡ flat_map (same_key_at scene.now.catalog.now scene.now.graph.now scene.now.prefix first.now) others.now) }
{
    let mut made = Vec::new(alloc);
    for other in others {
        let mut more = same_key(alloc, scene, first, other)?;
        made.append(&mut more)?;
    }
    Ok(made)
}

fn same_key(
    alloc: Global,
    scene: &Scene<'_>,
    a: &Spot,
    b: &Spot,
) -> Result<Vec<Expr<ColumnLeaf>>, NoMemory>
    requires letter { scene.now.prefix < 128 }
    requires a { HasKey scene.now.catalog.now scene.now.graph.now a.now }
    requires b { HasKey scene.now.catalog.now scene.now.graph.now b.now }
    requires many { length (element_at scene.now.graph.now a.now).key ≡ length (element_at scene.now.graph.now b.now).key }
    ensures { IfOk result (λ made. made.items ≡ same_key_at scene.now.catalog.now scene.now.graph.now scene.now.prefix a.now b.now) }
{
    if a.item == b.item {
        return Ok(Vec::new(alloc));
    }
    let left = key_side(scene, a);
    let right = key_side(scene, b);
    compared(
        alloc,
        scene.catalog,
        scene.prefix,
        Comparison::Equal,
        &left,
        &right,
    )
}
