ghost use Rattle.std.specs.Prelude.{◌≡◌, ◌<◌, IfOk, length, flat_map, filter};
ghost use Rattle.expr_tree.specs.declared.tree.Comparison.TheVariants.{NotEqual};
ghost use Rattle.multisets.specs.Bags.{IsIn};
ghost use Rattle.graph_meaning.specs.Bindings.{without_last};
ghost use Rattle.path_lowering.specs.declared.spots.Spot.{Spot as ASpot};
ghost use Rattle.path_lowering.specs.Spots.{element_at};
ghost use Rattle.path_lowering.specs.Emitted.{any_of as any_of_all, compared_columns, differing as differing_at, all_differing as all_differing_at, simply_differing as simply_differing_at, mode_conditions as conditions_of_mode, edge_spots, vertex_spots};
ghost use Rattle.path_lowering.specs.Shown.{HasKey, count_of_kind};

use crate::columns::{Side, compared, list_of};
use crate::elements::element_of;
use crate::scene::Scene;
use crate::spots::{Kind, Spot};
use expr_tree::{Comparison, Expr};
use graph_ast::Mode;
use pgq_base::NoMemory;
use sql_algebra::ColumnLeaf;
use std::alloc::Global;

/// The inequalities of a mode along the places of a path.
pub fn mode_conditions(
    alloc: Global,
    scene: &Scene<'_>,
    mode: Mode,
    spots: &[Spot],
) -> Result<Vec<Expr<ColumnLeaf>>, NoMemory>
    requires letter { scene.now.prefix < 128 }
    requires keys { (spot : ASpot) → IsIn spot spots.now → HasKey scene.now.catalog.now scene.now.graph.now spot }
    ensures { IfOk result (λ made. made.items ≡ conditions_of_mode scene.now.catalog.now scene.now.graph.now scene.now.prefix mode spots.now) }
{
    match mode {
        Mode::Walk => Ok(Vec::new(alloc)),
        Mode::Trail => all_differing(alloc, scene, edges_among(alloc, spots)?.as_slice()),
        Mode::Acyclic => all_differing(alloc, scene, vertices_among(alloc, spots)?.as_slice()),
        Mode::Simple => simply_differing(alloc, scene, vertices_among(alloc, spots)?.as_slice()),
    }
}

fn edges_among(alloc: Global, spots: &[Spot]) -> Result<Vec<Spot>, NoMemory>
    ensures { IfOk result (λ found. found.items ≡ edge_spots spots.now) }
{
    let mut found = Vec::new(alloc);
    for spot in spots {
        if let Kind::Edge = spot.kind {
            found.push(*spot)?;
        }
    }
    Ok(found)
}

fn vertices_among(alloc: Global, spots: &[Spot]) -> Result<Vec<Spot>, NoMemory>
    ensures { IfOk result (λ found. found.items ≡ vertex_spots spots.now) }
{
    let mut found = Vec::new(alloc);
    for spot in spots {
        if let Kind::Vertex = spot.kind {
            found.push(*spot)?;
        }
    }
    Ok(found)
}

fn all_differing(
    alloc: Global,
    scene: &Scene<'_>,
    spots: &[Spot],
) -> Result<Vec<Expr<ColumnLeaf>>, NoMemory>
    requires letter { scene.now.prefix < 128 }
    requires keys { (spot : ASpot) → IsIn spot spots.now → HasKey scene.now.catalog.now scene.now.graph.now spot }
    requires kinds { (a b : ASpot) → IsIn a spots.now → IsIn b spots.now → a.kind ≡ b.kind }
    ensures { IfOk result (λ made. made.items ≡ all_differing_at scene.now.catalog.now scene.now.graph.now scene.now.prefix spots.now) }
{
    let mut made = Vec::new(alloc);
    for (i, spot) in spots.iter().enumerate() {
        let mut more = differing_from(alloc, scene, spot, &spots[i + 1..])?;
        made.append(&mut more)?;
    }
    Ok(made)
}

/// The first and the last may be the same.
fn simply_differing(
    alloc: Global,
    scene: &Scene<'_>,
    spots: &[Spot],
) -> Result<Vec<Expr<ColumnLeaf>>, NoMemory>
    requires letter { scene.now.prefix < 128 }
    requires keys { (spot : ASpot) → IsIn spot spots.now → HasKey scene.now.catalog.now scene.now.graph.now spot }
    requires kinds { (a b : ASpot) → IsIn a spots.now → IsIn b spots.now → a.kind ≡ b.kind }
    ensures { IfOk result (λ made. made.items ≡ simply_differing_at scene.now.catalog.now scene.now.graph.now scene.now.prefix spots.now) }
{
    match spots {
        [] => Ok(Vec::new(alloc)),
        [first, others @ ..] => {
            let mut made = differing_from(alloc, scene, first, front_of(others))?;
            let mut more = all_differing(alloc, scene, others)?;
            made.append(&mut more)?;
            Ok(made)
        }
    }
}

/// All but the last.
fn front_of(spots: &[Spot]) -> &[Spot]
    ensures { result.now ≡ without_last spots.now }
{
    match spots {
        [] => spots,
        [front @ .., _] => front,
    }
}

fn differing_from(
    alloc: Global,
    scene: &Scene<'_>,
    spot: &Spot,
    others: &[Spot],
) -> Result<Vec<Expr<ColumnLeaf>>, NoMemory>
    requires letter { scene.now.prefix < 128 }
    requires own { HasKey scene.now.catalog.now scene.now.graph.now spot.now }
    requires keys { (other : ASpot) → IsIn other others.now → HasKey scene.now.catalog.now scene.now.graph.now other }
    requires kinds { (other : ASpot) → IsIn other others.now → spot.now.kind ≡ other.kind }
    ensures { IfOk result (λ made. made.items ≡ flat_map (differing_at scene.now.catalog.now scene.now.graph.now scene.now.prefix spot.now) others.now) }
{
    let mut made = Vec::new(alloc);
    for other in others {
        if spot.element == other.element {
            made.push(differing(alloc, scene, spot, other)?)?;
        }
    }
    Ok(made)
}

/// A key column differs.
fn differing(
    alloc: Global,
    scene: &Scene<'_>,
    a: &Spot,
    b: &Spot,
) -> Result<Expr<ColumnLeaf>, NoMemory>
    requires letter { scene.now.prefix < 128 }
    requires a { HasKey scene.now.catalog.now scene.now.graph.now a.now }
    requires b { HasKey scene.now.catalog.now scene.now.graph.now b.now }
    requires many { length (element_at scene.now.graph.now a.now).key ≡ length (element_at scene.now.graph.now b.now).key }
    ensures { IfOk result (λ made. made ≡ any_of_all (compared_columns scene.now.catalog.now scene.now.graph.now scene.now.prefix NotEqual
        a.now (element_at scene.now.graph.now a.now).key b.now (element_at scene.now.graph.now b.now).key)) }
{
    let left = key_side(scene, a);
    let right = key_side(scene, b);
    let pairs = compared(
        alloc,
        scene.catalog,
        scene.prefix,
        Comparison::NotEqual,
        &left,
        &right,
    )?;
    any_of(alloc, pairs)
}

/// The key of the element at a place, under its item.
pub(crate) fn key_side<'a>(scene: &Scene<'a>, spot: &Spot) -> Side<'a>
    requires { spot.now.element < count_of_kind scene.now.graph.now spot.now.kind }
    ensures element { result.element.now ≡ element_at scene.now.graph.now spot.now }
    ensures item { result.item ≡ spot.now.item }
    ensures columns { result.columns.now ≡ (element_at scene.now.graph.now spot.now).key }
{
    let element = element_of(scene.graph, spot);
    Side {
        element,
        item: spot.item,
        columns: element.key.as_slice(),
    }
}

/// The OR of the members; one alone stands for itself.
pub(crate) fn any_of(
    alloc: Global,
    members: Vec<Expr<ColumnLeaf>>,
) -> Result<Expr<ColumnLeaf>, NoMemory>
    ensures { IfOk result (λ made. made ≡ any_of_all members.items) }
{
    let mut members = members;
    if members.len() == 1 {
        if let Some(only) = members.pop() {
            return Ok(only);
        }
    }
    Ok(Expr::Any(list_of(alloc, members)?))
}
