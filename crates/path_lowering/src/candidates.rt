ghost use Rattle.std.specs.Prelude.{◌≡◌, ◌≤◌, ◌<◌, ◌-◌, IfOk, length, map, slice_index_or};
ghost use Rattle.graph_meaning.specs.Weights.{is_candidate as is_candidate_of};
ghost use Rattle.path_lowering.specs.Spots.{element_at};
ghost use Rattle.path_lowering.specs.Shortest.{spot_at, last_place, key_across as keys_across, ends_across as both_ends_across};
ghost use Rattle.path_lowering.specs.Shown.{AreColumnsIn, HasKey};
ghost use Rattle.path_lowering.specs.Emitted.{leaf_in, leaf_of};
ghost use Rattle.expr_tree.specs.declared.tree.Comparison.TheVariants.{Equal};
ghost use Rattle.expr_tree.specs.declared.tree.Expr.TheVariants.{Leaf, Compare};
ghost use Rattle.path_lowering.specs.Layable.{AreEnds};

use crate::columns::{Side, comparison, leaf};
use crate::modes::key_side;
use crate::scene::Scene;
use crate::spots::Spot;
use expr_tree::{Comparison, Expr};
use graph_ast::{Catalog, PathBlock};
use pgq_base::{List, NoMemory};
use sql_algebra::ColumnLeaf;
use std::alloc::Global;

fn number_at(numbers: &[u32], place: usize) -> u32
    ensures { result ≡ slice_index_or numbers.now place 0 }
{
    if place < numbers.len() {
        numbers[place]
    } else {
        0
    }
}

/// Whether the other path block is shorter and has the same first and last element.
pub fn is_candidate(block: &PathBlock, other: &PathBlock) -> bool
    ensures { result ≡ is_candidate_of block.now other.now }
{
    let own = block.elements.as_slice();
    let others = other.elements.as_slice();
    others.len() < own.len()
        && number_at(others, 0) == number_at(own, 0)
        && number_at(others, others.len().saturating_sub(1))
            == number_at(own, own.len().saturating_sub(1))
}

/// Columns under the letter S equal those of the SELECT around it.
fn across(
    alloc: Global,
    catalog: &Catalog,
    own: &Side<'_>,
    other: &Side<'_>,
) -> Result<Vec<Expr<ColumnLeaf>>, NoMemory>
    requires own { AreColumnsIn catalog.now own.now.element.now own.now.columns.now }
    requires other { AreColumnsIn catalog.now other.now.element.now own.now.columns.now }
    ensures { IfOk result (λ made. made.items ≡ map (λ column. Compare Equal (Leaf (leaf_in catalog.now 83 own.now.element.now own.now.item column))
        (Leaf (leaf_in catalog.now 65 other.now.element.now other.now.item column))) own.now.columns.now) }
{
    let mut made = Vec::new(alloc);
    for column in own.columns {
        let a = leaf(alloc, catalog, b'S', own.element, own.item, *column)?;
        let b = leaf(alloc, catalog, b'A', other.element, other.item, *column)?;
        made.push(comparison(alloc, Comparison::Equal, a, b)?)?;
    }
    Ok(made)
}

/// The key of a place under the letter S equals that of a place of the SELECT around it, column by column.
fn key_across(
    alloc: Global,
    scene: &Scene<'_>,
    own: &Spot,
    other: &Spot,
) -> Result<Vec<Expr<ColumnLeaf>>, NoMemory>
    requires own { HasKey scene.now.catalog.now scene.now.graph.now own.now }
    requires other { HasKey scene.now.catalog.now scene.now.graph.now other.now }
    requires same { element_at scene.now.graph.now own.now ≡ element_at scene.now.graph.now other.now }
    ensures { IfOk result (λ made. made.items ≡ keys_across scene.now.catalog.now scene.now.graph.now own.now other.now) }
{
    let inner = key_side(scene, own);
    let outer = key_side(scene, other);
    across(alloc, scene.catalog, &inner, &outer)
}

/// The keys of the first and the last place under the letter S equal those of the SELECT around it.
pub fn ends_across(
    alloc: Global,
    scene: &Scene<'_>,
    own: &[Spot],
    outside: &[Spot],
) -> Result<Vec<Expr<ColumnLeaf>>, NoMemory>
    requires { AreEnds scene.now.catalog.now scene.now.graph.now own.now outside.now }
    ensures { IfOk result (λ made. made.items ≡ both_ends_across scene.now.catalog.now scene.now.graph.now own.now outside.now) }
{
    let last = &own[own.len() - 1];
    let mut made = key_across(alloc, scene, &own[0], &outside[0])?;
    let mut more = key_across(alloc, scene, last, &outside[outside.len() - 1])?;
    made.append(&mut more)?;
    Ok(made)
}

/// Columns of an element's table under an item, as leaves.
fn leaves(
    alloc: Global,
    catalog: &Catalog,
    prefix: u8,
    side: &Side<'_>,
) -> Result<List<ColumnLeaf>, NoMemory>
    requires letter { prefix < 128 }
    requires side { AreColumnsIn catalog.now side.now.element.now side.now.columns.now }
    ensures { IfOk result (λ made. made ≡ map (leaf_in catalog.now prefix side.now.element.now side.now.item) side.now.columns.now) }
{
    let mut made = List::new(alloc);
    for column in side.columns {
        made.push(leaf(alloc, catalog, prefix, side.element, side.item, *column)?)?;
    }
    Ok(made)
}

/// The leaves of the key at a place.
pub fn key_leaves(
    alloc: Global,
    scene: &Scene<'_>,
    spot: &Spot,
) -> Result<List<ColumnLeaf>, NoMemory>
    requires letter { scene.now.prefix < 128 }
    requires key { HasKey scene.now.catalog.now scene.now.graph.now spot.now }
    ensures { IfOk result (λ made. made ≡ map (leaf_of scene.now.catalog.now scene.now.graph.now scene.now.prefix spot.now) (element_at scene.now.graph.now spot.now).key) }
{
    let side = key_side(scene, spot);
    leaves(alloc, scene.catalog, scene.prefix, &side)
}
