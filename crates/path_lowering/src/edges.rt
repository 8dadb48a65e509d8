ghost use Rattle.std.specs.Prelude.{◌≡◌, ◌<◌, ◌&&◌, ◌++◌, [], ◌∷◌, length, IfOk, true, false, IsTrue, ◌↔◌, Some};
ghost use Rattle.expr_tree.specs.declared.tree.Expr.TheVariants.{All, Any};
ghost use Rattle.graph_ast.specs.Lookups.{edge_element};
ghost use Rattle.graph_meaning.specs.Blocks.{may_lead as may_lead_to};
ghost use Rattle.path_lowering.specs.Emitted.{edge_conditions as conditions_of_edge, leads_from as leading_from, meets_end as meeting_end, goes_right as may_go_right, goes_left as may_go_left};
ghost use Rattle.path_lowering.specs.Shown.{IsEndOf, IsJoint};

use crate::columns::{Side, compared, list_of};
use crate::elements::element_of;
use crate::scene::Scene;
use crate::spots::Spot;
use expr_tree::{Comparison, Expr};
use graph_ast::{Direction, EdgeElement, End};
use pgq_base::{List, NoMemory};
use sql_algebra::ColumnLeaf;
use std::alloc::Global;

/// The key equalities of an edge with its left and right neighbour, in a direction. At a two-way place they are one
/// disjunction of both readings.
pub fn edge_conditions(
    alloc: Global,
    scene: &Scene<'_>,
    direction: Direction,
    left: &Spot,
    edge: &Spot,
    right: &Spot,
) -> Result<Vec<Expr<ColumnLeaf>>, NoMemory>
    requires letter { scene.now.prefix < 128 }
    requires there { edge.now.element < length scene.now.graph.now.edges }
    requires right { (may_go_right direction && may_lead_to (edge_element scene.now.graph.now edge.now.element) (Some left.now.element) (Some right.now.element)) ≡ true
        → IsJoint scene.now.catalog.now scene.now.graph.now left.now edge.now right.now }
    requires left { (may_go_left direction && may_lead_to (edge_element scene.now.graph.now edge.now.element) (Some right.now.element) (Some left.now.element)) ≡ true
        → IsJoint scene.now.catalog.now scene.now.graph.now right.now edge.now left.now }
    requires one_way { (may_go_right direction && may_lead_to (edge_element scene.now.graph.now edge.now.element) (Some left.now.element) (Some right.now.element)) ≡ false
        → (may_go_left direction && may_lead_to (edge_element scene.now.graph.now edge.now.element) (Some right.now.element) (Some left.now.element)) ≡ true }
    ensures { IfOk result (λ made. made.items ≡ conditions_of_edge scene.now.catalog.now scene.now.graph.now scene.now.prefix direction left.now edge.now right.now) }
{
    let there = &scene.graph.edges.as_slice()[edge.element as usize];
    let rightward = goes_right(direction) && may_lead(there, left, right);
    let leftward = goes_left(direction) && may_lead(there, right, left);
    if rightward && leftward {
        return either_way(alloc, scene, left, edge, right);
    }
    if rightward {
        return leads_from(alloc, scene, left, edge, right);
    }
    leads_from(alloc, scene, right, edge, left)
}

fn either_way(
    alloc: Global,
    scene: &Scene<'_>,
    left: &Spot,
    edge: &Spot,
    right: &Spot,
) -> Result<Vec<Expr<ColumnLeaf>>, NoMemory>
    requires letter { scene.now.prefix < 128 }
    requires right { IsJoint scene.now.catalog.now scene.now.graph.now left.now edge.now right.now }
    requires left { IsJoint scene.now.catalog.now scene.now.graph.now right.now edge.now left.now }
    ensures { IfOk result (λ made. made.items ≡ Any (All (leading_from scene.now.catalog.now scene.now.graph.now scene.now.prefix left.now edge.now right.now)
        ∷ All (leading_from scene.now.catalog.now scene.now.graph.now scene.now.prefix right.now edge.now left.now) ∷ []) ∷ []) }
{
    let rightward = leads_from(alloc, scene, left, edge, right)?;
    let leftward = leads_from(alloc, scene, right, edge, left)?;
    let mut ways = List::new(alloc);
    ways.push(Expr::All(list_of(alloc, rightward)?))?;
    ways.push(Expr::All(list_of(alloc, leftward)?))?;
    let mut made = Vec::new(alloc);
    made.push(Expr::Any(ways))?;
    Ok(made)
}

/// The equalities that say that an edge leads from one vertex to another.
fn leads_from(
    alloc: Global,
    scene: &Scene<'_>,
    from: &Spot,
    edge: &Spot,
    to: &Spot,
) -> Result<Vec<Expr<ColumnLeaf>>, NoMemory>
    requires letter { scene.now.prefix < 128 }
    requires joint { IsJoint scene.now.catalog.now scene.now.graph.now from.now edge.now to.now }
    ensures { IfOk result (λ made. made.items ≡ leading_from scene.now.catalog.now scene.now.graph.now scene.now.prefix from.now edge.now to.now) }
{
    let there = &scene.graph.edges.as_slice()[edge.element as usize];
    let mut made = meets_end(alloc, scene, edge, &there.source, from)?;
    let mut more = meets_end(alloc, scene, edge, &there.destination, to)?;
    made.append(&mut more)?;
    Ok(made)
}

/// The equalities that say that an end of an edge refers to a vertex.
fn meets_end(
    alloc: Global,
    scene: &Scene<'_>,
    edge: &Spot,
    end: &End,
    vertex: &Spot,
) -> Result<Vec<Expr<ColumnLeaf>>, NoMemory>
    requires letter { scene.now.prefix < 128 }
    requires joint { IsEndOf scene.now.catalog.now scene.now.graph.now edge.now end.now vertex.now }
    ensures { IfOk result (λ made. made.items ≡ meeting_end scene.now.catalog.now scene.now.graph.now scene.now.prefix edge.now end.now vertex.now) }
{
    let other = element_of(scene.graph, vertex);
    let left = Side {
        element: element_of(scene.graph, edge),
        item: edge.item,
        columns: end.columns.as_slice(),
    };
    let right = Side {
        element: other,
        item: vertex.item,
        columns: other.key.as_slice(),
    };
    compared(
        alloc,
        scene.catalog,
        scene.prefix,
        Comparison::Equal,
        &left,
        &right,
    )
}

/// Whether an edge of the element may lead from one vertex to another.
fn may_lead(edge: &EdgeElement, from: &Spot, to: &Spot) -> bool
    ensures { result ≡ may_lead_to edge.now (Some from.now.element) (Some to.now.element) }
{
    edge.source.vertex == from.element && edge.destination.vertex == to.element
}

fn goes_right(direction: Direction) -> bool
    ensures { result ≡ may_go_right direction }
{
    match direction {
        Direction::Right => true,
        Direction::Left => false,
        Direction::Either => true,
        Direction::Any => true,
        Direction::Undirected => false,
    }
}

fn goes_left(direction: Direction) -> bool
    ensures { result ≡ may_go_left direction }
{
    match direction {
        Direction::Right => false,
        Direction::Left => true,
        Direction::Either => true,
        Direction::Any => true,
        Direction::Undirected => false,
    }
}
