ghost use Rattle.std.specs.Prelude.{◌≡◌, ◌≤◌, ◌<◌, ◌^◌, ◌++◌, ◌∷◌, [], ℕ, List, IfOk, length, map, flat_map};
ghost use Rattle.std.specs.List.{AllZip};
ghost use Rattle.multisets.specs.Bags.{IsIn};
ghost use Rattle.graph_ast.specs.Catalogs.{IsValidGraph};
ghost use Rattle.graph_ast.specs.declared.blocks.Alternative.{Alternative as AChoice};
ghost use Rattle.graph_meaning.specs.Answers.{query_singletons as singletons_of_query};
ghost use Rattle.graph_meaning.specs.Choices.{singletons_in, singletons_of, expansion_of};
ghost use Rattle.graph_meaning.specs.Lists.{tagged};
ghost use Rattle.path_lowering.specs.declared.spots.Spot.{Spot as ASpot};
ghost use Rattle.path_lowering.specs.Spots.{element_at, spots_along as spots_of_path};
ghost use Rattle.path_lowering.specs.declared.spots.Kind.TheVariants.{Vertex};
ghost use Rattle.path_lowering.specs.Blocks.{alternatives_of as alternatives_at, plan_of as planned, laid_tags, laid_spots, sources_of as sources_at, where_for};
ghost use Rattle.path_lowering.specs.Emitted.{choice_conditions as conditions_of_choice, mode_conditions as conditions_of_mode, sharing_conditions as conditions_of_sharing};
ghost use Rattle.path_lowering.specs.Selects.{select_with};
ghost use Rattle.path_lowering.specs.Shown.{HasProperties, HasKey};
ghost use Rattle.path_lowering.specs.Lowered.{lay, lay_all, laid_block as laid_parts, select_of_block as select_of_this_block};
ghost use Rattle.path_lowering.specs.Apart.{apart};
ghost use Rattle.path_lowering.specs.Layable.{IsChoiceAt, IsLayable, IsReady};
ghost use Rattle.path_lowering.specs.Adding.{conditions_of, conditions_along};

use crate::alternatives::combined;
use crate::choices::choice_conditions;
use crate::laying::{add_places, spots_along};
use crate::modes::{any_of, mode_conditions};
use crate::plan::plan_of;
use crate::properties::{Place, lowered};
use crate::scene::Scene;
use crate::select::select_of;
use crate::sharing::sharing_conditions;
use crate::spots::Spot;
use expr_tree::Expr;
use graph_ast::{
    Alternative, Block, CheckedPath, CheckedQuery, PathBlock, Pattern, Piece, PropertyLeaf, Step,
    Tags,
};
use pgq_base::{Name, NoMemory};
use sql_algebra::{ColumnLeaf, Select};
use std::alloc::Global;

fn add_singletons<'a>(
    mut names: Vec<&'a Name>,
    steps: &'a [Step],
) -> Result<Vec<&'a Name>, NoMemory>
    ensures { IfOk result (λ all. map (λ n. n.now) all.items ≡ map (λ n. n.now) names.entry.items ++ flat_map singletons_in steps.entry.now) }
{
    for step in steps {
        if let Step::One(piece) = step {
            if let Some(name) = &pattern_of(piece).variable {
                names.push(name)?;
            }
        }
    }
    Ok(names)
}

/// What an element pattern asks of its element.
fn pattern_of(piece: &Piece) -> &Pattern
    ensures { result.now ≡ Rattle.graph_meaning.specs.Choices.pattern_of piece.entry.now }
{
    match piece {
        Piece::Vertex(pattern) => pattern,
        Piece::Edge(_, pattern) => pattern,
    }
}

/// Adds the singletons of a path to some names.
pub fn add_path_singletons<'a>(
    mut names: Vec<&'a Name>,
    path: &'a CheckedPath,
) -> Result<Vec<&'a Name>, NoMemory>
    ensures { IfOk result (λ all. map (λ n. n.now) all.items ≡ map (λ n. n.now) names.entry.items ++ singletons_of path.entry.now) }
{
    for operand in path.operands.as_slice() {
        names = add_singletons(names, operand.steps.as_slice())?;
    }
    Ok(names)
}

/// The singletons of all paths.
pub fn query_singletons(alloc: Global, query: &CheckedQuery) -> Result<Vec<&Name>, NoMemory>
    ensures { IfOk result (λ all. map (λ n. n.now) all.items ≡ singletons_of_query query.entry.now) }
{
    let mut names = Vec::new(alloc);
    for path in query.paths.as_slice() {
        names = add_path_singletons(names, path)?;
    }
    Ok(names)
}

/// The conditions of each of some alternatives.
fn alternatives_of(
    alloc: Global,
    scene: &Scene<'_>,
    path: &CheckedPath,
    alternatives: &[Alternative],
    spots: &[Spot],
) -> Result<Vec<Vec<Expr<ColumnLeaf>>>, NoMemory>
    requires letter { scene.now.prefix < 128 }
    requires properties { (spot : ASpot) → IsIn spot spots.now → HasProperties scene.now.catalog.now scene.now.graph.now spot }
    requires there { (choice : AChoice) → IsIn choice alternatives.now → IsChoiceAt scene.now.catalog.now scene.now.graph.now path.now spots.now choice }
    ensures { IfOk result (λ made. map (λ a. a.items) made.items ≡ map (λ choice. conditions_of_choice scene.now.catalog.now scene.now.graph.now scene.now.prefix (expansion_of path.now choice) spots.now) alternatives.now) }
{
    let mut made = Vec::new(alloc);
    for choice in alternatives {
        made.push(choice_conditions(alloc, scene, path, choice, spots)?)?;
    }
    Ok(made)
}

/// The conditions of the alternatives of a path block.
fn part_conditions(
    alloc: Global,
    scene: &Scene<'_>,
    path: &CheckedPath,
    alternatives: &[Alternative],
    spots: &[Spot],
) -> Result<Vec<Expr<ColumnLeaf>>, NoMemory>
    requires letter { scene.now.prefix < 128 }
    requires properties { (spot : ASpot) → IsIn spot spots.now → HasProperties scene.now.catalog.now scene.now.graph.now spot }
    requires there { (choice : AChoice) → IsIn choice alternatives.now → IsChoiceAt scene.now.catalog.now scene.now.graph.now path.now spots.now choice }
    ensures { IfOk result (λ made. made.items ≡ apart (map (λ choice. conditions_of_choice scene.now.catalog.now scene.now.graph.now scene.now.prefix (expansion_of path.now choice) spots.now) alternatives.now)) }
{
    match alternatives {
        [] => {
            let mut made = Vec::new(alloc);
            made.push(any_of(alloc, Vec::new(alloc))?)?;
            Ok(made)
        }
        [first, others @ ..] => {
            let own = choice_conditions(alloc, scene, path, first, spots)?;
            let more = alternatives_of(alloc, scene, path, others, spots)?;
            combined(alloc, own, more)
        }
    }
}

/// The places of all paths, and the conditions of each.
struct LaidBlock<'a> {
    places: Vec<Place<'a>>,
    conditions: Vec<Expr<ColumnLeaf>>,
}

/// The condition after the whole pattern, where there is one.
fn where_conditions(
    alloc: Global,
    scene: &Scene<'_>,
    places: &[Place<'_>],
    condition: &Option<Expr<PropertyLeaf>>,
) -> Result<Vec<Expr<ColumnLeaf>>, NoMemory>
    requires letter { scene.now.prefix < 128 }
    requires there { (spot : ASpot) → IsIn spot (map (λ p. p.spot) places.now) → HasProperties scene.now.catalog.now scene.now.graph.now spot }
    ensures { IfOk result (λ made. made.items ≡ where_for scene.now.catalog.now scene.now.graph.now scene.now.prefix (map (λ p. p.tags.now) places.now) (map (λ p. p.spot) places.now) condition.now) }
{
    let mut made = Vec::new(alloc);
    if let Some(condition) = condition {
        made.push(lowered(alloc, scene, places, condition)?)?;
    }
    Ok(made)
}

/// The conditions over all paths: that places of one singleton hold one element, and the last condition.
fn last_conditions(
    alloc: Global,
    scene: &Scene<'_>,
    names: &[&Name],
    places: &[Place<'_>],
    condition: &Option<Expr<PropertyLeaf>>,
) -> Result<Vec<Expr<ColumnLeaf>>, NoMemory>
    requires letter { scene.now.prefix < 128 }
    requires properties { (spot : ASpot) → IsIn spot (map (λ p. p.spot) places.now) → HasProperties scene.now.catalog.now scene.now.graph.now spot }
    requires keys { (spot : ASpot) → IsIn spot (map (λ p. p.spot) places.now) → HasKey scene.now.catalog.now scene.now.graph.now spot }
    requires alike { (name : List ℕ) (a b : ASpot) → IsIn name (map (λ n. n.now) names.now)
        → IsIn a (tagged name (map (λ p. p.tags.now) places.now) (map (λ p. p.spot) places.now)) → IsIn b (tagged name (map (λ p. p.tags.now) places.now) (map (λ p. p.spot) places.now))
        → element_at scene.now.graph.now a ≡ element_at scene.now.graph.now b }
    ensures { IfOk result (λ made. made.items ≡ conditions_of_sharing scene.now.catalog.now scene.now.graph.now scene.now.prefix (map (λ n. n.now) names.now) (map (λ p. p.tags.now) places.now) (map (λ p. p.spot) places.now)
        ++ where_for scene.now.catalog.now scene.now.graph.now scene.now.prefix (map (λ p. p.tags.now) places.now) (map (λ p. p.spot) places.now) condition.now) }
{
    let mut made = sharing_conditions(alloc, scene, names, places)?;
    let mut last = where_conditions(alloc, scene, places, condition)?;
    made.append(&mut last)?;
    Ok(made)
}

/// The SELECT of paths along their places, whose conditions are these.
fn select_of_laid(
    alloc: Global,
    scene: &Scene<'_>,
    query: &CheckedQuery,
    names: &[&Name],
    places: &[Place<'_>],
    conditions: Vec<Expr<ColumnLeaf>>,
) -> Result<Select, NoMemory>
    requires letter { scene.now.prefix < 128 }
    requires properties { (spot : ASpot) → IsIn spot (map (λ p. p.spot) places.now) → HasProperties scene.now.catalog.now scene.now.graph.now spot }
    requires keys { (spot : ASpot) → IsIn spot (map (λ p. p.spot) places.now) → HasKey scene.now.catalog.now scene.now.graph.now spot }
    requires alike { (name : List ℕ) (a b : ASpot) → IsIn name (map (λ n. n.now) names.now)
        → IsIn a (tagged name (map (λ p. p.tags.now) places.now) (map (λ p. p.spot) places.now)) → IsIn b (tagged name (map (λ p. p.tags.now) places.now) (map (λ p. p.spot) places.now))
        → element_at scene.now.graph.now a ≡ element_at scene.now.graph.now b }
    requires some { 1 ≤ length (sources_at scene.now.catalog.now scene.now.graph.now scene.now.prefix (map (λ p. p.spot) places.now)) }
    ensures { IfOk result (λ select. select ≡ select_with scene.now.catalog.now scene.now.graph.now scene.now.prefix (map (λ p. p.tags.now) places.now) (map (λ p. p.spot) places.now)
        (conditions.items ++ (conditions_of_sharing scene.now.catalog.now scene.now.graph.now scene.now.prefix (map (λ n. n.now) names.now) (map (λ p. p.tags.now) places.now) (map (λ p. p.spot) places.now)
        ++ where_for scene.now.catalog.now scene.now.graph.now scene.now.prefix (map (λ p. p.tags.now) places.now) (map (λ p. p.spot) places.now) query.now.condition)) query.now.columns) }
{
    let mut conditions = conditions;
    let mut last = last_conditions(alloc, scene, names, places, &query.condition)?;
    conditions.append(&mut last)?;
    select_of(alloc, scene, places, conditions, query.columns.as_slice())
}

/// The places of a path block, with the first of some items.
fn spots_of(alloc: Global, part: &PathBlock, items: &[u32]) -> Result<Vec<Spot>, NoMemory>
    requires { length part.now.elements ≤ length items.now }
    ensures { IfOk result (λ made. made.items ≡ spots_of_path Vertex part.now.elements items.now) }
{
    spots_along(alloc, part.elements.as_slice(), items)
}

/// The conditions of a path along its places: those of its alternatives and of its mode.
pub fn path_conditions(
    alloc: Global,
    scene: &Scene<'_>,
    path: &CheckedPath,
    part: &PathBlock,
    spots: &[Spot],
) -> Result<Vec<Expr<ColumnLeaf>>, NoMemory>
    requires letter { scene.now.prefix < 128 }
    requires properties { (spot : ASpot) → IsIn spot spots.now → HasProperties scene.now.catalog.now scene.now.graph.now spot }
    requires keys { (spot : ASpot) → IsIn spot spots.now → HasKey scene.now.catalog.now scene.now.graph.now spot }
    requires there { (choice : AChoice) → IsIn choice part.now.alternatives → IsChoiceAt scene.now.catalog.now scene.now.graph.now path.now spots.now choice }
    ensures { IfOk result (λ made. made.items ≡ apart (alternatives_at scene.now.catalog.now scene.now.graph.now scene.now.prefix path.now part.now spots.now)
        ++ conditions_of_mode scene.now.catalog.now scene.now.graph.now scene.now.prefix path.now.mode spots.now) }
{
    let alternatives = part.alternatives.as_slice();
    let mut made = part_conditions(alloc, scene, path, alternatives, spots)?;
    let mut more = mode_conditions(alloc, scene, path.mode, spots)?;
    made.append(&mut more)?;
    Ok(made)
}

/// Adds a path along its places: the conditions of its alternatives and of its mode.
#[tactic(auto, unfolding(crate::specs::Adding::conditions_of))]
fn add_path<'a>(
    alloc: Global,
    scene: &Scene<'_>,
    laid: LaidBlock<'a>,
    path: &CheckedPath,
    part: &'a PathBlock,
    items: &[u32],
) -> Result<LaidBlock<'a>, NoMemory>
    requires letter { scene.now.prefix < 128 }
    requires valid { IsValidGraph scene.now.catalog.now scene.now.graph.now }
    requires layable { IsLayable scene.now.graph.now path.now part.now }
    requires many { length part.now.elements ≤ length items.now }
    ensures tags { IfOk result (λ all. map (λ p. p.tags.now) all.places.items ≡ map (λ p. p.tags.now) laid.entry.places.items ++ part.entry.now.tags) }
    ensures spots { IfOk result (λ all. map (λ p. p.spot) all.places.items ≡ map (λ p. p.spot) laid.entry.places.items ++ spots_of_path Vertex part.entry.now.elements items.entry.now) }
    ensures conditions { IfOk result (λ all. all.conditions.items ≡ laid.entry.conditions.items ++ conditions_of scene.entry.now.catalog.now scene.entry.now.graph.now scene.entry.now.prefix
        (lay scene.entry.now.catalog.now scene.entry.now.graph.now scene.entry.now.prefix apart path.entry.now part.entry.now items.entry.now)) }
{
    let LaidBlock {
        places,
        mut conditions,
    } = laid;
    let made = spots_of(alloc, part, items)?;
    let spots = made.as_slice();
    let places = add_places(places, part.tags.as_slice(), spots)?;
    let mut own = path_conditions(alloc, scene, path, part, spots)?;
    conditions.append(&mut own)?;
    Ok(LaidBlock { places, conditions })
}

/// Adds the paths of a block along their places, whose items are these.
#[cycle(paths)]
fn add_paths<'a>(
    alloc: Global,
    scene: &Scene<'_>,
    laid: LaidBlock<'a>,
    paths: &[CheckedPath],
    parts: &'a [PathBlock],
    items: &[u32],
) -> Result<LaidBlock<'a>, NoMemory>
    requires letter { scene.now.prefix < 128 }
    requires valid { IsValidGraph scene.now.catalog.now scene.now.graph.now }
    requires layable { AllZip (IsLayable scene.now.graph.now) paths.now parts.now }
    requires many { length items.now ≡ length (flat_map (λ part. part.elements) parts.now) }
    ensures tags { IfOk result (λ all. map (λ p. p.tags.now) all.places.items ≡ map (λ p. p.tags.now) laid.entry.places.items
        ++ laid_tags (lay_all scene.entry.now.catalog.now scene.entry.now.graph.now scene.entry.now.prefix apart paths.entry.now parts.entry.now items.entry.now)) }
    ensures spots { IfOk result (λ all. map (λ p. p.spot) all.places.items ≡ map (λ p. p.spot) laid.entry.places.items
        ++ laid_spots (lay_all scene.entry.now.catalog.now scene.entry.now.graph.now scene.entry.now.prefix apart paths.entry.now parts.entry.now items.entry.now)) }
    ensures conditions { IfOk result (λ all. all.conditions.items ≡ laid.entry.conditions.items ++ conditions_along scene.entry.now.catalog.now scene.entry.now.graph.now scene.entry.now.prefix
        (lay_all scene.entry.now.catalog.now scene.entry.now.graph.now scene.entry.now.prefix apart paths.entry.now parts.entry.now items.entry.now)) }
{
    match paths {
        [] => Ok(laid),
        [path, more @ ..] => match parts {
            [] => Ok(laid),
            [part, others @ ..] => {
                let laid = add_path(alloc, scene, laid, path, part, items)?;
                let count = part.elements.as_slice().len();
                add_paths(alloc, scene, laid, more, others, &items[count..])
            }
        },
    }
}

fn add_tags<'a>(mut all: Vec<&'a Tags>, part: &'a PathBlock) -> Result<Vec<&'a Tags>, NoMemory>
    ensures { IfOk result (λ v. map (λ t. t.now) v.items ≡ map (λ t. t.now) all.entry.items ++ part.entry.now.tags) }
{
    for tags in part.tags.as_slice() {
        all.push(tags)?;
    }
    Ok(all)
}

fn tags_of<'a>(alloc: Global, parts: &'a [PathBlock]) -> Result<Vec<&'a Tags>, NoMemory>
    ensures { IfOk result (λ v. map (λ t. t.now) v.items ≡ flat_map (λ part. part.tags) parts.entry.now) }
{
    let mut all = Vec::new(alloc);
    for part in parts {
        all = add_tags(all, part)?;
    }
    Ok(all)
}

/// The items of the places of a graph block.
pub fn items_of(alloc: Global, names: &[&Name], parts: &[PathBlock]) -> Result<Vec<u32>, NoMemory>
    requires { length (flat_map (λ part. part.tags) parts.now) < 2 ^ 32 }
    ensures { IfOk result (λ items. items.items ≡ planned (map (λ n. n.now) names.now) (flat_map (λ part. part.tags) parts.now)) }
{
    let tags = tags_of(alloc, parts)?;
    plan_of(alloc, names, tags.as_slice())
}

/// A graph block along its places, over the singletons of the query.
fn laid_block<'a>(
    alloc: Global,
    scene: &Scene<'_>,
    query: &CheckedQuery,
    block: &'a Block,
    names: &[&Name],
) -> Result<LaidBlock<'a>, NoMemory>
    requires letter { scene.now.prefix < 128 }
    requires ready { IsReady scene.now.catalog.now scene.now.graph.now scene.now.prefix query.now block.now }
    requires names { map (λ n. n.now) names.now ≡ singletons_of_query query.now }
    ensures tags { IfOk result (λ laid. map (λ p. p.tags.now) laid.places.items ≡ laid_tags (laid_parts scene.entry.now.catalog.now scene.entry.now.graph.now scene.entry.now.prefix apart query.entry.now block.entry.now)) }
    ensures spots { IfOk result (λ laid. map (λ p. p.spot) laid.places.items ≡ laid_spots (laid_parts scene.entry.now.catalog.now scene.entry.now.graph.now scene.entry.now.prefix apart query.entry.now block.entry.now)) }
    ensures conditions { IfOk result (λ laid. laid.conditions.items ≡ conditions_along scene.entry.now.catalog.now scene.entry.now.graph.now scene.entry.now.prefix
        (laid_parts scene.entry.now.catalog.now scene.entry.now.graph.now scene.entry.now.prefix apart query.entry.now block.entry.now)) }
{
    let parts = block.paths.as_slice();
    let planned = items_of(alloc, names, parts)?;
    let items = planned.as_slice();
    let paths = query.paths.as_slice();
    let none = LaidBlock {
        places: Vec::new(alloc),
        conditions: Vec::new(alloc),
    };
    add_paths(alloc, scene, none, paths, parts, items)
}

/// The SELECT of a graph block.
pub fn select_of_block(
    alloc: Global,
    scene: &Scene<'_>,
    query: &CheckedQuery,
    block: &Block,
) -> Result<Select, NoMemory>
    requires letter { scene.now.prefix < 128 }
    requires ready { IsReady scene.now.catalog.now scene.now.graph.now scene.now.prefix query.now block.now }
    ensures { IfOk result (λ select. select ≡ select_of_this_block scene.now.catalog.now scene.now.graph.now scene.now.prefix apart query.now block.now) }
{
    let all = query_singletons(alloc, query)?;
    let names = all.as_slice();
    let laid = laid_block(alloc, scene, query, block, names)?;
    let LaidBlock { places, conditions } = laid;
    let places = places.as_slice();
    select_of_laid(alloc, scene, query, names, places, conditions)
}
