ghost use Rattle.std.specs.Prelude.{◌≡◌, ◌<◌, ◌++◌, [], ◌∷◌, map, flat_map, length, IfOk, option_copied, option_map};
ghost use Rattle.graph_ast.specs.Lookups.{graph_at};
ghost use Rattle.pattern_check.specs.SizeRules.{path_faults, size_faults};
ghost use Rattle.pattern_check.specs.NameRules.{column_name, unnamed_column};
ghost use Rattle.pattern_check.specs.Checked.{mode_of, is_all_shortest, selects_all_shortest, checked_condition, checked_path, name_of, output, unweighed_at};

use crate::columns::column_name;
use crate::conditions::checked_condition;
use crate::splicing::operands_in;
use expr_tree::Expr;
use graph_ast::{
    Catalog, CheckedPath, CheckedQuery, Condition, Graph, Item, Mode, ModeWord, Output, PathTree,
    PropertyLeaf, QueryTree, Selector, SelectorKind,
};
use pgq_base::{List, Name, NoMemory};
use std::alloc::Global;

fn mode_of(mode: Option<&ModeWord>) -> Mode
    ensures { result ≡ mode_of (option_copied mode.entry) }
{
    match mode {
        None => Mode::Walk,
        Some(word) => word.mode,
    }
}

fn is_all_shortest(kind: SelectorKind) -> bool
    ensures { result ≡ is_all_shortest kind }
{
    match kind {
        SelectorKind::AllShortest => true,
        SelectorKind::Any => false,
        SelectorKind::AnyCount(_) => false,
        SelectorKind::AnyShortest => false,
        SelectorKind::Shortest(_) => false,
        SelectorKind::ShortestGroup(_) => false,
    }
}

fn selects_all_shortest(selector: Option<&Selector>) -> bool
    ensures { result ≡ selects_all_shortest (option_copied selector.entry) }
{
    match selector {
        None => false,
        Some(words) => is_all_shortest(words.kind),
    }
}

#[tactic(auto, using(crate::proofs::CheckedSteps::inner_none), unfolding(crate::specs::SizeRules::path_faults))]
fn checked_path(
    alloc: Global,
    catalog: &Catalog,
    graph: &Graph,
    path: &PathTree,
) -> Result<CheckedPath, NoMemory>
    requires { path_faults path.now ≡ [] }
    ensures { IfOk result (λ made. made ≡ checked_path catalog.now graph.now path.now) }
{
    let operands = operands_in(alloc, &path.body, catalog, graph)?;
    Ok(CheckedPath {
        mode: mode_of(path.mode.as_ref()),
        all_shortest: selects_all_shortest(path.selector.as_ref()),
        operands,
    })
}

fn checked_paths(
    alloc: Global,
    catalog: &Catalog,
    graph: &Graph,
    paths: &[PathTree],
) -> Result<List<CheckedPath>, NoMemory>
    requires { flat_map path_faults paths.now ≡ [] }
    ensures { IfOk result (λ made. made ≡ map (checked_path catalog.now graph.now) paths.now) }
{
    let mut made = List::new(alloc);
    for path in paths {
        made.push(checked_path(alloc, catalog, graph, path)?)?;
    }
    Ok(made)
}

fn name_of(item: &Item) -> &Name
    requires { unnamed_column item.now ≡ [] }
    ensures { result.now ≡ name_of (column_name item.now) }
{
    &column_name(item).unwrap().name
}

fn output(alloc: Global, catalog: &Catalog, graph: &Graph, item: &Item) -> Result<Output, NoMemory>
    requires { unnamed_column item.now ≡ [] }
    ensures { IfOk result (λ made. made ≡ output catalog.now graph.now item.now) }
{
    let value = checked_condition(alloc, catalog, graph, &item.value)?;
    let name = name_of(item).copy(alloc)?;
    Ok(Output { value, name })
}

fn outputs(
    alloc: Global,
    catalog: &Catalog,
    graph: &Graph,
    columns: &[Item],
) -> Result<List<Output>, NoMemory>
    requires { flat_map unnamed_column columns.now ≡ [] }
    ensures { IfOk result (λ made. made ≡ map (output catalog.now graph.now) columns.now) }
{
    let mut made = List::new(alloc);
    for item in columns {
        made.push(output(alloc, catalog, graph, item)?)?;
    }
    Ok(made)
}

fn last_where(
    alloc: Global,
    catalog: &Catalog,
    graph: &Graph,
    condition: Option<&Condition>,
) -> Result<Option<Expr<PropertyLeaf>>, NoMemory>
    ensures { IfOk result (λ made. made ≡ option_map (checked_condition catalog.now graph.now) (option_copied condition.entry)) }
{
    match condition {
        None => Ok(None),
        Some(condition) => Ok(Some(checked_condition(alloc, catalog, graph, condition)?)),
    }
}

/// The query that a tree stands for over the graph at a place of the catalog, with weight 0. The tree has no
/// fault of the phase limits, and each of its columns has a name.
#[tactic(auto, using(crate::proofs::CheckedSteps::paths_none))]
pub fn unweighed(
    alloc: Global,
    catalog: &Catalog,
    graph: u32,
    tree: &QueryTree,
) -> Result<CheckedQuery, NoMemory>
    requires graph { graph < length catalog.now.graphs }
    requires limits { size_faults tree.now ≡ [] }
    requires named { flat_map unnamed_column tree.now.columns ≡ [] }
    ensures { IfOk result (λ query. query ≡ unweighed_at catalog.now graph tree.now) }
{
    let place = graph;
    let graph = &catalog.graphs.as_slice()[place as usize];
    let paths = checked_paths(alloc, catalog, graph, tree.paths.as_slice())?;
    let condition = last_where(alloc, catalog, graph, tree.condition.as_ref())?;
    let columns = outputs(alloc, catalog, graph, tree.columns.as_slice())?;
    Ok(CheckedQuery {
        graph: place,
        paths,
        condition,
        columns,
        weight: 0,
    })
}
