ghost use Rattle.std.specs.Prelude.{◌≡◌, ◌+◌, ◌<◌, ◌≤◌, ◌^◌, None, Some, length, map, IfOk};
ghost use Rattle.std.specs.List.{All, sum_by, enumerate_from};
ghost use Rattle.expr_tree.specs.Nodes.{count_of_nodes};
ghost use Rattle.graph_meaning.specs.Blocks.{path_blocks};
ghost use Rattle.graph_meaning.specs.Weights.{answer_nodes, weight};
ghost use Rattle.normal_form.specs.Checked.{AreNumbered};
ghost use Rattle.normal_form.specs.Spending.{counted, at_most};
ghost use Rattle.normal_form.specs.Weighing.{assignments_weight, AreWeighed};

use crate::costs::costed;
use crate::names::all_singletons;
use crate::path_weight::weigh_path;
use crate::row_weight::weigh_rows;
use crate::sizes::{nodes, sum};
use expr_tree::Expr;
use graph_ast::{Catalog, CheckedPath, CheckedQuery, Graph, Output, PathBlock, PropertyLeaf};
use pgq_base::{List, NoMemory};
use std::alloc::Global;

/// The most that a query may weigh.
const LIMIT: u64 = 1_000_000;

/// The nodes of the columns.
fn column_nodes(columns: &[Output]) -> u64
    ensures { result ≡ counted (sum_by (λ output. count_of_nodes output.value) columns.now) }
{
    let mut count = 0;
    for output in columns {
        count = sum(count, nodes(&output.value));
    }
    count
}

fn condition_nodes(condition: &Option<Expr<PropertyLeaf>>) -> u64
    ensures { result ≡ counted (elim condition.now [ None ↦ 0 | Some own ↦ count_of_nodes own ]) }
{
    match condition {
        None => 0,
        Some(condition) => nodes(condition),
    }
}

/// The nodes of the columns and of the last condition.
fn answer_nodes(query: &CheckedQuery) -> u64
    ensures { result ≡ counted (answer_nodes query.now) }
{
    let columns = column_nodes(query.columns.as_slice());
    sum(columns, condition_nodes(&query.condition))
}

/// The path blocks of each path pattern, and what is left after the assignments.
#[derive(Drop)]
struct Lists {
    left: u64,
    lists: List<List<PathBlock>>,
}

/// Pays for the assignments of the path patterns, and gives their path blocks; nothing where the cost is
/// above the amount.
fn weigh_paths(
    alloc: Global,
    graph: &Graph,
    paths: &[CheckedPath],
    amount: u64,
) -> Result<Option<Lists>, NoMemory>
    requires vertices { length graph.now.vertices < 2 ^ 32 }
    requires edges { length graph.now.edges < 2 ^ 32 }
    requires paths { length paths.now < 2 ^ 32 }
    requires operands { All (λ path. length path.operands < 2 ^ 32) paths.now }
    requires few { amount ≤ 1000000 }
    ensures { IfOk result (λ found. AreWeighed amount (sum_by (assignments_weight graph.now) paths.now) (map (λ numbered. path_blocks graph.now numbered.0 numbered.1) (enumerate_from 0 paths.now)) found) }
{
    let mut left = amount;
    let mut lists = List::new(alloc);
    for place in 0..paths.len() {
        match weigh_path(alloc, graph, place as u32, &paths[place], left)? {
            None => return Ok(None),
            Some(weighed) => {
                left = weighed.left;
                lists.push(weighed.blocks)?;
            }
        }
    }
    Ok(Some(Lists { left, lists }))
}

/// The weight of a query: how much its translation writes and looks at; nothing where it is above 1,000,000.
/// What the search, the path blocks and the graph blocks weigh is paid for as it is found, so that the work
/// stays in proportion to the limit.
pub fn weight_of(
    alloc: Global,
    catalog: &Catalog,
    query: &CheckedQuery,
) -> Result<Option<u64>, NoMemory>
    requires { AreNumbered catalog.now query.now }
    ensures { IfOk result (λ w. w ≡ at_most 1000000 (weight catalog.now query.now)) }
{
    let graph = &catalog.graphs.as_slice()[query.graph as usize];
    let paths = query.paths.as_slice();
    let found = match weigh_paths(alloc, graph, paths, LIMIT)? {
        None => return Ok(None),
        Some(found) => found,
    };
    let names = all_singletons(alloc, paths)?;
    let lists = costed(alloc, paths, found.lists.as_slice())?;
    let answer = answer_nodes(query);
    match weigh_rows(
        alloc,
        names.as_slice(),
        lists.as_slice(),
        answer,
        found.left,
    )? {
        None => Ok(None),
        Some(left) => Ok(Some(LIMIT - left)),
    }
}
