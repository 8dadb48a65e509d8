ghost use Rattle.std.specs.Prelude.{◌≡◌, ◌<◌, ◌^◌, length, map, take, IfOk};
ghost use Rattle.std.specs.List.{All, enumerate_from};
ghost use Rattle.graph_ast.specs.Lookups.{graph_at};
ghost use Rattle.graph_meaning.specs.Blocks.{blocks, path_blocks};
ghost use Rattle.normal_form.specs.Checked.{AreNumbered};
ghost use Rattle.normal_form.specs.Rows.{seen, joined};
ghost use Rattle.normal_form.specs.Join.{AreJoined};

use crate::copies::copy_block;
use crate::names::all_singletons;
use crate::paths::blocks_of_path;
use crate::rows::{Costed, extend_all};
use graph_ast::{Block, Catalog, CheckedPath, CheckedQuery, Graph, PathBlock};
use pgq_base::{List, Name, NoMemory};
use std::alloc::Global;

/// Rows of one path block for each path pattern, and what is left of a limit.
#[derive(Drop)]
pub(crate) struct Joined<'b> {
    pub rows: List<List<Costed<'b>>>,
    pub left: u64,
}

/// The rows of the first list. No memory holds as many path blocks as may follow the row of none.
fn first_rows<'b>(
    alloc: Global,
    names: &[&Name],
    lists: &[List<Costed<'b>>],
) -> Result<List<List<Costed<'b>>>, NoMemory>
    ensures { IfOk result (λ rows. map (map seen) rows ≡ joined (map (λ n. n.now) names.now) (take 1 (map (map seen) lists.entry.now))) }
{
    let mut rows = List::new(alloc);
    rows.push(List::new(alloc))?;
    if lists.is_empty() {
        return Ok(rows);
    }
    match extend_all(
        alloc,
        names,
        lists[0].as_slice(),
        rows.as_slice(),
        usize::MAX,
    )? {
        None => Err(NoMemory),
        Some(rows) => Ok(rows),
    }
}

/// The rows of one path block from each list in which the places of one name have one element. They pay 1
/// for each row of the first two lists, of the first three and so on, but not of all. Nothing is given where
/// that and the number of rows are together more than the limit.
pub(crate) fn join<'b>(
    alloc: Global,
    names: &[&Name],
    lists: &[List<Costed<'b>>],
    limit: u64,
) -> Result<Option<Joined<'b>>, NoMemory>
    ensures { IfOk result (λ all. AreJoined (map (λ n. n.now) names.now) (map (map seen) lists.entry.now) limit all) }
{
    let mut rows = first_rows(alloc, names, lists)?;
    let mut left = limit;
    for place in 1..lists.len() {
        let list = lists[place].as_slice();
        match extend_all(alloc, names, list, rows.as_slice(), left as usize)? {
            None => return Ok(None),
            Some(more) => rows = more,
        }
        if place + 1 < lists.len() {
            left -= rows.as_slice().len() as u64;
        }
    }
    if rows.as_slice().len() as u64 > left {
        return Ok(None);
    }
    Ok(Some(Joined { rows, left }))
}

/// The path blocks of some path patterns.
fn path_lists(
    alloc: Global,
    graph: &Graph,
    paths: &[CheckedPath],
) -> Result<List<List<PathBlock>>, NoMemory>
    requires vertices { length graph.now.vertices < 2 ^ 32 }
    requires edges { length graph.now.edges < 2 ^ 32 }
    requires paths { length paths.now < 2 ^ 32 }
    requires operands { All (λ path. length path.operands < 2 ^ 32) paths.now }
    ensures { IfOk result (λ lists. lists ≡ map (λ numbered. path_blocks graph.now numbered.0 numbered.1) (enumerate_from 0 paths.now)) }
{
    let mut lists = List::new(alloc);
    for place in 0..paths.len() {
        lists.push(blocks_of_path(alloc, graph, place as u32, &paths[place])?)?;
    }
    Ok(lists)
}

/// Path blocks that cost nothing.
fn free(alloc: Global, blocks: &[PathBlock]) -> Result<List<Costed<'_>>, NoMemory>
    ensures { IfOk result (λ all. map seen all ≡ map (λ block. (block, 0)) blocks.entry.now) }
{
    let mut all = List::new(alloc);
    for block in blocks {
        all.push(Costed { block, cost: 0 })?;
    }
    Ok(all)
}

fn all_free(alloc: Global, lists: &[List<PathBlock>]) -> Result<List<List<Costed<'_>>>, NoMemory>
    ensures { IfOk result (λ all. map (map seen) all ≡ map (map (λ block. (block, 0))) lists.entry.now) }
{
    let mut all = List::new(alloc);
    for blocks in lists {
        all.push(free(alloc, blocks.as_slice())?)?;
    }
    Ok(all)
}

fn block_of(alloc: Global, row: &[Costed<'_>]) -> Result<Block, NoMemory>
    ensures { IfOk result (λ block. block ≡ record { paths = map (λ part. part.0) (map seen row.now) }) }
{
    let mut paths = List::new(alloc);
    for part in row {
        paths.push(copy_block(alloc, part.block)?)?;
    }
    Ok(Block { paths })
}

fn blocks_of(alloc: Global, rows: &[List<Costed<'_>>]) -> Result<List<Block>, NoMemory>
    ensures { IfOk result (λ all. all ≡ map (λ row. record { paths = map (λ part. part.0) row }) (map (map seen) rows.now)) }
{
    let mut all = List::new(alloc);
    for row in rows {
        all.push(block_of(alloc, row.as_slice())?)?;
    }
    Ok(all)
}

/// The graph blocks: each combination of one path block for each path pattern in which the places of one
/// singleton have one element, once, ordered by the first path pattern's block first.
pub fn blocks(
    alloc: Global,
    catalog: &Catalog,
    query: &CheckedQuery,
) -> Result<List<Block>, NoMemory>
    requires { AreNumbered catalog.now query.now }
    ensures { IfOk result (λ all. all ≡ blocks (graph_at catalog.now query.now.graph) query.now) }
{
    let graph = &catalog.graphs.as_slice()[query.graph as usize];
    let paths = query.paths.as_slice();
    let names = all_singletons(alloc, paths)?;
    let lists = path_lists(alloc, graph, paths)?;
    let parts = all_free(alloc, lists.as_slice())?;
    match join(alloc, names.as_slice(), parts.as_slice(), u64::MAX)? {
        None => Err(NoMemory),
        Some(all) => blocks_of(alloc, all.rows.as_slice()),
    }
}
