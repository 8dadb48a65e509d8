ghost use Rattle.std.specs.Prelude.{◌≡◌, true, cond, nat_lt, length, map, IfOk};
ghost use Rattle.graph_meaning.specs.Weights.{block_size};
ghost use Rattle.normal_form.specs.Spending.{counted};
ghost use Rattle.normal_form.specs.Candidates.{HasSizes, candidate_sizes};
ghost use Rattle.normal_form.specs.Costs.{cost_among, with_costs};
ghost use Rattle.normal_form.specs.Rows.{seen};

use crate::candidates::{Sizes, sizes_by_ends, sizes_of_shorter};
use crate::rows::Costed;
use crate::sizes::{size_of_block, sum};
use graph_ast::{CheckedPath, PathBlock};
use pgq_base::{List, NoMemory};
use std::alloc::Global;
use std::collections::HashMap;

/// The sizes by which the candidates of path blocks are found, where the path pattern has a selector.
fn sizes_where_asked(
    alloc: Global,
    path: &CheckedPath,
    blocks: &[PathBlock],
) -> Result<Sizes, NoMemory>
    ensures { IfOk result (λ sizes. path.now.all_shortest ≡ true → HasSizes path.now blocks.now sizes) }
{
    if path.all_shortest {
        sizes_by_ends(alloc, path, blocks)
    } else {
        Ok(HashMap::new(alloc))
    }
}

fn candidates_of(path: &CheckedPath, blocks: &[PathBlock], sizes: &Sizes, block: &PathBlock) -> u64
    requires { path.now.all_shortest ≡ true → HasSizes path.now blocks.now sizes.now }
    ensures { result ≡ counted (cond path.now.all_shortest (candidate_sizes path.now blocks.now block.now) 0) }
{
    if path.all_shortest {
        sizes_of_shorter(path, blocks, sizes, block)
    } else {
        0
    }
}

fn own_size(path: &CheckedPath, block: &PathBlock, several: bool) -> u64
    ensures { result ≡ counted (cond several (block_size path.now block.now) 0) }
{
    if several {
        size_of_block(path, block)
    } else {
        0
    }
}

/// What a path block costs among those of its path pattern.
pub(crate) fn cost(
    path: &CheckedPath,
    blocks: &[PathBlock],
    sizes: &Sizes,
    several: bool,
    block: &PathBlock,
) -> u64
    requires { path.now.all_shortest ≡ true → HasSizes path.now blocks.now sizes.now }
    ensures { result ≡ counted (cost_among several path.now blocks.now block.now) }
{
    let own = own_size(path, block, several);
    let candidates = candidates_of(path, blocks, sizes, block);
    sum(own, candidates)
}

/// The path blocks of a path pattern, each with what it costs in a row.
fn costed_blocks<'b>(
    alloc: Global,
    path: &CheckedPath,
    several: bool,
    blocks: &'b [PathBlock],
) -> Result<List<Costed<'b>>, NoMemory>
    ensures { IfOk result (λ all. map seen all ≡ map (λ block. (block, counted (cost_among several path.now blocks.entry.now block))) blocks.entry.now) }
{
    let sizes = sizes_where_asked(alloc, path, blocks)?;
    let mut all = List::new(alloc);
    for block in blocks {
        let cost = cost(path, blocks, &sizes, several, block);
        all.push(Costed { block, cost })?;
    }
    Ok(all)
}

/// The path blocks of each path pattern, each with what it costs in a row.
pub(crate) fn costed<'b>(
    alloc: Global,
    paths: &[CheckedPath],
    lists: &'b [List<PathBlock>],
) -> Result<List<List<Costed<'b>>>, NoMemory>
    requires { length lists.now ≡ length paths.now }
    ensures { IfOk result (λ all. map (map seen) all ≡ with_costs (nat_lt 1 (length paths.now)) paths.now lists.entry.now) }
{
    let several = 1 < paths.len();
    let mut all = List::new(alloc);
    for place in 0..paths.len() {
        let blocks = lists[place].as_slice();
        all.push(costed_blocks(alloc, &paths[place], several, blocks)?)?;
    }
    Ok(all)
}
