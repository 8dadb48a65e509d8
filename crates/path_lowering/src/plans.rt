ghost use Rattle.std.specs.Prelude.{◌≡◌, ◌<◌, ◌^◌, ◌++◌, IfOk, length, map, flat_map};
ghost use Rattle.multisets.specs.Bags.{IsIn};
ghost use Rattle.graph_ast.specs.declared.blocks.Block.{Block as ABlock};
ghost use Rattle.graph_ast.specs.Lookups.{graph_at};
ghost use Rattle.graph_meaning.specs.Blocks.{blocks as blocks_of};
ghost use Rattle.path_lowering.specs.Layable.{IsPlannable, IsServed};
ghost use Rattle.path_lowering.specs.Planning.{items_by_path, plan_of_block as plan_of_this_block};

use crate::blocks::{items_of, query_singletons};
use graph_ast::{Block, Catalog, CheckedQuery, PathBlock, empty_tables_fit};
use pgq_base::{List, NoMemory};
use std::alloc::Global;

/// For each path and place of a graph block the number of the FROM item that has the row of the place.
#[derive(Debug, Drop)]
pub struct SelectPlan {
    pub items: List<List<u32>>,
}

/// Adds the items of some paths.
#[cycle(items)]
fn add_items(
    alloc: Global,
    made: List<List<u32>>,
    parts: &[PathBlock],
    items: &[u32],
) -> Result<List<List<u32>>, NoMemory>
    requires { length items.now ≡ length (flat_map (λ part. part.elements) parts.now) }
    ensures { IfOk result (λ all. all ≡ made ++ items_by_path parts.now items.now) }
{
    match parts {
        [] => Ok(made),
        [part, others @ ..] => {
            let mut made = made;
            let count = part.elements.as_slice().len();
            let mut own = List::new(alloc);
            own.extend(&items[..count])?;
            made.push(own)?;
            add_items(alloc, made, others, &items[count..])
        }
    }
}

fn plan_of_block(alloc: Global, query: &CheckedQuery, block: &Block) -> Result<SelectPlan, NoMemory>
    requires { IsPlannable query.now block.now }
    ensures { IfOk result (λ plan. plan ≡ plan_of_this_block query.now block.now) }
{
    let all = query_singletons(alloc, query)?;
    let names = all.as_slice();
    let parts = block.paths.as_slice();
    let planned = items_of(alloc, names, parts)?;
    let items = planned.as_slice();
    Ok(SelectPlan {
        items: add_items(alloc, List::new(alloc), parts, items)?,
    })
}

fn plans_of(
    alloc: Global,
    query: &CheckedQuery,
    blocks: &[Block],
) -> Result<List<SelectPlan>, NoMemory>
    requires { (block : ABlock) → IsIn block blocks.now → IsPlannable query.now block }
    ensures { IfOk result (λ made. made ≡ map (plan_of_this_block query.now) blocks.now) }
{
    let mut made = List::new(alloc);
    for block in blocks {
        made.push(plan_of_block(alloc, query, block)?)?;
    }
    Ok(made)
}

/// The plans of the SELECTs of a query, from its graph blocks: one for each, in their order.
pub fn plan_blocks(
    alloc: Global,
    catalog: &Catalog,
    query: &CheckedQuery,
    blocks: &[Block],
) -> Result<List<SelectPlan>, NoMemory>
    requires served { IsServed catalog.now query.now }
    requires blocks { blocks.now ≡ blocks_of (graph_at catalog.now query.now.graph) query.now }
    ensures { IfOk result (λ made. made ≡ map (plan_of_this_block query.now) (blocks_of (graph_at catalog.now query.now.graph) query.now)) }
{
    empty_tables_fit();
    plans_of(alloc, query, blocks)
}
