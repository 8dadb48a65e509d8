ghost use Rattle.std.specs.Prelude.{◌≡◌, [], IfOk, map};
ghost use Rattle.std.specs.List.{AllZip};
ghost use Rattle.multisets.specs.Bags.{IsIn, IsSameMultiset};
ghost use Rattle.pgq_base.specs.Instances.{InstanceRows};
ghost use Rattle.graph_ast.specs.declared.blocks.Block.{Block as ABlock};
ghost use Rattle.graph_ast.specs.Fits.{Fits};
ghost use Rattle.graph_ast.specs.Lookups.{graph_at};
ghost use Rattle.graph_meaning.specs.Answers.{answer};
ghost use Rattle.graph_meaning.specs.Blocks.{blocks as blocks_of, query_path_blocks};
ghost use Rattle.sql_algebra.specs.Meaning.{bag};
ghost use Rattle.path_lowering.specs.Apart.{apart};
ghost use Rattle.path_lowering.specs.Layable.{IsReady, IsServed};
ghost use Rattle.shortest_lowering.specs.Comparable.{IsComparable};
ghost use Rattle.shortest_lowering.specs.Selected.{selected_block as select_of_selected, selected_query};

use crate::means::selected_law;
use crate::shorter::add_all_shorter;
use graph_ast::{Block, Catalog, CheckedQuery, PathBlock, empty_tables_fit};
use path_lowering::{Scene, items_of, or_none, query_singletons, select_of_block};
use pgq_base::{List, NoMemory};
use sql_algebra::{Select, SqlQuery};
use std::alloc::Global;

/// The SELECT of a graph block, in which for each path under ALL SHORTEST no shorter candidate has rows between its ends.
fn selected_block(
    alloc: Global,
    scene: &Scene<'_>,
    query: &CheckedQuery,
    block: &Block,
    candidates: &[List<PathBlock>],
) -> Result<Select, NoMemory>
    requires letter { scene.now.prefix ≡ 65 }
    requires ready { IsReady scene.now.catalog.now scene.now.graph.now 65 query.now block.now }
    requires comparable { AllZip (IsComparable scene.now.catalog.now scene.now.graph.now candidates.now) query.now.paths block.now.paths }
    ensures { IfOk result (λ select. select ≡ select_of_selected scene.now.catalog.now scene.now.graph.now apart query.now block.now) }
{
    let Select {
        columns,
        from,
        conjuncts,
    } = select_of_block(alloc, scene, query, block)?;
    let singletons = query_singletons(alloc, query)?;
    let names = singletons.as_slice();
    let paths = query.paths.as_slice();
    let parts = block.paths.as_slice();
    let planned = items_of(alloc, names, parts)?;
    let items = planned.as_slice();
    let conjuncts = add_all_shorter(alloc, scene, conjuncts, paths, parts, items, candidates)?;
    Ok(Select {
        columns,
        from,
        conjuncts,
    })
}

/// The SELECT of each of some graph blocks.
fn selects_of(
    alloc: Global,
    scene: &Scene<'_>,
    query: &CheckedQuery,
    blocks: &[Block],
    candidates: &[List<PathBlock>],
) -> Result<List<Select>, NoMemory>
    requires letter { scene.now.prefix ≡ 65 }
    requires ready { (block : ABlock) → IsIn block blocks.now → IsReady scene.now.catalog.now scene.now.graph.now 65 query.now block }
    requires comparable { (block : ABlock) → IsIn block blocks.now
        → AllZip (IsComparable scene.now.catalog.now scene.now.graph.now candidates.now) query.now.paths block.paths }
    ensures { IfOk result (λ made. made ≡ map (select_of_selected scene.now.catalog.now scene.now.graph.now apart query.now) blocks.now) }
{
    let mut made = List::new(alloc);
    for block in blocks {
        made.push(selected_block(alloc, scene, query, block, candidates)?)?;
    }
    Ok(made)
}

fn selected_of(
    alloc: Global,
    catalog: &Catalog,
    query: &CheckedQuery,
    blocks: &[Block],
    candidates: &[List<PathBlock>],
) -> Result<SqlQuery, NoMemory>
    requires served { IsServed catalog.now query.now }
    requires blocks { blocks.now ≡ blocks_of (graph_at catalog.now query.now.graph) query.now }
    requires candidates { candidates.now ≡ query_path_blocks (graph_at catalog.now query.now.graph) query.now }
    ensures { IfOk result (λ sql. sql ≡ selected_query catalog.now apart query.now) }
{
    empty_tables_fit();
    let scene = Scene {
        catalog,
        graph: &catalog.graphs.as_slice()[query.graph as usize],
        prefix: b'A',
    };
    let selects = selects_of(alloc, &scene, query, blocks, candidates)?;
    let selects = or_none(alloc, &scene, selects, query.columns.as_slice())?;
    Ok(SqlQuery { selects })
}

/// The SQL query of a query from its graph blocks and the path blocks of each path: one SELECT for each graph block, in their order, in
/// which a path under ALL SHORTEST has no shorter candidate. Its rows are those of the answer, each equally often, over every instance
/// that fits.
pub fn lower_selected(
    alloc: Global,
    catalog: &Catalog,
    query: &CheckedQuery,
    blocks: &[Block],
    candidates: &[List<PathBlock>],
) -> Result<SqlQuery, NoMemory>
    requires served { IsServed catalog.now query.now }
    requires blocks { blocks.now ≡ blocks_of (graph_at catalog.now query.now.graph) query.now }
    requires candidates { candidates.now ≡ query_path_blocks (graph_at catalog.now query.now.graph) query.now }
    ensures exact { IfOk result (λ sql. sql ≡ selected_query catalog.now apart query.now) }
    ensures means { IfOk result (λ sql. (instance : InstanceRows) → Fits catalog.now instance
        → IsSameMultiset (answer catalog.now query.now [] [] instance) (bag catalog.now sql instance)) }
{
    selected_law();
    selected_of(alloc, catalog, query, blocks, candidates)
}
