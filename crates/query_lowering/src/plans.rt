ghost use Rattle.std.specs.Prelude.{◌≡◌, IfOk, map};
ghost use Rattle.std.specs.List.{AllZip};
ghost use Rattle.pgq_base.specs.Instances.{InstanceRows};
ghost use Rattle.graph_ast.specs.Fits.{Fits};
ghost use Rattle.graph_ast.specs.Lookups.{graph_at};
ghost use Rattle.graph_meaning.specs.Blocks.{blocks as blocks_of};
ghost use Rattle.path_lowering.specs.Apart.{apart};
ghost use Rattle.path_lowering.specs.Planning.{plan_of_block};
ghost use Rattle.shortest_lowering.specs.Selected.{selected_block};
ghost use Rattle.shortest_lowering.specs.StandsFor.{HasItems, StandForBindings};
ghost use Rattle.query_lowering.specs.Translatable.{IsTranslatable};

use graph_ast::{Catalog, CheckedQuery, empty_tables_fit};
use normal_form::blocks;
use path_lowering::{SelectPlan, plan_blocks};
use pgq_base::{List, NoMemory};
use shortest_lowering::plans_law;
use std::alloc::Global;

/// The plans of the SELECTs that `lower` writes: one for each graph block, in their order. For each path and place of the block the plan has
/// the number of an item of the SELECT, over the table of the element there. Over every instance that fits, the SELECT's tuples of which
/// every condition is True stand by the plan each for one graph binding of the block, and each of these has exactly one such tuple. It fails
/// only for want of memory.
pub fn select_plan(
    alloc: Global,
    catalog: &Catalog,
    query: &CheckedQuery,
) -> Result<List<SelectPlan>, NoMemory>
    requires { IsTranslatable catalog.now query.now }
    ensures exact { IfOk result (λ plans. plans ≡ map (plan_of_block query.now) (blocks_of (graph_at catalog.now query.now.graph) query.now)) }
    ensures items { IfOk result (λ plans. AllZip (λ block plan. HasItems catalog.now (graph_at catalog.now query.now.graph) block plan
        (selected_block catalog.now (graph_at catalog.now query.now.graph) apart query.now block)) (blocks_of (graph_at catalog.now query.now.graph) query.now) plans) }
    ensures stand { IfOk result (λ plans. (instance : InstanceRows) → Fits catalog.now instance
        → AllZip (λ block plan. StandForBindings catalog.now instance query.now block plan
        (selected_block catalog.now (graph_at catalog.now query.now.graph) apart query.now block)) (blocks_of (graph_at catalog.now query.now.graph) query.now) plans) }
{
    plans_law();
    empty_tables_fit();
    let blocks = blocks(alloc, catalog, query)?;
    plan_blocks(alloc, catalog, query, blocks.as_slice())
}
