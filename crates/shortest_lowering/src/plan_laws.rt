ghost use Rattle.pgq_base.specs.Instances.{InstanceRows};
ghost use Rattle.multisets.specs.Bags.{IsIn};
ghost use Rattle.graph_ast.specs.declared.catalog.Catalog.{Catalog};
ghost use Rattle.graph_ast.specs.declared.checked.CheckedQuery.{CheckedQuery};
ghost use Rattle.graph_ast.specs.declared.blocks.Block.{Block};
ghost use Rattle.graph_ast.specs.Lookups.{graph_at};
ghost use Rattle.graph_meaning.specs.Blocks.{blocks};
ghost use Rattle.graph_meaning.specs.Laws.{IsFitting};
ghost use Rattle.path_lowering.specs.Lowered.{Combining, IsCombining, IsLowerable};
ghost use Rattle.path_lowering.specs.Planning.{plan_of_block};
ghost use Rattle.shortest_lowering.specs.Selected.{selected_block};
ghost use Rattle.shortest_lowering.specs.StandsFor.{HasItems, StandForBindings};

/// A law: over an instance that fits, the plan of a graph block has an item of the block's SELECT for each place, over the table of the
/// place's element, and the SELECT's tuples of which every condition is True stand each for one graph binding of the block, and each of
/// these has one such tuple.
pub fn plans_law()
    ensures items { (catalog : Catalog) (query : CheckedQuery) (instance : InstanceRows)
        → IsFitting catalog (graph_at catalog query.graph) instance → IsLowerable (graph_at catalog query.graph) query
        → (combined : Combining) → IsCombining combined → (block : Block) → IsIn block (blocks (graph_at catalog query.graph) query)
        → HasItems catalog (graph_at catalog query.graph) block (plan_of_block query block) (selected_block catalog (graph_at catalog query.graph) combined query block) }
    ensures stand { (catalog : Catalog) (query : CheckedQuery) (instance : InstanceRows)
        → IsFitting catalog (graph_at catalog query.graph) instance → IsLowerable (graph_at catalog query.graph) query
        → (combined : Combining) → IsCombining combined → (block : Block) → IsIn block (blocks (graph_at catalog query.graph) query)
        → StandForBindings catalog instance query block (plan_of_block query block) (selected_block catalog (graph_at catalog query.graph) combined query block) }
{}
