ghost use Rattle.std.specs.Prelude.{◌≡◌, []};
ghost use Rattle.pgq_base.specs.Instances.{InstanceRows};
ghost use Rattle.multisets.specs.Bags.{IsIn, IsSameMultiset};
ghost use Rattle.graph_ast.specs.declared.catalog.Catalog.{Catalog};
ghost use Rattle.graph_ast.specs.declared.checked.CheckedQuery.{CheckedQuery};
ghost use Rattle.graph_ast.specs.declared.blocks.Block.{Block};
ghost use Rattle.graph_ast.specs.Lookups.{graph_at};
ghost use Rattle.graph_meaning.specs.Answers.{answer};
ghost use Rattle.graph_meaning.specs.Blocks.{blocks};
ghost use Rattle.graph_meaning.specs.Laws.{IsFitting};
ghost use Rattle.graph_meaning.specs.Rows.{answer_of_block};
ghost use Rattle.sql_algebra.specs.Meaning.{select_rows, bag};
ghost use Rattle.path_lowering.specs.Lowered.{Combining, IsCombining, IsLowerable};
ghost use Rattle.shortest_lowering.specs.Selected.{selected_block, selected_query};

/// A law: over an instance that fits, the SQL query of a query has the rows of the answer, each equally often. Of each graph block the rows
/// of its SELECT are its part of the answer: for each path under ALL SHORTEST, no shorter candidate has rows exactly where the selector
/// keeps the path's rows.
pub fn selected_law()
    ensures block { (catalog : Catalog) (query : CheckedQuery) (instance : InstanceRows)
        → IsFitting catalog (graph_at catalog query.graph) instance → IsLowerable (graph_at catalog query.graph) query
        → (combined : Combining) → IsCombining combined → (block : Block) → IsIn block (blocks (graph_at catalog query.graph) query)
        → select_rows catalog instance (selected_block catalog (graph_at catalog query.graph) combined query block) []
        ≡ answer_of_block (graph_at catalog query.graph) instance query [] [] block }
    ensures answer { (catalog : Catalog) (query : CheckedQuery) (instance : InstanceRows)
        → IsFitting catalog (graph_at catalog query.graph) instance → IsLowerable (graph_at catalog query.graph) query
        → (combined : Combining) → IsCombining combined
        → IsSameMultiset (answer catalog query [] [] instance) (bag catalog (selected_query catalog combined query) instance) }
{}
