ghost use Rattle.std.specs.Prelude.{◌<◌, ◌^◌, ℕ, length};
ghost use Rattle.pgq_base.specs.Instances.{InstanceRows};
ghost use Rattle.multisets.specs.Bags.{IsIn};
ghost use Rattle.graph_ast.specs.declared.catalog.Catalog.{Catalog};
ghost use Rattle.graph_ast.specs.declared.checked.CheckedPath.{CheckedPath};
ghost use Rattle.graph_ast.specs.declared.checked.CheckedQuery.{CheckedQuery};
ghost use Rattle.graph_ast.specs.declared.blocks.PathBlock.{PathBlock};
ghost use Rattle.graph_ast.specs.Lookups.{graph_at};
ghost use Rattle.graph_meaning.specs.Blocks.{path_blocks};
ghost use Rattle.graph_meaning.specs.Laws.{IsFitting};
ghost use Rattle.sql_algebra.specs.Printable.{IsPrintable};
ghost use Rattle.sql_algebra.specs.Soundness.{IsSound};
ghost use Rattle.path_lowering.specs.Layable.{IsServed};
ghost use Rattle.path_lowering.specs.Lowered.{IsLowerable};
ghost use Rattle.path_lowering.specs.Sound.{IsSoundQuery};
ghost use Rattle.path_lowering.specs.SoundTexts.{HasNames, IsSpelledQuery};
ghost use Rattle.shortest_lowering.specs.NoShorter.{IsFormed};
ghost use Rattle.shortest_lowering.specs.PathCandidates.{path_candidate, path_select, query_of};
ghost use Rattle.shortest_lowering.specs.StandsFor.{StandForPairs};

use graph_ast::empty_tables_fit;

/// A law: over an instance that fits, the tuples of a candidate's SELECT of which every condition is True stand each for one binding of the
/// path in its mode that lies in the path block, and each of these has one such tuple.
pub fn pairs_law()
    ensures { (catalog : Catalog) (query : CheckedQuery) (instance : InstanceRows)
        → IsFitting catalog (graph_at catalog query.graph) instance → IsLowerable (graph_at catalog query.graph) query
        → (path : CheckedPath) → IsIn path query.paths → (place : ℕ) (part : PathBlock) → IsIn part (path_blocks (graph_at catalog query.graph) place path)
        → length part.elements < 2 ^ 32
        → StandForPairs catalog instance (graph_at catalog query.graph) path part (path_select catalog (graph_at catalog query.graph) path part) }
{}

/// A law: the SELECT of a candidate is sound as a query of its own, and has a text. The candidate has the form that `no_shorter` asks for.
pub fn alone_law()
    ensures sound { (catalog : Catalog) (query : CheckedQuery) → IsServed catalog query → IsSoundQuery catalog (graph_at catalog query.graph) query
        → (path : CheckedPath) → IsIn path query.paths → (place : ℕ) (part : PathBlock) → IsIn part (path_blocks (graph_at catalog query.graph) place path)
        → length part.elements < 2 ^ 32 → IsSound (query_of (path_select catalog (graph_at catalog query.graph) path part)) catalog }
    ensures formed { (catalog : Catalog) (query : CheckedQuery) → IsServed catalog query → IsSoundQuery catalog (graph_at catalog query.graph) query
        → (path : CheckedPath) → IsIn path query.paths → (place : ℕ) (part : PathBlock) → IsIn part (path_blocks (graph_at catalog query.graph) place path)
        → length part.elements < 2 ^ 32 → IsFormed (path_candidate catalog (graph_at catalog query.graph) path part) }
    ensures printable { (catalog : Catalog) (query : CheckedQuery) → IsServed catalog query → HasNames catalog → IsSpelledQuery query
        → (path : CheckedPath) → IsIn path query.paths → (place : ℕ) (part : PathBlock) → IsIn part (path_blocks (graph_at catalog query.graph) place path)
        → length part.elements < 2 ^ 32 → IsPrintable (query_of (path_select catalog (graph_at catalog query.graph) path part)) }
{
    empty_tables_fit();
}
