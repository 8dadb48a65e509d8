ghost use Rattle.std.specs.Prelude.{◌≡◌};
ghost use Rattle.graph_ast.specs.declared.catalog.Catalog.{Catalog};
ghost use Rattle.graph_ast.specs.declared.checked.CheckedQuery.{CheckedQuery};
ghost use Rattle.graph_ast.specs.Lookups.{graph_at};
ghost use Rattle.sql_algebra.specs.Soundness.{IsSound};
ghost use Rattle.sql_algebra.specs.Printable.{IsPrintable};
ghost use Rattle.path_lowering.specs.Apart.{apart};
ghost use Rattle.path_lowering.specs.Layable.{IsServed};
ghost use Rattle.path_lowering.specs.Sound.{IsSoundQuery};
ghost use Rattle.path_lowering.specs.SoundTexts.{HasNames, IsSpelledQuery};
ghost use Rattle.shortest_lowering.specs.Selected.{selected_query};

use graph_ast::empty_tables_fit;

/// A law: the SQL query of a query whose expressions are well classed and whose columns' names differ is sound in the catalog, NOT EXISTS
/// of each shorter candidate included.
pub fn sound_law()
    ensures { (catalog : Catalog) (query : CheckedQuery) → IsServed catalog query → IsSoundQuery catalog (graph_at catalog query.graph) query
        → IsSound (selected_query catalog apart query) catalog }
{
    empty_tables_fit();
}

/// A law: the SQL query of a query that has a column or more, whose expressions have texts and whose names are names has a text, NOT EXISTS
/// of each shorter candidate included.
pub fn printable_law()
    ensures { (catalog : Catalog) (query : CheckedQuery) → IsServed catalog query → HasNames catalog → IsSpelledQuery query
        → IsPrintable (selected_query catalog apart query) }
{
    empty_tables_fit();
}
