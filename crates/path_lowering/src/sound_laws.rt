ghost use Rattle.std.specs.Prelude.{◌≡◌};
ghost use Rattle.multisets.specs.Bags.{IsIn};
ghost use Rattle.graph_ast.specs.declared.catalog.Catalog.{Catalog as Schema};
ghost use Rattle.graph_ast.specs.declared.catalog.Graph.{Graph};
ghost use Rattle.graph_ast.specs.declared.catalog.Element.{Element};
ghost use Rattle.graph_ast.specs.declared.catalog.Property.{Property};
ghost use Rattle.graph_ast.specs.declared.checked.CheckedPath.{CheckedPath};
ghost use Rattle.graph_ast.specs.declared.checked.CheckedQuery.{CheckedQuery as Query};
ghost use Rattle.graph_ast.specs.declared.checked.PropertyLeaf.{PropertyLeaf};
ghost use Rattle.graph_ast.specs.declared.blocks.Alternative.{Alternative};
ghost use Rattle.graph_ast.specs.Catalogs.{IsValidGraph};
ghost use Rattle.graph_ast.specs.Lookups.{table_at, column_at, elements_of, graph_at};
ghost use Rattle.graph_ast.specs.Types.{class_of_type};
ghost use Rattle.graph_meaning.specs.Choices.{Scoped, expansion_of};
ghost use Rattle.sql_algebra.specs.Printable.{IsPrintable};
ghost use Rattle.sql_algebra.specs.Soundness.{IsSound};
ghost use Rattle.path_lowering.specs.Lowered.{Combining, IsCombining, in_one, lowered_query};
ghost use Rattle.path_lowering.specs.Apart.{apart};
ghost use Rattle.path_lowering.specs.Layable.{IsServed};
ghost use Rattle.path_lowering.specs.Sound.{HasItsClass, IsSoundQuery, IsBuilding, path_conditions};
ghost use Rattle.path_lowering.specs.SoundTexts.{HasNames, IsSpelledQuery};

use graph_ast::empty_tables_fit;

/// The SQL query of a query whose expressions are well classed and whose columns' names differ is sound in the catalog, however the
/// conditions of alternatives become one list, if AND and OR of two or more make it.
pub fn sound_law()
    ensures sound { (catalog : Schema) (query : Query) → IsServed catalog query → IsSoundQuery catalog (graph_at catalog query.graph) query
        → (combined : Combining) → IsCombining combined → IsBuilding combined → IsSound (lowered_query catalog combined query) catalog }
    ensures split { IsBuilding apart }
    ensures whole { IsBuilding in_one }
{
    empty_tables_fit();
}

/// The SQL query of a query that has a column or more, whose expressions have texts and whose names are names has a text.
pub fn printable_law()
    ensures { (catalog : Schema) (query : Query) → IsServed catalog query → HasNames catalog → IsSpelledQuery query
        → (combined : Combining) → IsCombining combined → IsBuilding combined → IsPrintable (lowered_query catalog combined query) }
{
    empty_tables_fit();
}

/// What is asked of a query follows from its tree: the conditions of a choice are those of the path, and a leaf has the class of all
/// properties of its name if it has that of one.
pub fn sound_premises_law()
    ensures conditions { (path : CheckedPath) (choice : Alternative) (scoped : Scoped) → IsIn scoped (expansion_of path choice).conditions → IsIn scoped.condition (path_conditions path) }
    ensures class { (catalog : Schema) (graph : Graph) → IsValidGraph catalog graph → (leaf : PropertyLeaf) (element : Element) (property : Property)
        → IsIn element (elements_of graph) → IsIn property element.properties → property.name ≡ leaf.property
        → class_of_type (column_at (table_at catalog element.table) property.column).kind ≡ leaf.class → HasItsClass catalog graph leaf }
{}
