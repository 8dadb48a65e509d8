ghost use Rattle.std.specs.Prelude.{◌≡◌, map, option_map};
ghost use Rattle.graph_ast.specs.Lookups.{column_of, column_at};
ghost use Rattle.graph_ast.specs.Types.{class_of_type};
ghost use Rattle.graph_ast.specs.declared.catalog.EdgeElement.{EdgeElement as Edge};
ghost use Rattle.pattern_check.specs.Graphs.{class_in_element, class_among, property_class};
ghost use Rattle.pattern_check.specs.TypeRules.{leaf_class};

use graph_ast::{Catalog, EdgeElement, Element, Graph, PropertyRef, Table};
use pgq_base::{Class, Name};

#[tactic(auto, using(crate::proofs::ClassSteps::at_missing, crate::proofs::ClassSteps::at_found))]
fn column_class(table: &Table, place: u32) -> Class
    ensures { result ≡ class_of_type (column_at table.now place).kind }
{
    match table.columns.as_slice().get(place as usize) {
        None => Class::Truth,
        Some(column) => column.kind.class(),
    }
}

#[tactic(auto, using(crate::proofs::ClassSteps::at_missing, crate::proofs::ClassSteps::at_found))]
fn class_in_element(catalog: &Catalog, element: &Element, column: u32) -> Class
    ensures { result ≡ class_in_element catalog.now element.now column }
{
    match catalog.tables.as_slice().get(element.table as usize) {
        None => Class::Truth,
        Some(table) => column_class(table, column),
    }
}

fn class_in(catalog: &Catalog, element: &Element, property: &Name) -> Option<Class>
    ensures { result ≡ option_map (class_in_element catalog.now element.now) (column_of element.now property.now) }
{
    match element.column_of(property) {
        None => None,
        Some(column) => Some(class_in_element(catalog, element, column)),
    }
}

#[tactic(auto, using(crate::proofs::ClassSteps::edges_on))]
fn class_among_edges(catalog: &Catalog, property: &Name, edges: &[EdgeElement]) -> Class
    ensures { result ≡ class_among catalog.now property.now (map (λ (edge : Edge). edge.element) edges.now) }
{
    for edge in edges {
        match class_in(catalog, &edge.element, property) {
            None => {}
            Some(class) => return class,
        }
    }
    Class::Truth
}

#[tactic(auto, using(crate::proofs::ClassSteps::vertices_on))]
fn property_class(catalog: &Catalog, graph: &Graph, property: &Name) -> Class
    ensures { result ≡ property_class catalog.now graph.now property.now }
{
    for element in graph.vertices.as_slice() {
        match class_in(catalog, element, property) {
            None => {}
            Some(class) => return class,
        }
    }
    class_among_edges(catalog, property, graph.edges.as_slice())
}

/// The class of a leaf: that of its property in the first element that has it.
pub fn leaf_class(catalog: &Catalog, graph: &Graph, leaf: &PropertyRef) -> Class
    ensures { result ≡ leaf_class catalog.now graph.now leaf.now }
{
    property_class(catalog, graph, &leaf.property.name)
}
