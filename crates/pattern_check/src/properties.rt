ghost use Rattle.std.specs.Prelude.{◌≡◌, ◌++◌, map, flat_map, IfOk};
ghost use Rattle.std.specs.List.{list_any};
ghost use Rattle.graph_ast.specs.declared.catalog.EdgeElement.{EdgeElement as EdgeTree};
ghost use Rattle.pattern_check.specs.Mentions.{kind_of};
ghost use Rattle.pattern_check.specs.Graphs.{elements_of_kind, has_property};
ghost use Rattle.pattern_check.specs.ByName.{property_names};

use crate::declared::has;
use crate::mentions::Sort;
use first_faults::Index;
use graph_ast::{EdgeElement, Element, Graph};
use pgq_base::{Name, NoMemory};
use std::alloc::Global;
use std::marker::Model;

/// A graph whose properties are found by name: those of its vertices and those of its edges. Contracts see the graph.
#[derive(Drop)]
pub struct Shown<'g> {
    graph: &'g Graph,
    vertices: Index<'g>,
    edges: Index<'g>,
}

impl<'g> Model for Shown<'g> {
    ghost use Rattle.std.specs.Prelude.{◌≡◌, flat_map};
    ghost use Rattle.graph_ast.specs.declared.catalog.Graph.{Graph as GraphTree};
    ghost use Rattle.pattern_check.specs.Scopes.{vertices as of_vertices, edges as of_edges};
    ghost use Rattle.pattern_check.specs.Graphs.{elements_of_kind};
    ghost use Rattle.pattern_check.specs.ByName.{property_names};

    ghost Value = { GraphTree };

    ghost view = { λ x. x.graph.now };

    ghost invariant = { λ x. (x.vertices ≡ flat_map property_names (elements_of_kind x.graph.now of_vertices)) × (x.edges ≡ flat_map property_names (elements_of_kind x.graph.now of_edges)) };
}

#[tactic(auto, using(crate::proofs::PropertySteps::names_step))]
fn with_element<'g>(names: Index<'g>, element: &'g Element) -> Result<Index<'g>, NoMemory>
    ensures { IfOk result (λ all. all ≡ names.entry ++ property_names element.entry.now) }
{
    let mut names = names;
    for property in element.properties.as_slice() {
        names = names.with(property.name.as_bytes())?;
    }
    Ok(names)
}

#[tactic(auto, using(first_faults::proofs::Steps::append_step))]
fn vertex_properties<'g>(alloc: Global, elements: &'g [Element]) -> Result<Index<'g>, NoMemory>
    ensures { IfOk result (λ all. all ≡ flat_map property_names elements.entry.now) }
{
    let mut names = Index::new(alloc);
    for element in elements {
        names = with_element(names, element)?;
    }
    Ok(names)
}

#[tactic(auto, using(crate::proofs::PropertySteps::edges_step))]
fn edge_properties<'g>(alloc: Global, edges: &'g [EdgeElement]) -> Result<Index<'g>, NoMemory>
    ensures { IfOk result (λ all. all ≡ flat_map property_names (map (λ (edge : EdgeTree). edge.element) edges.entry.now)) }
{
    let mut names = Index::new(alloc);
    for edge in edges {
        names = with_element(names, &edge.element)?;
    }
    Ok(names)
}

impl<'g> Shown<'g> {
    pub fn new(alloc: Global, graph: &'g Graph) -> Result<Shown<'g>, NoMemory>
        ensures { IfOk result (λ shown. shown ≡ graph.entry.now) }
    {
        let vertices = vertex_properties(alloc, graph.vertices.as_slice())?;
        let edges = edge_properties(alloc, graph.edges.as_slice())?;
        Ok(Shown {
            graph,
            vertices,
            edges,
        })
    }

    /// Some element of the kind has the property.
    #[tactic(auto, using(crate::proofs::PropertySteps::property_named))]
    pub fn has(&self, kind: Sort, property: &Name) -> bool
        ensures { result ≡ list_any (has_property property.now) (elements_of_kind self.now (kind_of kind)) }
    {
        match kind {
            Sort::Vertices => has(&self.vertices, property),
            Sort::Edges => has(&self.edges, property),
        }
    }
}
