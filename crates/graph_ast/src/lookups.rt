ghost use Rattle.std.specs.Prelude.{◌≡◌, ◌<◌, ◌^◌, length, bytes_eq, IfSome};
ghost use Rattle.std.specs.List.{position};
ghost use Rattle.graph_ast.specs.Lookups.{table_place, graph_place, column_of};

use crate::catalog::{Catalog, Element, Graph, Table};
use pgq_base::Name;

fn same_name(name: &Name, other: &Name) -> bool
    ensures { result ≡ bytes_eq name.now other.now }
{
    name.as_bytes() == other.as_bytes()
}

fn table_at(tables: &[Table], name: &Name) -> Option<usize>
    ensures place { result ≡ position (λ table. bytes_eq table.name name.now) tables.now }
    ensures within { IfSome result (λ place. place < length tables.now) }
{
    tables.iter().position(|table| same_name(&table.name, name))
}

fn graph_at(graphs: &[Graph], name: &Name) -> Option<usize>
    ensures place { result ≡ position (λ graph. bytes_eq graph.name name.now) graphs.now }
    ensures within { IfSome result (λ place. place < length graphs.now) }
{
    graphs.iter().position(|graph| same_name(&graph.name, name))
}

impl Catalog {
    /// The place of the first table of that name, and None exactly where there is none.
    pub fn table(&self, name: &Name) -> Option<u32>
        requires { length self.now.tables < 2 ^ 32 }
        ensures { result ≡ table_place self.now name.now }
    {
        match table_at(self.tables.as_slice(), name) {
            None => None,
            Some(place) => Some(place as u32),
        }
    }

    /// The place of the first graph of that name, and None exactly where there is none.
    pub fn graph(&self, name: &Name) -> Option<u32>
        requires { length self.now.graphs < 2 ^ 32 }
        ensures { result ≡ graph_place self.now name.now }
    {
        match graph_at(self.graphs.as_slice(), name) {
            None => None,
            Some(place) => Some(place as u32),
        }
    }
}

impl Element {
    /// The place of the column of a property, and None exactly where the element has no property of that
    /// name.
    pub fn column_of(&self, property: &Name) -> Option<u32>
        ensures { result ≡ column_of self.now property.now }
    {
        for other in self.properties.as_slice() {
            if same_name(&other.name, property) {
                return Some(other.column);
            }
        }
        None
    }
}
