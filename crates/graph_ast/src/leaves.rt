ghost use Rattle.std.specs.Prelude.{◌≡◌, ◌↔◌, IsTrue};

use crate::checked::PropertyLeaf;
use crate::query::ElementTest;
use crate::schema::Named;
use expr_tree::Leaf;
use pgq_base::{Class, Name};

impl Leaf for PropertyLeaf {
    ghost class_is = { λ leaf. leaf.class };

    fn class(&self) -> Class {
        self.class
    }

    fn same(&self, other: &PropertyLeaf) -> bool {
        same_name(&self.variable, &other.variable)
            && same_name(&self.property, &other.property)
            && self.class == other.class
            && same_option(&self.test, &other.test)
    }
}

fn same_name(name: &Name, other: &Name) -> bool
    ensures { IsTrue result ↔ (name.now ≡ other.now) }
{
    name.as_bytes() == other.as_bytes()
}

fn same_named(named: &Named, other: &Named) -> bool
    ensures { IsTrue result ↔ (named.now ≡ other.now) }
{
    same_name(&named.name, &other.name) && named.span == other.span
}

fn same_list(list: &[Named], others: &[Named]) -> bool
    ensures { IsTrue result ↔ (list.now ≡ others.now) }
{
    if list.len() != others.len() {
        return false;
    }
    for i in 0..list.len() {
        if !same_named(&list[i], &others[i]) {
            return false;
        }
    }
    true
}

fn same_test(test: &ElementTest, other: &ElementTest) -> bool
    ensures { IsTrue result ↔ (test.now ≡ other.now) }
{
    match test {
        ElementTest::Same(list) => match other {
            ElementTest::Same(others) => same_list(list.as_slice(), others.as_slice()),
            _ => false,
        },
        ElementTest::AllDifferent(list) => match other {
            ElementTest::AllDifferent(others) => same_list(list.as_slice(), others.as_slice()),
            _ => false,
        },
        ElementTest::SourceOf(vertex, edge) => match other {
            ElementTest::SourceOf(vertex_there, edge_there) => {
                same_named(vertex, vertex_there) && same_named(edge, edge_there)
            }
            _ => false,
        },
        ElementTest::DestinationOf(vertex, edge) => match other {
            ElementTest::DestinationOf(vertex_there, edge_there) => {
                same_named(vertex, vertex_there) && same_named(edge, edge_there)
            }
            _ => false,
        },
    }
}

fn same_option(test: &Option<ElementTest>, other: &Option<ElementTest>) -> bool
    ensures { IsTrue result ↔ (test.now ≡ other.now) }
{
    match test {
        None => match other {
            None => true,
            Some(_) => false,
        },
        Some(test) => match other {
            None => false,
            Some(other) => same_test(test, other),
        },
    }
}
