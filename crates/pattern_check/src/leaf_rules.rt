ghost use Rattle.std.specs.Prelude.{◌≡◌, ◌&&◌, not, option_map};
ghost use Rattle.pattern_check.specs.Mentions.{kind_of};
ghost use Rattle.pattern_check.specs.ByName.{lacks};
ghost use Rattle.pattern_check.specs.NameRules.{is_declared, is_out_of_reach, is_out_of_scope, variable_faults, unknown_property};

use crate::around::Around;
use crate::declared::Declared;
use crate::leaves::LeafRule;
use crate::mentions::Sort;
use crate::properties::Shown;
use first_faults::{Fault, note};
use graph_ast::PropertyRef;
use pgq_base::{Code, Name};

/// The rule that a leaf's variable is declared, and that the leaf stands where it may be looked at.
#[derive(Clone, Copy, Drop)]
pub struct Variables<'d, 't> {
    pub declared: &'d Declared<'t>,
}

fn is_out_of_reach(declared: &Declared<'_>, around: &Around<'_, '_>, name: &Name) -> bool
    ensures { result ≡ is_out_of_reach declared.now around.now name.now }
{
    declared.has_group(name) && !around.reaches(name)
}

fn is_out_of_scope(declared: &Declared<'_>, around: &Around<'_, '_>, name: &Name) -> bool
    ensures { result ≡ (is_declared declared.now name.now && not (is_out_of_reach declared.now around.now name.now) && is_out_of_scope around.now name.now) }
{
    declared.has(name) && !is_out_of_reach(declared, around, name) && around.is_out_of_scope(name)
}

impl<'d, 't> LeafRule for Variables<'d, 't> {
    ghost faults = { λ rule used. variable_faults rule.declared.now used.around used.leaf.variable };

    fn look(
        &self,
        first: Option<Fault>,
        leaf: &PropertyRef,
        around: &Around<'_, '_>,
    ) -> Option<Fault> {
        let name = &leaf.variable.name;
        let span = leaf.variable.span;
        let known = self.declared.has(name);
        let hidden = is_out_of_reach(self.declared, around, name);
        let outside = is_out_of_scope(self.declared, around, name);
        let found = note(first, !known, Code::UnknownVariable, span);
        let found = note(found, hidden, Code::GroupVariable, span);
        note(found, outside, Code::OutOfScope, span)
    }
}

/// The rule that some element of the first kind of a leaf's variable has the leaf's property.
#[derive(Clone, Copy, Drop)]
pub struct Properties<'d, 't, 'g> {
    pub declared: &'d Declared<'t>,
    pub graph: &'d Shown<'g>,
}

fn lacks(graph: &Shown<'_>, kind: Option<Sort>, property: &Name) -> bool
    ensures { result ≡ lacks graph.now (option_map kind_of kind) property.now }
{
    match kind {
        None => false,
        Some(kind) => !graph.has(kind, property),
    }
}

impl<'d, 't, 'g> LeafRule for Properties<'d, 't, 'g> {
    ghost faults = { λ rule used. unknown_property rule.graph.now rule.declared.now used.leaf };

    fn look(
        &self,
        first: Option<Fault>,
        leaf: &PropertyRef,
        around: &Around<'_, '_>,
    ) -> Option<Fault> {
        let kind = self.declared.kind(&leaf.variable.name);
        let unknown = lacks(self.graph, kind, &leaf.property.name);
        note(first, unknown, Code::UnknownProperty, leaf.property.span)
    }
}
