ghost use Rattle.std.specs.Prelude.{◌≡◌, map, [], ◌∷◌, ◌++◌, option_copied, option_to_list};
ghost use Rattle.std.specs.List.{flat_map, list_any};
ghost use Rattle.graph_ast.specs.declared.catalog.Element.{Element as ElementTree};
ghost use Rattle.graph_ast.specs.declared.catalog.EdgeElement.{EdgeElement as EdgeTree};
ghost use Rattle.first_faults.specs.Faults.{first_of};
ghost use Rattle.first_faults.specs.Names.{has_text};
ghost use Rattle.graph_ast.specs.Patterns.{given_by, sequence_given, part_given, body_given};
ghost use Rattle.pattern_check.specs.Graphs.{is_label};
ghost use Rattle.pattern_check.specs.NameRules.{labels_in, row_labels, body_labels, labelling, path_labels, unknown_label};

use first_faults::{Fault, note, same_name};
use graph_ast::{
    EdgeElement, Element, Factor, Graph, LabelExpr, Named, PartTree, PathTree, Sequence, Union,
};
use pgq_base::{Code, Name};

fn has_text(text: &Name, texts: &[Name]) -> bool
    ensures { result ≡ has_text text.now texts.now }
{
    texts.iter().any(|other| same_name(other, text))
}

fn has_element(elements: &[Element], label: &Name) -> bool
    ensures { result ≡ list_any (λ (element : ElementTree). has_text label.now element.labels) elements.now }
{
    elements
        .iter()
        .any(|element| has_text(label, element.labels.as_slice()))
}

fn has_edge(edges: &[EdgeElement], label: &Name) -> bool
    ensures { result ≡ list_any (λ (edge : EdgeTree). has_text label.now edge.element.labels) edges.now }
{
    edges
        .iter()
        .any(|edge| has_text(label, edge.element.labels.as_slice()))
}

#[tactic(auto, using(crate::proofs::PatternSteps::any_of_both))]
fn is_label(graph: &Graph, label: &Name) -> bool
    ensures { result ≡ is_label graph.now label.now }
{
    let vertex = has_element(graph.vertices.as_slice(), label);
    let edge = has_edge(graph.edges.as_slice(), label);
    vertex || edge
}

fn unknown_label(first: Option<Fault>, label: &Named, graph: &Graph) -> Option<Fault>
    ensures { result ≡ first_of first (unknown_label graph.now label.now) }
{
    let known = is_label(graph, &label.name);
    note(first, !known, Code::UnknownLabel, label.span)
}

#[cycle(labels)]
#[tactic(auto, using(first_faults::proofs::Steps::append_nothing))]
fn in_label(expr: &LabelExpr, first: Option<Fault>, graph: &Graph) -> Option<Fault>
    ensures { result ≡ first_of first (flat_map (unknown_label graph.now) (labels_in expr.now)) }
{
    match expr {
        LabelExpr::Label(label) => unknown_label(first, label, graph),
        LabelExpr::AnyLabel => first,
        LabelExpr::Not(inner) => in_label(inner.get(), first, graph),
        LabelExpr::And(list) => in_labels(list.as_slice(), first, graph),
        LabelExpr::Or(list) => in_labels(list.as_slice(), first, graph),
    }
}

#[cycle(labels)]
fn in_labels(list: &[LabelExpr], first: Option<Fault>, graph: &Graph) -> Option<Fault>
    ensures { result ≡ first_of first (flat_map (unknown_label graph.now) (row_labels (map labels_in list.now))) }
{
    let mut found = first;
    for expr in list {
        found = in_label(expr, found, graph);
    }
    found
}

#[tactic(auto, using(first_faults::proofs::Steps::append_nothing))]
fn given_label(first: Option<Fault>, label: Option<&LabelExpr>, graph: &Graph) -> Option<Fault>
    ensures { result ≡ first_of first (flat_map (unknown_label graph.now) (flat_map labels_in (option_to_list (option_copied label.entry)))) }
{
    match label {
        None => first,
        Some(expr) => in_label(expr, first, graph),
    }
}

#[cycle(patterns)]
fn in_factor(factor: &Factor, first: Option<Fault>, graph: &Graph) -> Option<Fault>
    ensures { result ≡ first_of first (flat_map (unknown_label graph.now) (given_by labelling factor.now)) }
{
    match factor {
        Factor::Vertex(filler) => given_label(first, filler.label.as_ref(), graph),
        Factor::Edge(_, filler, _) => given_label(first, filler.label.as_ref(), graph),
        Factor::Part(part, _) => in_part(part.get(), first, graph),
    }
}

#[cycle(patterns)]
fn in_part(part: &PartTree, first: Option<Fault>, graph: &Graph) -> Option<Fault>
    ensures { result ≡ first_of first (flat_map (unknown_label graph.now) (body_labels (part_given labelling part.now).body)) }
{
    in_union(&part.body, first, graph)
}

#[cycle(patterns)]
fn in_union(union: &Union, first: Option<Fault>, graph: &Graph) -> Option<Fault>
    ensures { result ≡ first_of first (flat_map (unknown_label graph.now) (body_labels (body_given labelling union.now))) }
{
    in_operands(union.operands.as_slice(), first, graph)
}

#[cycle(patterns)]
fn in_operands(operands: &[Sequence], first: Option<Fault>, graph: &Graph) -> Option<Fault>
    ensures { result ≡ first_of first (flat_map (unknown_label graph.now) (flat_map row_labels (map (sequence_given labelling) operands.now))) }
{
    let mut found = first;
    for operand in operands {
        found = in_sequence(operand, found, graph);
    }
    found
}

#[cycle(patterns)]
fn in_sequence(sequence: &Sequence, first: Option<Fault>, graph: &Graph) -> Option<Fault>
    ensures { result ≡ first_of first (flat_map (unknown_label graph.now) (row_labels (sequence_given labelling sequence.now))) }
{
    in_factors(sequence.factors.as_slice(), first, graph)
}

#[cycle(patterns)]
fn in_factors(factors: &[Factor], first: Option<Fault>, graph: &Graph) -> Option<Fault>
    ensures { result ≡ first_of first (flat_map (unknown_label graph.now) (row_labels (map (given_by labelling) factors.now))) }
{
    let mut found = first;
    for factor in factors {
        found = in_factor(factor, found, graph);
    }
    found
}

/// The first of the faults so far and of those at labels that no element of the graph has.
pub fn unknown_labels(first: Option<Fault>, paths: &[PathTree], graph: &Graph) -> Option<Fault>
    ensures { result ≡ first_of first (flat_map (unknown_label graph.now) (flat_map path_labels paths.now)) }
{
    let mut found = first;
    for path in paths {
        found = in_union(&path.body, found, graph);
    }
    found
}
