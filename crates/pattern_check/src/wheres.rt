ghost use Rattle.std.specs.Prelude.{◌≡◌, None, map, [], ◌∷◌, ◌++◌, option_copied, option_to_list};
ghost use Rattle.std.specs.List.{flat_map};
ghost use Rattle.graph_ast.specs.declared.query.Item.{Item as ItemTree};
ghost use Rattle.first_faults.specs.Faults.{first_of};
ghost use Rattle.graph_ast.specs.Patterns.{given_by, sequence_given, part_given, body_given};
ghost use Rattle.pattern_check.specs.Scopes.{conditions, row_conditions, body_conditions, part_conditions, path_conditions, wheres};
ghost use Rattle.pattern_check.specs.TypeRules.{leaf_class, where_faults, condition_faults, type_faults};

use crate::types::{first_of_both, judge, not_truth, own_span};
use first_faults::Fault;
use graph_ast::{
    Catalog, Condition, Factor, Graph, Item, PartTree, PathTree, QueryTree, Sequence, Union,
};

#[tactic(auto, using(crate::proofs::Together::first_of_found))]
fn condition_faults(
    first: Option<Fault>,
    condition: &Condition,
    catalog: &Catalog,
    graph: &Graph,
) -> Option<Fault>
    ensures { result ≡ first_of first (condition_faults (leaf_class catalog.now graph.now) condition.now) }
{
    let judged = judge(&condition.tree, condition.spans.as_slice(), catalog, graph);
    first_of_both(first, judged.first)
}

#[tactic(auto, using(crate::proofs::Together::first_of_found, first_faults::proofs::Steps::first_of_append))]
fn where_faults(
    first: Option<Fault>,
    condition: &Condition,
    catalog: &Catalog,
    graph: &Graph,
) -> Option<Fault>
    ensures { result ≡ first_of first (where_faults (leaf_class catalog.now graph.now) condition.now) }
{
    let spans = condition.spans.as_slice();
    let judged = judge(&condition.tree, spans, catalog, graph);
    let found = not_truth(first, judged.class, own_span(spans));
    first_of_both(found, judged.first)
}

fn given_where(
    first: Option<Fault>,
    condition: Option<&Condition>,
    catalog: &Catalog,
    graph: &Graph,
) -> Option<Fault>
    ensures { result ≡ first_of first (flat_map (where_faults (leaf_class catalog.now graph.now)) (option_to_list (option_copied condition.entry))) }
{
    match condition {
        None => first,
        Some(condition) => where_faults(first, condition, catalog, graph),
    }
}

#[cycle(wheres)]
fn in_factor(
    factor: &Factor,
    first: Option<Fault>,
    catalog: &Catalog,
    graph: &Graph,
) -> Option<Fault>
    ensures { result ≡ first_of first (flat_map (where_faults (leaf_class catalog.now graph.now)) (given_by conditions factor.now)) }
{
    match factor {
        Factor::Vertex(filler) => given_where(first, filler.condition.as_ref(), catalog, graph),
        Factor::Edge(_, filler, _) => given_where(first, filler.condition.as_ref(), catalog, graph),
        Factor::Part(part, _) => in_part(part.get(), first, catalog, graph),
    }
}

#[cycle(wheres)]
fn in_part(part: &PartTree, first: Option<Fault>, catalog: &Catalog, graph: &Graph) -> Option<Fault>
    ensures { result ≡ first_of first (flat_map (where_faults (leaf_class catalog.now graph.now)) (part_conditions (part_given conditions part.now))) }
{
    let found = in_union(&part.body, first, catalog, graph);
    given_where(found, part.condition.as_ref(), catalog, graph)
}

#[cycle(wheres)]
fn in_union(union: &Union, first: Option<Fault>, catalog: &Catalog, graph: &Graph) -> Option<Fault>
    ensures { result ≡ first_of first (flat_map (where_faults (leaf_class catalog.now graph.now)) (body_conditions (body_given conditions union.now))) }
{
    in_operands(union.operands.as_slice(), first, catalog, graph)
}

#[cycle(wheres)]
fn in_operands(
    operands: &[Sequence],
    first: Option<Fault>,
    catalog: &Catalog,
    graph: &Graph,
) -> Option<Fault>
    ensures { result ≡ first_of first (flat_map (where_faults (leaf_class catalog.now graph.now)) (flat_map row_conditions (map (sequence_given conditions) operands.now))) }
{
    let mut found = first;
    for operand in operands {
        found = in_sequence(operand, found, catalog, graph);
    }
    found
}

#[cycle(wheres)]
fn in_sequence(
    sequence: &Sequence,
    first: Option<Fault>,
    catalog: &Catalog,
    graph: &Graph,
) -> Option<Fault>
    ensures { result ≡ first_of first (flat_map (where_faults (leaf_class catalog.now graph.now)) (row_conditions (sequence_given conditions sequence.now))) }
{
    in_factors(sequence.factors.as_slice(), first, catalog, graph)
}

#[cycle(wheres)]
fn in_factors(
    factors: &[Factor],
    first: Option<Fault>,
    catalog: &Catalog,
    graph: &Graph,
) -> Option<Fault>
    ensures { result ≡ first_of first (flat_map (where_faults (leaf_class catalog.now graph.now)) (row_conditions (map (given_by conditions) factors.now))) }
{
    let mut found = first;
    for factor in factors {
        found = in_factor(factor, found, catalog, graph);
    }
    found
}

fn in_paths(
    first: Option<Fault>,
    paths: &[PathTree],
    catalog: &Catalog,
    graph: &Graph,
) -> Option<Fault>
    ensures { result ≡ first_of first (flat_map (where_faults (leaf_class catalog.now graph.now)) (flat_map path_conditions paths.now)) }
{
    let mut found = first;
    for path in paths {
        found = in_union(&path.body, found, catalog, graph);
    }
    found
}

fn in_columns(
    first: Option<Fault>,
    columns: &[Item],
    catalog: &Catalog,
    graph: &Graph,
) -> Option<Fault>
    ensures { result ≡ first_of first (flat_map (λ (item : ItemTree). condition_faults (leaf_class catalog.now graph.now) item.value) columns.now) }
{
    let mut found = first;
    for item in columns {
        found = condition_faults(found, &item.value, catalog, graph);
    }
    found
}

#[tactic(auto, using(crate::proofs::PatternSteps::apart), unfolding(crate::specs::Scopes::wheres))]
fn in_wheres(
    first: Option<Fault>,
    tree: &QueryTree,
    catalog: &Catalog,
    graph: &Graph,
) -> Option<Fault>
    ensures { result ≡ first_of first (flat_map (where_faults (leaf_class catalog.now graph.now)) (wheres tree.now)) }
{
    let found = in_paths(first, tree.paths.as_slice(), catalog, graph);
    given_where(found, tree.condition.as_ref(), catalog, graph)
}

/// The first fault of the phase types, for a query over this graph: of operands whose classes differ or which are not of class Truth.
#[tactic(auto, using(first_faults::proofs::Steps::first_of_append), unfolding(crate::specs::TypeRules::type_faults))]
pub fn first_type_fault(catalog: &Catalog, graph: &Graph, tree: &QueryTree) -> Option<Fault>
    ensures { result ≡ first_of None (type_faults catalog.now graph.now tree.now) }
{
    let found = in_wheres(None, tree, catalog, graph);
    in_columns(found, tree.columns.as_slice(), catalog, graph)
}
