ghost use Rattle.std.specs.Prelude.{◌≡◌, ◌++◌, [], ◌∷◌, map, flat_map, IfOk, option_copied};
ghost use Rattle.graph_ast.specs.Patterns.{given_by, sequence_given, part_given, body_given};
ghost use Rattle.pattern_check.specs.SizeRules.{large, joined, inner_faults};
ghost use Rattle.pattern_check.specs.Checked.{splice, splicing, body_spliced, part_spliced};
ghost use Rattle.pattern_check.specs.Splicing.{behind};

use crate::pieces::{add_condition, add_edge, add_quantified, add_vertex, nothing};
use graph_ast::{Catalog, Factor, Graph, Operand, PartTree, Sequence, Union};
use pgq_base::{List, NoMemory};
use std::alloc::Global;

// Adds what a factor gives.
#[cycle(splicing)]
fn add_factor(
    alloc: Global,
    factor: &Factor,
    catalog: &Catalog,
    graph: &Graph,
    done: Operand,
) -> Result<Operand, NoMemory>
    requires { given_by large factor.now ≡ [] }
    ensures { IfOk result (λ made. made ≡ behind done (given_by (splicing catalog.now graph.now) factor.now)) }
{
    match factor {
        Factor::Vertex(filler) => add_vertex(alloc, catalog, graph, filler, done),
        Factor::Edge(direction, filler, quantifier) => add_edge(
            alloc,
            catalog,
            graph,
            *direction,
            filler,
            quantifier.as_ref(),
            done,
        ),
        Factor::Part(part, None) => add_part(alloc, part.get(), catalog, graph, done),
        Factor::Part(part, Some(quantifier)) => {
            let inside = add_part(alloc, part.get(), catalog, graph, nothing(alloc))?;
            add_quantified(alloc, quantifier, inside, done)
        }
    }
}

#[cycle(splicing)]
fn add_part(
    alloc: Global,
    part: &PartTree,
    catalog: &Catalog,
    graph: &Graph,
    done: Operand,
) -> Result<Operand, NoMemory>
    requires { inner_faults (part_given large part.now).body ≡ [] }
    ensures { IfOk result (λ made. made ≡ behind done (part_spliced catalog.now graph.now (part_given (splicing catalog.now graph.now) part.now))) }
{
    let done = add_union(alloc, &part.body, catalog, graph, done)?;
    add_condition(alloc, catalog, graph, part.condition.as_ref(), done)
}

#[cycle(splicing)]
fn add_union(
    alloc: Global,
    union: &Union,
    catalog: &Catalog,
    graph: &Graph,
    done: Operand,
) -> Result<Operand, NoMemory>
    requires { inner_faults (body_given large union.now) ≡ [] }
    ensures { IfOk result (λ made. made ≡ behind done (body_spliced (body_given (splicing catalog.now graph.now) union.now))) }
{
    add_operands(alloc, union.operands.as_slice(), catalog, graph, done)
}

#[cycle(splicing)]
fn add_operands(
    alloc: Global,
    operands: &[Sequence],
    catalog: &Catalog,
    graph: &Graph,
    done: Operand,
) -> Result<Operand, NoMemory>
    requires { flat_map joined (map (sequence_given large) operands.now) ≡ [] }
    ensures { IfOk result (λ made. made ≡ behind done (splice (flat_map (λ operand. operand) (map (sequence_given (splicing catalog.now graph.now)) operands.now)))) }
{
    let mut done = done;
    for operand in operands {
        done = add_sequence(alloc, operand, catalog, graph, done)?;
    }
    Ok(done)
}

#[cycle(splicing)]
fn add_sequence(
    alloc: Global,
    sequence: &Sequence,
    catalog: &Catalog,
    graph: &Graph,
    done: Operand,
) -> Result<Operand, NoMemory>
    requires { joined (sequence_given large sequence.now) ≡ [] }
    ensures { IfOk result (λ made. made ≡ behind done (splice (sequence_given (splicing catalog.now graph.now) sequence.now))) }
{
    add_factors(alloc, sequence.factors.as_slice(), catalog, graph, done)
}

#[cycle(splicing)]
fn add_factors(
    alloc: Global,
    factors: &[Factor],
    catalog: &Catalog,
    graph: &Graph,
    done: Operand,
) -> Result<Operand, NoMemory>
    requires { joined (map (given_by large) factors.now) ≡ [] }
    ensures { IfOk result (λ made. made ≡ behind done (splice (map (given_by (splicing catalog.now graph.now)) factors.now))) }
{
    let mut done = done;
    for factor in factors {
        done = add_factor(alloc, factor, catalog, graph, done)?;
    }
    Ok(done)
}

fn operands_of(
    alloc: Global,
    operands: &[Sequence],
    catalog: &Catalog,
    graph: &Graph,
) -> Result<List<Operand>, NoMemory>
    requires { flat_map joined (map (sequence_given large) operands.now) ≡ [] }
    ensures { IfOk result (λ made. made ≡ map splice (map (sequence_given (splicing catalog.now graph.now)) operands.now)) }
{
    let mut made = List::new(alloc);
    for operand in operands {
        made.push(add_sequence(alloc, operand, catalog, graph, nothing(alloc))?)?;
    }
    Ok(made)
}

/// The operands of a path pattern.
pub(crate) fn operands_in(
    alloc: Global,
    union: &Union,
    catalog: &Catalog,
    graph: &Graph,
) -> Result<List<Operand>, NoMemory>
    requires { inner_faults (body_given large union.now) ≡ [] }
    ensures { IfOk result (λ made. made ≡ map splice (body_given (splicing catalog.now graph.now) union.now).operands) }
{
    operands_of(alloc, union.operands.as_slice(), catalog, graph)
}
