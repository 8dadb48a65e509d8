ghost use Rattle.std.specs.Prelude.{◌≡◌, ◌++◌, [], map, flat_map, IfOk};
ghost use Rattle.graph_ast.specs.Patterns.{given_by, sequence_given, part_given, body_given};
ghost use Rattle.pattern_check.specs.Scopes.{using, names_in, body_variables};
ghost use Rattle.pattern_check.specs.Variables.{row_variables, variables_if};

use first_faults::Index;
use graph_ast::{Factor, Filler, PartTree, Quantifier, Sequence, Union};
use pgq_base::NoMemory;
use std::alloc::Global;

fn with_variable<'t>(names: Index<'t>, filler: &'t Filler) -> Result<Index<'t>, NoMemory>
    ensures { IfOk result (λ all. all ≡ names.entry ++ names_in filler.entry.now) }
{
    match &filler.variable {
        None => Ok(names),
        Some(variable) => names.with(variable.name.as_bytes()),
    }
}

#[cycle(variables)]
fn with_factor<'t>(factor: &'t Factor, names: Index<'t>) -> Result<Index<'t>, NoMemory>
    ensures { IfOk result (λ all. all ≡ names.entry ++ (given_by using factor.entry.now).variables) }
{
    match factor {
        Factor::Vertex(filler) => with_variable(names, filler),
        Factor::Edge(_, filler, _) => with_variable(names, filler),
        Factor::Part(part, _) => with_part(part.get(), names),
    }
}

#[cycle(variables)]
fn with_part<'t>(part: &'t PartTree, names: Index<'t>) -> Result<Index<'t>, NoMemory>
    ensures { IfOk result (λ all. all ≡ names.entry ++ body_variables (part_given using part.entry.now).body) }
{
    with_union(&part.body, names)
}

#[cycle(variables)]
fn with_union<'t>(union: &'t Union, names: Index<'t>) -> Result<Index<'t>, NoMemory>
    ensures { IfOk result (λ all. all ≡ names.entry ++ body_variables (body_given using union.entry.now)) }
{
    with_operands(union.operands.as_slice(), names)
}

#[cycle(variables)]
#[tactic(auto, using(crate::proofs::ScopeSteps::operand_variables))]
fn with_operands<'t>(operands: &'t [Sequence], names: Index<'t>) -> Result<Index<'t>, NoMemory>
    ensures { IfOk result (λ all. all ≡ names.entry ++ flat_map row_variables (map (sequence_given using) operands.entry.now)) }
{
    let mut names = names;
    for operand in operands {
        names = with_sequence(operand, names)?;
    }
    Ok(names)
}

#[cycle(variables)]
fn with_sequence<'t>(sequence: &'t Sequence, names: Index<'t>) -> Result<Index<'t>, NoMemory>
    ensures { IfOk result (λ all. all ≡ names.entry ++ row_variables (sequence_given using sequence.entry.now)) }
{
    with_factors(sequence.factors.as_slice(), names)
}

#[cycle(variables)]
#[tactic(auto, using(crate::proofs::ScopeSteps::factor_variables))]
fn with_factors<'t>(factors: &'t [Factor], names: Index<'t>) -> Result<Index<'t>, NoMemory>
    ensures { IfOk result (λ all. all ≡ names.entry ++ row_variables (map (given_by using) factors.entry.now)) }
{
    let mut names = names;
    for factor in factors {
        names = with_factor(factor, names)?;
    }
    Ok(names)
}

/// The variables that sequences declare.
pub fn union_variables(alloc: Global, union: &Union) -> Result<Index<'_>, NoMemory>
    ensures { IfOk result (λ names. names ≡ body_variables (body_given using union.entry.now)) }
{
    with_union(union, Index::new(alloc))
}

/// The variables of a part, where it has a quantifier.
pub fn part_variables<'t>(
    alloc: Global,
    part: &'t PartTree,
    quantifier: &Option<Quantifier>,
) -> Result<Option<Index<'t>>, NoMemory>
    ensures { IfOk result (λ names. names ≡ variables_if quantifier.now (body_variables (part_given using part.entry.now).body)) }
{
    match quantifier {
        None => Ok(None),
        Some(_) => {
            let names = with_part(part, Index::new(alloc))?;
            Ok(Some(names))
        }
    }
}

/// The variable of an edge pattern, where it has a quantifier.
pub fn edge_variables<'t>(
    alloc: Global,
    filler: &'t Filler,
    quantifier: &Option<Quantifier>,
) -> Result<Option<Index<'t>>, NoMemory>
    ensures { IfOk result (λ names. names ≡ variables_if quantifier.now (names_in filler.entry.now)) }
{
    match quantifier {
        None => Ok(None),
        Some(_) => {
            let names = with_variable(Index::new(alloc), filler)?;
            Ok(Some(names))
        }
    }
}
