ghost use Rattle.std.specs.Prelude.{◌≡◌, ◌<◌, ◌++◌, [], ◌∷◌, false, flat_map, IfOk, option_copied};
ghost use Rattle.graph_ast.specs.declared.checked.Piece.TheVariants as piece;
ghost use Rattle.pattern_check.specs.SizeRules.{is_too_large, large_quantifier};
ghost use Rattle.pattern_check.specs.Checked.{pieces_of, lower_bound, upper_bound, quantified, pattern_for, conditions_for, element};
ghost use Rattle.pattern_check.specs.Splicing.{behind};

use crate::conditions::checked_condition;
use crate::copies::{copy_label, copy_variable};
use graph_ast::{
    Catalog, Condition, Direction, Filler, Graph, Operand, Pattern, Piece, Quantifier,
    QuantifierKind, Step,
};
use pgq_base::{List, NoMemory};
use std::alloc::Global;

/// No steps and no conditions.
pub(crate) fn nothing(alloc: Global) -> Operand
    ensures { result ≡ record { steps = []; conditions = [] } }
{
    Operand {
        steps: List::new(alloc),
        conditions: List::new(alloc),
    }
}

fn lower_bound(kind: QuantifierKind) -> u32
    requires { is_too_large kind ≡ false }
    ensures { result ≡ lower_bound kind }
{
    match kind {
        QuantifierKind::Between(lower, _) => lower as u32,
        QuantifierKind::AtLeast(lower) => lower as u32,
        QuantifierKind::Optional => 0,
    }
}

fn upper_bound(kind: QuantifierKind) -> u32
    requires { is_too_large kind ≡ false }
    ensures { result ≡ upper_bound kind }
{
    match kind {
        QuantifierKind::Between(_, upper) => upper as u32,
        QuantifierKind::AtLeast(lower) => lower as u32,
        QuantifierKind::Optional => 1,
    }
}

fn pattern_for(alloc: Global, filler: &Filler) -> Result<Pattern, NoMemory>
    ensures { IfOk result (λ made. made ≡ pattern_for filler.now) }
{
    let variable = copy_variable(alloc, filler.variable.as_ref())?;
    let label = copy_label(alloc, filler.label.as_ref())?;
    Ok(Pattern { variable, label })
}

fn add_step(done: Operand, step: Step) -> Result<Operand, NoMemory>
    ensures { IfOk result (λ made. made ≡ record { steps = done.steps ++ step ∷ []; conditions = done.conditions }) }
{
    let Operand {
        mut steps,
        conditions,
    } = done;
    steps.push(step)?;
    Ok(Operand { steps, conditions })
}

/// Adds the condition of an element pattern or of a part, where there is one.
pub(crate) fn add_condition(
    alloc: Global,
    catalog: &Catalog,
    graph: &Graph,
    condition: Option<&Condition>,
    done: Operand,
) -> Result<Operand, NoMemory>
    ensures { IfOk result (λ made. made ≡ record { steps = done.steps; conditions = done.conditions ++ conditions_for catalog.now graph.now (option_copied condition.entry) }) }
{
    match condition {
        None => Ok(done),
        Some(condition) => {
            let Operand {
                steps,
                mut conditions,
            } = done;
            conditions.push(checked_condition(alloc, catalog, graph, condition)?)?;
            Ok(Operand { steps, conditions })
        }
    }
}

fn add_element(
    alloc: Global,
    catalog: &Catalog,
    graph: &Graph,
    piece: Piece,
    filler: &Filler,
    done: Operand,
) -> Result<Operand, NoMemory>
    ensures { IfOk result (λ made. made ≡ behind done (element catalog.now graph.now piece filler.now)) }
{
    let done = add_step(done, Step::One(piece))?;
    add_condition(alloc, catalog, graph, filler.condition.as_ref(), done)
}

/// Adds a vertex pattern.
pub(crate) fn add_vertex(
    alloc: Global,
    catalog: &Catalog,
    graph: &Graph,
    filler: &Filler,
    done: Operand,
) -> Result<Operand, NoMemory>
    ensures { IfOk result (λ made. made ≡ behind done (element catalog.now graph.now (piece.Vertex (pattern_for filler.now)) filler.now)) }
{
    let piece = Piece::Vertex(pattern_for(alloc, filler)?);
    add_element(alloc, catalog, graph, piece, filler, done)
}

fn add_all(all: List<Piece>, pieces: List<Piece>) -> Result<List<Piece>, NoMemory>
    ensures { IfOk result (λ more. more ≡ all ++ pieces) }
{
    let mut all = all;
    for piece in pieces.into_vec() {
        all.push(piece)?;
    }
    Ok(all)
}

fn add_pieces(all: List<Piece>, step: Step) -> Result<List<Piece>, NoMemory>
    ensures { IfOk result (λ more. more ≡ all ++ pieces_of step) }
{
    match step {
        Step::One(piece) => {
            let mut all = all;
            all.push(piece)?;
            Ok(all)
        }
        Step::Part { pieces, .. } => add_all(all, pieces),
    }
}

fn pieces_of(alloc: Global, steps: List<Step>) -> Result<List<Piece>, NoMemory>
    ensures { IfOk result (λ all. all ≡ flat_map pieces_of steps) }
{
    let mut all = List::new(alloc);
    for step in steps.into_vec() {
        all = add_pieces(all, step)?;
    }
    Ok(all)
}

/// Adds the part that a quantifier makes of what it stands behind.
pub(crate) fn add_quantified(
    alloc: Global,
    quantifier: &Quantifier,
    inside: Operand,
    done: Operand,
) -> Result<Operand, NoMemory>
    requires { large_quantifier (Some quantifier.now) ≡ [] }
    ensures { IfOk result (λ made. made ≡ behind done (quantified (Some quantifier.now) inside)) }
{
    let lower = lower_bound(quantifier.kind);
    let upper = upper_bound(quantifier.kind);
    let Operand { steps, conditions } = inside;
    let pieces = pieces_of(alloc, steps)?;
    add_step(
        done,
        Step::Part {
            lower,
            upper,
            pieces,
            conditions,
        },
    )
}

/// Adds an edge pattern, as a part where it has a quantifier.
pub(crate) fn add_edge(
    alloc: Global,
    catalog: &Catalog,
    graph: &Graph,
    direction: Direction,
    filler: &Filler,
    quantifier: Option<&Quantifier>,
    done: Operand,
) -> Result<Operand, NoMemory>
    requires { large_quantifier (option_copied quantifier) ≡ [] }
    ensures { IfOk result (λ made. made ≡ behind done (quantified (option_copied quantifier.entry) (element catalog.now graph.now (piece.Edge direction (pattern_for filler.now)) filler.now))) }
{
    let piece = Piece::Edge(direction, pattern_for(alloc, filler)?);
    match quantifier {
        None => add_element(alloc, catalog, graph, piece, filler, done),
        Some(quantifier) => {
            let inside = add_element(alloc, catalog, graph, piece, filler, nothing(alloc))?;
            add_quantified(alloc, quantifier, inside, done)
        }
    }
}
