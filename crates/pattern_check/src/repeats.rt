ghost use Rattle.std.specs.Prelude.{◌≡◌, ◌++◌, ◌∷◌, [], IfOk, map, flat_map};
ghost use Rattle.first_faults.specs.Faults.{first_of};
ghost use Rattle.pattern_check.specs.Mentions.{said, row_said, rows_said};
ghost use Rattle.pattern_check.specs.Repeats.{mention_faults, operand_faults, path_faults, said_faults};

use crate::declared::Declared;
use crate::mentions::Mention;
use first_faults::{Fault, note};
use pgq_base::{Code, List, NoMemory};
use std::alloc::Global;

// At a declaration, behind those of earlier path patterns, of earlier operands of its own, and of its operand.
fn mention_faults(
    first: Option<Fault>,
    settled: &Declared<'_>,
    others: &Declared<'_>,
    here: &Declared<'_>,
    m: &Mention<'_>,
) -> Option<Fault>
    ensures { result ≡ first_of first (mention_faults settled.now others.now here.now (said m.now)) }
{
    let other_kind = settled.has_other_kind(m)
        || others.has_other_kind(m)
        || here.has_other_kind(m);
    let again = settled.has_same_kind(m) || here.has_same_kind(m);
    let span = m.variable.span;
    let found = note(first, other_kind, Code::VariableKind, span);
    note(found, again, Code::VariableRepeated, span)
}

#[tactic(auto, using(crate::proofs::RepeatSteps::operand_step))]
fn operand_faults<'t>(
    alloc: Global,
    first: Option<Fault>,
    settled: &Declared<'t>,
    others: &Declared<'t>,
    operand: &[Mention<'t>],
) -> Result<Option<Fault>, NoMemory>
    ensures { IfOk result (λ found. found ≡ first_of first (operand_faults settled.now others.now [] (map said operand.now))) }
{
    let mut found = first;
    let mut here = Declared::new(alloc);
    for m in operand {
        found = mention_faults(found, settled, others, &here, m);
        here = here.with(*m)?;
    }
    Ok(found)
}

#[tactic(auto, using(crate::proofs::RepeatSteps::said_more))]
fn with_all<'t>(all: Declared<'t>, operand: &[Mention<'t>]) -> Result<Declared<'t>, NoMemory>
    ensures { IfOk result (λ more. more ≡ all.entry ++ map said operand.now) }
{
    let mut all = all;
    for m in operand {
        all = all.with(*m)?;
    }
    Ok(all)
}

/// The declarations of an operand, which are found by their variables.
pub fn row_declared<'t>(alloc: Global, operand: &[Mention<'t>]) -> Result<Declared<'t>, NoMemory>
    ensures { IfOk result (λ all. all ≡ row_said operand.now) }
{
    with_all(Declared::new(alloc), operand)
}

#[tactic(auto, using(first_faults::proofs::Steps::append_step))]
fn with_operands<'t>(
    all: Declared<'t>,
    operands: &[List<Mention<'t>>],
) -> Result<Declared<'t>, NoMemory>
    ensures { IfOk result (λ more. more ≡ all.entry ++ flat_map row_said operands.now) }
{
    let mut all = all;
    for operand in operands {
        all = with_all(all, operand.as_slice())?;
    }
    Ok(all)
}

#[tactic(auto, using(crate::proofs::RepeatSteps::path_step))]
fn path_faults<'t>(
    alloc: Global,
    first: Option<Fault>,
    settled: &Declared<'t>,
    operands: &[List<Mention<'t>>],
) -> Result<Option<Fault>, NoMemory>
    ensures { IfOk result (λ found. found ≡ first_of first (path_faults settled.now [] (map row_said operands.now))) }
{
    let mut found = first;
    let mut others = Declared::new(alloc);
    for operand in operands {
        found = operand_faults(alloc, found, settled, &others, operand.as_slice())?;
        others = with_all(others, operand.as_slice())?;
    }
    Ok(found)
}

/// The first of the faults so far and of those at variables that are declared again: with the other kind, or where one of the two is
/// quantified.
#[tactic(auto, using(crate::proofs::RepeatSteps::paths_step))]
pub fn declaration_faults<'t>(
    alloc: Global,
    first: Option<Fault>,
    paths: &[List<List<Mention<'t>>>],
) -> Result<Option<Fault>, NoMemory>
    ensures { IfOk result (λ found. found ≡ first_of first (said_faults [] (map rows_said paths.now))) }
{
    let mut found = first;
    let mut settled = Declared::new(alloc);
    for path in paths {
        found = path_faults(alloc, found, &settled, path.as_slice())?;
        settled = with_operands(settled, path.as_slice())?;
    }
    Ok(found)
}

/// All declarations of the path patterns.
#[tactic(auto, using(first_faults::proofs::Steps::append_step))]
pub fn all_declared<'t>(
    alloc: Global,
    paths: &[List<List<Mention<'t>>>],
) -> Result<Declared<'t>, NoMemory>
    ensures { IfOk result (λ all. all ≡ flat_map (flat_map row_said) paths.now) }
{
    let mut all = Declared::new(alloc);
    for path in paths {
        all = with_operands(all, path.as_slice())?;
    }
    Ok(all)
}
