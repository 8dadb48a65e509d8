ghost use Rattle.std.specs.Prelude.{◌≡◌, IfOk};

use graph_ast::{Alternative, PathBlock, Tags};
use pgq_base::{List, Name, NoMemory};
use std::alloc::Global;

pub(crate) fn copy_numbers(alloc: Global, numbers: &[u32]) -> Result<List<u32>, NoMemory>
    ensures { IfOk result (λ all. all ≡ numbers.now) }
{
    let mut all = List::new(alloc);
    all.extend(numbers)?;
    Ok(all)
}

fn copy_names(alloc: Global, names: &[Name]) -> Result<List<Name>, NoMemory>
    ensures { IfOk result (λ all. all ≡ names.now) }
{
    let mut all = List::new(alloc);
    for name in names {
        all.push(name.copy(alloc)?)?;
    }
    Ok(all)
}

pub(crate) fn copy_tags(alloc: Global, tags: &[Tags]) -> Result<List<Tags>, NoMemory>
    ensures { IfOk result (λ all. all ≡ tags.now) }
{
    let mut all = List::new(alloc);
    for at in tags {
        all.push(Tags {
            names: copy_names(alloc, at.names.as_slice())?,
        })?;
    }
    Ok(all)
}

pub(crate) fn copy_choice(alloc: Global, choice: &Alternative) -> Result<Alternative, NoMemory>
    ensures { IfOk result (λ copy. copy ≡ choice.now) }
{
    Ok(Alternative {
        operand: choice.operand,
        counts: copy_numbers(alloc, choice.counts.as_slice())?,
    })
}

fn copy_choices(alloc: Global, choices: &[Alternative]) -> Result<List<Alternative>, NoMemory>
    ensures { IfOk result (λ all. all ≡ choices.now) }
{
    let mut all = List::new(alloc);
    for choice in choices {
        all.push(copy_choice(alloc, choice)?)?;
    }
    Ok(all)
}

pub(crate) fn copy_block(alloc: Global, block: &PathBlock) -> Result<PathBlock, NoMemory>
    ensures { IfOk result (λ copy. copy ≡ block.now) }
{
    Ok(PathBlock {
        path: block.path,
        tags: copy_tags(alloc, block.tags.as_slice())?,
        elements: copy_numbers(alloc, block.elements.as_slice())?,
        alternatives: copy_choices(alloc, block.alternatives.as_slice())?,
    })
}
