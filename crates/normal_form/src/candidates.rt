ghost use Rattle.std.specs.Prelude.{◌≡◌, ◌+◌, cond, IfOk};
ghost use Rattle.graph_meaning.specs.Weights.{block_size};
ghost use Rattle.normal_form.specs.Spending.{counted};
ghost use Rattle.normal_form.specs.Candidates.{Ends as BlockEnds, ends_of, same_ends, entry, size_by_ends, HasSizes, candidate_sizes};

use crate::sizes::{size_of_block, sum};
use graph_ast::{CheckedPath, PathBlock};
use pgq_base::NoMemory;
use std::alloc::Global;
use std::collections::HashMap;

/// The first and the last element of a path block, and its number of places.
pub(crate) type Ends = (u32, u32, usize);

/// The sizes of path blocks, by their ends.
pub(crate) type Sizes = HashMap<Ends, u64>;

fn ends_of(block: &PathBlock) -> Ends
    ensures { result ≡ ends_of block.now }
{
    let elements = block.elements.as_slice();
    if elements.is_empty() {
        return (0, 0, 0);
    }
    (elements[0], elements[elements.len() - 1], elements.len())
}

fn size_at(sizes: &Sizes, ends: Ends) -> u64
    ensures { result ≡ entry sizes.now ends }
{
    sizes.get(&ends).copied().unwrap_or(0)
}

fn add(mut sizes: Sizes, ends: Ends, size: u64) -> Result<Sizes, NoMemory>
    ensures { IfOk result (λ more. (q : BlockEnds) → entry more q ≡ cond (same_ends ends q) (counted (entry sizes ends + size)) (entry sizes q)) }
{
    let before = size_at(&sizes, ends);
    sizes.insert(ends, sum(before, size))?;
    Ok(sizes)
}

/// The sizes of path blocks together, by their ends.
pub(crate) fn sizes_by_ends(
    alloc: Global,
    path: &CheckedPath,
    blocks: &[PathBlock],
) -> Result<Sizes, NoMemory>
    ensures { IfOk result (λ sizes. HasSizes path.now blocks.now sizes) }
{
    let mut sizes = HashMap::new(alloc);
    for block in blocks {
        sizes = add(sizes, ends_of(block), size_of_block(path, block))?;
    }
    Ok(sizes)
}

/// The sizes of the path blocks with these ends and fewer places.
pub(crate) fn sizes_of_shorter(
    path: &CheckedPath,
    blocks: &[PathBlock],
    sizes: &Sizes,
    block: &PathBlock,
) -> u64
    requires { HasSizes path.now blocks.now sizes.now }
    ensures { result ≡ counted (candidate_sizes path.now blocks.now block.now) }
{
    let (first, last, count) = ends_of(block);
    let mut total = 0;
    for places in 0..count {
        total = sum(total, size_at(sizes, (first, last, places)));
    }
    total
}
