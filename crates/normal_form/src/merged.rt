ghost use Rattle.std.specs.Prelude.{◌≡◌, ◌<◌, ◌∷◌, [], length, map, IfOk, bytes_eq};
ghost use Rattle.std.specs.List.{fold, position_or_len};
ghost use Rattle.std.specs.Cmp.Lexicographic.{pointwise};
ghost use Rattle.graph_meaning.specs.Bindings.{same_tags};
ghost use Rattle.normal_form.specs.Merged.{with_finding, put_at};
ghost use Rattle.normal_form.specs.Kept.{IsKept, IsWord};

use crate::copies::{copy_choice, copy_numbers, copy_tags};
use graph_ast::{Alternative, PathBlock, Tags};
use indexmap::IndexSet;
use pgq_base::{List, Name, NoMemory};
use std::alloc::Global;

fn same_names(first: &[Name], second: &[Name]) -> bool
    ensures { result ≡ pointwise bytes_eq first.now second.now }
{
    if first.len() != second.len() {
        return false;
    }
    for i in 0..first.len() {
        if first[i].as_bytes() != second[i].as_bytes() {
            return false;
        }
    }
    true
}

fn same_tags(first: &[Tags], second: &[Tags]) -> bool
    ensures { result ≡ same_tags first.now second.now }
{
    if first.len() != second.len() {
        return false;
    }
    for i in 0..first.len() {
        if !same_names(first[i].names.as_slice(), second[i].names.as_slice()) {
            return false;
        }
    }
    true
}

/// The place of the first of the tags that are these, and their number where none is.
fn place_of(words: &[List<Tags>], tags: &[Tags]) -> usize
    ensures { result ≡ position_or_len (same_tags tags.now) words.now }
{
    for i in 0..words.len() {
        if same_tags(tags, words[i].as_slice()) {
            return i;
        }
    }
    words.len()
}

fn key(alloc: Global, word: usize, elements: &[u32]) -> Result<Vec<usize>, NoMemory>
    ensures { IfOk result (λ key. key.items ≡ word ∷ elements.now) }
{
    let mut key = Vec::new(alloc);
    key.push(word)?;
    for element in elements {
        key.push(*element as usize)?;
    }
    Ok(key)
}

/// A path block with one alternative.
fn block_with(
    alloc: Global,
    path: u32,
    tags: &[Tags],
    elements: &[u32],
    choice: Alternative,
) -> Result<PathBlock, NoMemory>
    ensures { IfOk result (λ block. block ≡ record { path = path; tags = tags.now; elements = elements.now; alternatives = choice ∷ [] }) }
{
    let mut alternatives = List::new(alloc);
    alternatives.push(choice)?;
    Ok(PathBlock {
        path,
        tags: copy_tags(alloc, tags)?,
        elements: copy_numbers(alloc, elements)?,
        alternatives,
    })
}

/// Puts a choice behind those of the block at a place.
fn put_at(
    mut blocks: Vec<PathBlock>,
    place: usize,
    choice: Alternative,
) -> Result<Vec<PathBlock>, NoMemory>
    requires { place < length blocks.items }
    ensures { IfOk result (λ all. all.items ≡ put_at blocks.items place choice) }
{
    blocks[place].alternatives.push(choice)?;
    Ok(blocks)
}

/// Path blocks in the order of their first alternatives. They are found by their keys: the place of a
/// block's tags among the tags that were met, and the block's elements.
#[derive(Drop)]
pub(crate) struct Merged {
    words: List<List<Tags>>,
    keys: IndexSet<Vec<usize>>,
    blocks: Vec<PathBlock>,
}

impl Merged {
    pub(crate) fn new(alloc: Global) -> Merged
        ensures kept { IsKept result }
        ensures none { result.blocks.items ≡ [] }
    {
        Merged {
            words: List::new(alloc),
            keys: IndexSet::new(alloc),
            blocks: Vec::new(alloc),
        }
    }

    /// Notes tags that were not met before. The place of the tags is given too.
    fn with_word(mut self, alloc: Global, tags: &[Tags]) -> Result<(Merged, usize), NoMemory>
        requires { IsKept self }
        ensures kept { IfOk result (λ all. IsKept all.0) }
        ensures blocks { IfOk result (λ all. all.0.blocks.items ≡ self.blocks.items) }
        ensures word { IfOk result (λ all. IsWord all.0.words tags.now all.1) }
    {
        let place = place_of(self.words.as_slice(), tags);
        if place < self.words.as_slice().len() {
            return Ok((self, place));
        }
        self.words.push(copy_tags(alloc, tags)?)?;
        Ok((self, place))
    }

    /// Puts a choice behind those of the block of a shape, or into a new block.
    fn put(
        mut self,
        alloc: Global,
        path: u32,
        word: usize,
        tags: &[Tags],
        elements: &[u32],
        choice: &Alternative,
    ) -> Result<Merged, NoMemory>
        requires kept { IsKept self }
        requires word { IsWord self.words tags.now word }
        ensures kept { IfOk result (λ more. IsKept more) }
        ensures words { IfOk result (λ more. more.words ≡ self.words) }
        ensures blocks { IfOk result (λ more. more.blocks.items ≡ with_finding path self.blocks.items ((tags.now, elements.now), choice.now)) }
    {
        let (place, added) = self.keys.insert_full(key(alloc, word, elements)?)?;
        let copy = copy_choice(alloc, choice)?;
        if added {
            self.blocks
                .push(block_with(alloc, path, tags, elements, copy)?)?;
            return Ok(self);
        }
        self.blocks = put_at(self.blocks, place, copy)?;
        Ok(self)
    }

    /// Puts a choice into the block of each of its assignments.
    pub(crate) fn put_all(
        self,
        alloc: Global,
        path: u32,
        tags: &[Tags],
        assignments: &[List<u32>],
        choice: &Alternative,
    ) -> Result<Merged, NoMemory>
        requires { IsKept self }
        ensures kept { IfOk result (λ more. IsKept more) }
        ensures blocks { IfOk result (λ more. more.blocks.items ≡ fold (with_finding path) self.blocks.items (map (λ assignment. ((tags.now, assignment), choice.now)) assignments.now)) }
    {
        if assignments.is_empty() {
            return Ok(self);
        }
        let (mut merged, word) = self.with_word(alloc, tags)?;
        for elements in assignments {
            merged = merged.put(alloc, path, word, tags, elements.as_slice(), choice)?;
        }
        Ok(merged)
    }

    /// The blocks.
    pub(crate) fn into_blocks(self) -> List<PathBlock>
        ensures { result ≡ self.blocks.items }
    {
        List::from_vec(self.blocks)
    }
}
