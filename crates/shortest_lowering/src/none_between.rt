ghost use Rattle.std.specs.Prelude.{◌≡◌, ◌<◌, not, IfOk, length, map, filter};
ghost use Rattle.std.specs.List.{list_all};
ghost use Rattle.pgq_base.specs.Instances.{InstanceRows};
ghost use Rattle.multisets.specs.Bags.{IsIn};
ghost use Rattle.expr_tree.specs.declared.tree.Comparison.TheVariants.{Equal};
ghost use Rattle.graph_ast.specs.declared.catalog.Catalog.{Catalog};
ghost use Rattle.sql_algebra.specs.declared.tree.Candidate.{Candidate as ACandidate};
ghost use Rattle.sql_algebra.specs.Tuples.{Tuple};
ghost use Rattle.sql_algebra.specs.Meaning.{conjunct_holds};
ghost use Rattle.shortest_lowering.specs.NoShorter.{IsFormed, has_row_between, is_shorter as is_shorter_than, key_equalities as equalities_of_key};
ghost use Rattle.shortest_lowering.specs.NoShorter.{none_between as none_of_these_between, outer_leaf as leaf_outside, select_between as select_with_ends, shorter_candidates as shorter_among};

use crate::candidate::with_conditions;
use crate::copies::{copy_leaf, copy_select};
use expr_tree::{Comparison, Expr};
use path_lowering::{alias_name, comparison};
use pgq_base::{List, NoMemory};
use sql_algebra::{Candidate, ColumnLeaf, Conjunct, Select};
use sqlite_items::Boxed;
use std::alloc::Global;

/// Whether the other candidate is shorter and has the same first and last element.
fn is_shorter(own: &Candidate, other: &Candidate) -> bool
    ensures { result ≡ is_shorter_than own.now other.now }
{
    other.length < own.length && other.first == own.first && other.last == own.last
}

/// The candidates that are shorter than one, with the same first and last element.
fn shorter_candidates<'c>(
    alloc: Global,
    candidates: &'c [Candidate],
    own: &Candidate,
) -> Result<List<&'c Candidate>, NoMemory>
    ensures { IfOk result (λ all. map (λ candidate. candidate.now) all ≡ filter (is_shorter_than own.entry.now) candidates.entry.now) }
{
    let mut all = List::new(alloc);
    for other in candidates {
        if is_shorter(own, other) {
            all.push(other)?;
        }
    }
    Ok(all)
}

/// The column of a leaf in the SELECT around it, under the alias A of a number.
fn outer_leaf(alloc: Global, leaf: &ColumnLeaf, number: u32) -> Result<ColumnLeaf, NoMemory>
    ensures { IfOk result (λ made. made ≡ leaf_outside number leaf.now) }
{
    Ok(ColumnLeaf {
        alias: alias_name(alloc, b'A', number)?,
        column: leaf.column.copy(alloc)?,
        class: leaf.class,
    })
}

/// The leaves of a key equal those of the SELECT around it, leaf by leaf.
fn key_equalities(
    alloc: Global,
    key: &[ColumnLeaf],
    number: u32,
) -> Result<Vec<Expr<ColumnLeaf>>, NoMemory>
    ensures { IfOk result (λ made. made.items ≡ equalities_of_key number key.now) }
{
    let mut made = Vec::new(alloc);
    for leaf in key {
        let own = copy_leaf(alloc, leaf)?;
        let outer = outer_leaf(alloc, leaf, number)?;
        made.push(comparison(alloc, Comparison::Equal, own, outer)?)?;
    }
    Ok(made)
}

/// The SELECT of a candidate, whose ends have the keys of two places of the SELECT around it.
fn select_between(
    alloc: Global,
    candidate: &Candidate,
    first: u32,
    last: u32,
) -> Result<Select, NoMemory>
    requires { IsFormed candidate.now }
    ensures { IfOk result (λ select. select ≡ select_with_ends first last candidate.now) }
{
    let mut ends = key_equalities(alloc, candidate.first_key.as_slice(), first)?;
    let mut more = key_equalities(alloc, candidate.last_key.as_slice(), last)?;
    ends.append(&mut more)?;
    let select = copy_select(alloc, &candidate.select)?;
    with_conditions(select, ends)
}

/// NOT EXISTS of each of some candidates between two places of the SELECT around them.
fn none_between(
    alloc: Global,
    candidates: &[&Candidate],
    first: u32,
    last: u32,
) -> Result<List<Conjunct>, NoMemory>
    requires { (candidate : ACandidate) → IsIn candidate (map (λ c. c.now) candidates.now) → IsFormed candidate }
    ensures { IfOk result (λ all. all ≡ none_of_these_between first last (map (λ c. c.now) candidates.entry.now)) }
{
    let mut all = List::new(alloc);
    for candidate in candidates {
        let select = select_between(alloc, candidate, first, last)?;
        all.push(Conjunct::NotExists(Boxed::new(alloc, select)?))?;
    }
    Ok(all)
}

/// NOT EXISTS of each candidate that is shorter than the one at `own` and has the same first and last element, between
/// the items `A` with the numbers `first` and `last` of the SELECT around it. Over any instance they are all True of a
/// tuple of that SELECT exactly where none of these candidates has a row with the tuple's keys at both ends.
pub fn no_shorter(
    alloc: Global,
    candidates: &[Candidate],
    own: usize,
    first: u32,
    last: u32,
) -> Result<List<Conjunct>, NoMemory>
    requires own { own < length candidates.now }
    requires formed { (candidate : ACandidate) → IsIn candidate candidates.now → IsFormed candidate }
    ensures exact { IfOk result (λ all. all ≡ none_of_these_between first last (shorter_among candidates.now own)) }
    ensures means { IfOk result (λ all. (catalog : Catalog) (instance : InstanceRows) (outer : Tuple)
        → list_all (λ conjunct. conjunct_holds catalog instance conjunct outer) all
        ≡ list_all (λ other. not (has_row_between catalog instance outer first last other)) (shorter_among candidates.now own)) }
{
    let shorter = shorter_candidates(alloc, candidates, &candidates[own])?;
    none_between(alloc, shorter.as_slice(), first, last)
}
