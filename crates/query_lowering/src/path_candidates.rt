ghost use Rattle.std.specs.Prelude.{◌≡◌, ◌<◌, IfOk, length, map};
ghost use Rattle.std.specs.List.{AllZip};
ghost use Rattle.multisets.specs.Bags.{IsIn};
ghost use Rattle.pgq_base.specs.Instances.{InstanceRows};
ghost use Rattle.graph_ast.specs.declared.blocks.PathBlock.{PathBlock as APathBlock};
ghost use Rattle.graph_ast.specs.Fits.{Fits};
ghost use Rattle.graph_ast.specs.Lookups.{graph_at};
ghost use Rattle.graph_meaning.specs.Blocks.{path_blocks as path_blocks_of};
ghost use Rattle.graph_meaning.specs.Weights.{path_at};
ghost use Rattle.sql_algebra.specs.declared.tree.Candidate.{Candidate as ACandidate};
ghost use Rattle.sql_algebra.specs.Printable.{IsPrintable};
ghost use Rattle.sql_algebra.specs.Soundness.{IsSound};
ghost use Rattle.shortest_lowering.specs.NoShorter.{IsFormed};
ghost use Rattle.shortest_lowering.specs.PathCandidates.{IsByItself, path_candidate as candidate_of_block, query_of};
ghost use Rattle.shortest_lowering.specs.StandsFor.{StandForPairs};
ghost use Rattle.query_lowering.specs.Translatable.{IsTranslatable};

use crate::names::{outputs_are_named, tables_are_named};
use graph_ast::{Catalog, CheckedPath, CheckedQuery, Graph, PathBlock, empty_tables_fit};
use normal_form::path_blocks;
use pgq_base::{List, NoMemory};
use shortest_lowering::{alone_law, pairs_law, path_candidate};
use sql_algebra::Candidate;
use std::alloc::Global;

fn graph_of(catalog: &Catalog, place: u32) -> &Graph
    requires { place < length catalog.now.graphs }
    ensures { result.now ≡ graph_at catalog.now place }
{
    &catalog.graphs.as_slice()[place as usize]
}

fn path_of(query: &CheckedQuery, place: u32) -> &CheckedPath
    requires { place < length query.now.paths }
    ensures { result.now ≡ path_at query.now place }
{
    &query.paths.as_slice()[place as usize]
}

/// The candidates of some path blocks of a path.
fn candidates_along(
    alloc: Global,
    catalog: &Catalog,
    graph: &Graph,
    path: &CheckedPath,
    blocks: &[PathBlock],
) -> Result<List<Candidate>, NoMemory>
    requires { (part : APathBlock) → IsIn part blocks.now → IsByItself catalog.now graph.now path.now part }
    ensures { IfOk result (λ all. all ≡ map (candidate_of_block catalog.now graph.now path.now) blocks.now) }
{
    let mut all = List::new(alloc);
    for block in blocks {
        all.push(path_candidate(alloc, catalog, graph, path, block)?)?;
    }
    Ok(all)
}

/// The candidate of each path block of a path pattern.
fn candidates_of_path(
    alloc: Global,
    catalog: &Catalog,
    query: &CheckedQuery,
    path: u32,
) -> Result<List<Candidate>, NoMemory>
    requires translatable { IsTranslatable catalog.now query.now }
    requires there { path < length query.now.paths }
    ensures { IfOk result (λ all. all ≡ map (candidate_of_block catalog.now (graph_at catalog.now query.now.graph) (path_at query.now path))
        (path_blocks_of (graph_at catalog.now query.now.graph) path (path_at query.now path))) }
{
    empty_tables_fit();
    let graph = graph_of(catalog, query.graph);
    let own = path_of(query, path);
    let blocks = path_blocks(alloc, catalog, query, path)?;
    candidates_along(alloc, catalog, graph, own, blocks.as_slice())
}

/// The candidates of a path pattern of a query: one for each path block, in their order. Over every instance that fits, the tuples of a
/// candidate's SELECT of which every condition is True stand each for one binding of the path in its mode that lies in the path block, and
/// each of these has exactly one such tuple. As a query of its own the SELECT is sound in the catalog and has a text, and each candidate has
/// the form that `no_shorter` asks for. It fails only for want of memory.
pub fn candidates(
    alloc: Global,
    catalog: &Catalog,
    query: &CheckedQuery,
    path: u32,
) -> Result<List<Candidate>, NoMemory>
    requires translatable { IsTranslatable catalog.now query.now }
    requires there { path < length query.now.paths }
    ensures exact { IfOk result (λ all. all ≡ map (candidate_of_block catalog.now (graph_at catalog.now query.now.graph) (path_at query.now path))
        (path_blocks_of (graph_at catalog.now query.now.graph) path (path_at query.now path))) }
    ensures pairs { IfOk result (λ all. (instance : InstanceRows) → Fits catalog.now instance
        → AllZip (λ part candidate. StandForPairs catalog.now instance (graph_at catalog.now query.now.graph) (path_at query.now path) part candidate.select)
        (path_blocks_of (graph_at catalog.now query.now.graph) path (path_at query.now path)) all) }
    ensures sound { IfOk result (λ all. (candidate : ACandidate) → IsIn candidate all → IsSound (query_of candidate.select) catalog.now) }
    ensures printable { IfOk result (λ all. (candidate : ACandidate) → IsIn candidate all → IsPrintable (query_of candidate.select)) }
    ensures formed { IfOk result (λ all. (candidate : ACandidate) → IsIn candidate all → IsFormed candidate) }
{
    pairs_law();
    alone_law();
    tables_are_named(catalog.tables.as_slice());
    outputs_are_named(query.columns.as_slice());
    candidates_of_path(alloc, catalog, query, path)
}
