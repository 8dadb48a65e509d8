ghost use Rattle.std.specs.Prelude.{◌≡◌, ◌<◌, [], None, Some, IfOk, length, map, flat_map};
ghost use Rattle.graph_ast.specs.Lookups.{graph_at, graph_place};
ghost use Rattle.first_faults.specs.Faults.{first_of};
ghost use Rattle.pattern_check.specs.Scopes.{Use, declarations, uses};
ghost use Rattle.pattern_check.specs.Mentions.{unplaced, ArePaths};
ghost use Rattle.pattern_check.specs.NameRules.{declaration_faults_behind, variable_faults, unknown_property, graph_faults, faults_by_graph, name_faults};

use crate::columns::column_faults;
use crate::declared::Declared;
use crate::labels::unknown_labels;
use crate::leaf_rules::{Properties, Variables};
use crate::leaves::leaf_faults;
use crate::mentions::{Mention, paths_mentions};
use crate::properties::Shown;
use crate::repeats::{all_declared, declaration_faults};
use crate::unions::unions_faults;
use first_faults::{Fault, note, same_name};
use graph_ast::{Catalog, Graph, QueryTree};
use pgq_base::{Code, List, Name, NoMemory};
use std::alloc::Global;

fn tree_declared<'t>(
    alloc: Global,
    tree: &QueryTree,
    mentions: &[List<List<Mention<'t>>>],
) -> Result<Declared<'t>, NoMemory>
    requires { ArePaths tree.now.paths mentions.now }
    ensures { IfOk result (λ declared. declared ≡ map unplaced (declarations tree.now)) }
{
    all_declared(alloc, mentions)
}

fn tree_repeats<'t>(
    alloc: Global,
    first: Option<Fault>,
    tree: &QueryTree,
    mentions: &[List<List<Mention<'t>>>],
) -> Result<Option<Fault>, NoMemory>
    requires { ArePaths tree.now.paths mentions.now }
    ensures { IfOk result (λ found. found ≡ first_of first (declaration_faults_behind [] (declarations tree.now))) }
{
    declaration_faults(alloc, first, mentions)
}

fn variable_faults(
    alloc: Global,
    first: Option<Fault>,
    tree: &QueryTree,
    declared: &Declared<'_>,
) -> Result<Option<Fault>, NoMemory>
    requires { declared.now ≡ map unplaced (declarations tree.now) }
    ensures { IfOk result (λ found. found ≡ first_of first (flat_map (λ (used : Use). variable_faults (declarations tree.now) used.around used.leaf.variable) (uses tree.now))) }
{
    let rule = Variables { declared };
    leaf_faults::<Variables<'_, '_>>(alloc, first, tree, &rule)
}

fn property_faults(
    alloc: Global,
    first: Option<Fault>,
    tree: &QueryTree,
    declared: &Declared<'_>,
    graph: &Graph,
) -> Result<Option<Fault>, NoMemory>
    requires { declared.now ≡ map unplaced (declarations tree.now) }
    ensures { IfOk result (λ found. found ≡ first_of first (flat_map (λ (used : Use). unknown_property graph.now (declarations tree.now) used.leaf) (uses tree.now))) }
{
    let shown = Shown::new(alloc, graph)?;
    let rule = Properties {
        declared,
        graph: &shown,
    };
    leaf_faults::<Properties<'_, '_, '_>>(alloc, first, tree, &rule)
}

#[tactic(auto, using(first_faults::proofs::Steps::first_of_append))]
fn graph_faults(
    alloc: Global,
    first: Option<Fault>,
    tree: &QueryTree,
    declared: &Declared<'_>,
    graph: &Graph,
) -> Result<Option<Fault>, NoMemory>
    requires { declared.now ≡ map unplaced (declarations tree.now) }
    ensures { IfOk result (λ found. found ≡ first_of first (graph_faults graph.now tree.now)) }
{
    let found = unknown_labels(first, tree.paths.as_slice(), graph);
    property_faults(alloc, found, tree, declared, graph)
}

fn graph_place(catalog: &Catalog, name: &Name) -> Option<usize>
    ensures { result ≡ graph_place catalog.now name.now }
{
    let graphs = catalog.graphs.as_slice();
    graphs.iter().position(|graph| same_name(&graph.name, name))
}

fn graph_at(catalog: &Catalog, place: usize) -> &Graph
    requires { place < length catalog.now.graphs }
    ensures { result.now ≡ graph_at catalog.entry.now place }
{
    &catalog.graphs.as_slice()[place]
}

#[tactic(auto, using(crate::proofs::NamePhase::place_within))]
fn faults_by_graph(
    alloc: Global,
    first: Option<Fault>,
    catalog: &Catalog,
    tree: &QueryTree,
    declared: &Declared<'_>,
) -> Result<Option<Fault>, NoMemory>
    requires { declared.now ≡ map unplaced (declarations tree.now) }
    ensures { IfOk result (λ found. found ≡ first_of first (faults_by_graph catalog.now tree.now (graph_place catalog.now tree.now.graph.name))) }
{
    match graph_place(catalog, &tree.graph.name) {
        None => Ok(note(first, true, Code::UnknownGraph, tree.graph.span)),
        Some(place) => graph_faults(alloc, first, tree, declared, graph_at(catalog, place)),
    }
}

/// The first fault of the phase names: of names that nothing has, that stand for two things, or that stand where they are out of
/// reach.
#[tactic(auto, using(first_faults::proofs::Steps::first_of_append), unfolding(crate::specs::NameRules::name_faults))]
pub fn first_name_fault(
    alloc: Global,
    catalog: &Catalog,
    tree: &QueryTree,
) -> Result<Option<Fault>, NoMemory>
    ensures { IfOk result (λ found. found ≡ first_of None (name_faults catalog.now tree.now)) }
{
    let mentions = paths_mentions(alloc, tree.paths.as_slice())?;
    let declared = tree_declared(alloc, tree, mentions.as_slice())?;
    let found = faults_by_graph(alloc, None, catalog, tree, &declared)?;
    let found = variable_faults(alloc, found, tree, &declared)?;
    let found = tree_repeats(alloc, found, tree, mentions.as_slice())?;
    let found = unions_faults(alloc, found, tree.paths.as_slice())?;
    column_faults(alloc, found, tree.columns.as_slice())
}
