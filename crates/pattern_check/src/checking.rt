ghost use Rattle.std.specs.Prelude.{◌≡◌, ℕ, ◌<◌, ◌^◌, None, Some, nat_lt, length, IfOk};
ghost use Rattle.std.specs.List.{AllByRecursion};
ghost use Rattle.pgq_base.specs.Answers.{Gives};
ghost use Rattle.pgq_base.specs.declared.code.Code.TheVariants.{LoweringTooLarge};
ghost use Rattle.pgq_base.specs.declared.refusal.Stop.TheVariants.{Refused};
ghost use Rattle.graph_ast.specs.Catalogs.{IsValidCatalog};
ghost use Rattle.graph_ast.specs.Lookups.{graph_at, graph_place};
ghost use Rattle.graph_meaning.specs.Weights.{weight};
ghost use Rattle.first_faults.specs.Faults.{first_of, when};
ghost use Rattle.pattern_check.specs.Checked.{with_weight};
ghost use Rattle.normal_form.specs.Checked.{AreNumbered};
ghost use Rattle.graph_ast.specs.Patterns.{IsJoined};
ghost use Rattle.graph_ast.specs.QuerySpans.{EachSpanHas};
ghost use Rattle.pgq_base.specs.Spans.{LiesIn};
ghost use Rattle.pattern_check.specs.FaultPlaces.{StopLiesIn};
ghost use Rattle.pattern_check.specs.Lowerable.{IsPlain, IsLowerable};
ghost use Rattle.pattern_check.specs.Checks.{early_fault, later_fault, refusal_of, judged, due};

use crate::checked::unweighed;
use crate::forms::first_form_fault;
use crate::names::first_name_fault;
use crate::sizes::first_size_fault;
use crate::wheres::first_type_fault;
use first_faults::Fault;
use graph_ast::{Catalog, CheckedQuery, Graph, QueryTree};
use normal_form::weight_of;
use pgq_base::{Code, Detail, NoMemory, Refusal, Role, Stop};
use std::alloc::Global;

fn refused(fault: Fault) -> Stop
    ensures { result ≡ Refused (refusal_of fault) }
{
    Stop::Refused(Refusal {
        role: Role::Query,
        span: fault.span,
        code: fault.code,
        detail: Detail::Nothing,
    })
}

// The first fault of forms and names.
fn early_fault(
    alloc: Global,
    catalog: &Catalog,
    tree: &QueryTree,
) -> Result<Option<Fault>, NoMemory>
    ensures { IfOk result (λ found. found ≡ early_fault catalog.now tree.now) }
{
    match first_form_fault(tree) {
        Some(fault) => Ok(Some(fault)),
        None => first_name_fault(alloc, catalog, tree),
    }
}

// The first fault of types and limits.
fn later_fault(catalog: &Catalog, graph: &Graph, tree: &QueryTree) -> Option<Fault>
    ensures { result ≡ later_fault catalog.now graph.now tree.now }
{
    match first_type_fault(catalog, graph, tree) {
        Some(fault) => Some(fault),
        None => first_size_fault(tree),
    }
}

// The place of the graph of a query without faults of names.
#[tactic(auto, using(crate::proofs::Judging::place_is_some, crate::proofs::Judging::place_is_within))]
fn place_of(catalog: &Catalog, tree: &QueryTree) -> u32
    requires few { length catalog.now.graphs < 2 ^ 32 }
    requires early { early_fault catalog.now tree.now ≡ None }
    ensures place { graph_place catalog.now tree.now.graph.name ≡ Some result }
    ensures within { result < length catalog.now.graphs }
{
    catalog.graph(&tree.graph.name).unwrap()
}

fn graph_at(catalog: &Catalog, place: u32) -> &Graph
    requires { place < length catalog.now.graphs }
    ensures { result.now ≡ graph_at catalog.now place }
{
    &catalog.graphs.as_slice()[place as usize]
}

fn with_weight(query: CheckedQuery, weight: u64) -> CheckedQuery
    ensures { result ≡ with_weight weight query }
{
    CheckedQuery {
        graph: query.graph,
        paths: query.paths,
        condition: query.condition,
        columns: query.columns,
        weight,
    }
}

// The query with its weight, or the refusal of one that is too heavy.
fn weighed(
    alloc: Global,
    catalog: &Catalog,
    tree: &QueryTree,
    query: CheckedQuery,
) -> Result<CheckedQuery, Stop>
    requires { AreNumbered catalog.now query }
    ensures { Gives (judged (first_of None (when (nat_lt 1000000 (weight catalog.now query)) LoweringTooLarge tree.now.match_span)) (with_weight (weight catalog.now query) query)) result }
{
    match weight_of(alloc, catalog, &query)? {
        Some(weight) => Ok(with_weight(query, weight)),
        None => Err(refused(Fault {
            code: Code::LoweringTooLarge,
            span: tree.match_span,
        })),
    }
}

fn judge(alloc: Global, catalog: &Catalog, tree: &QueryTree) -> Result<CheckedQuery, Stop>
    requires valid { IsValidCatalog catalog.now }
    requires joined { AllByRecursion IsJoined tree.now.paths }
    ensures answer { Gives (due catalog.now tree.now) result }
    ensures lowerable { IsPlain tree.now → IfOk result (λ query. IsLowerable catalog.now query) }
{
    if let Some(fault) = early_fault(alloc, catalog, tree)? {
        return Err(refused(fault));
    }
    let place = place_of(catalog, tree);
    if let Some(fault) = later_fault(catalog, graph_at(catalog, place), tree) {
        return Err(refused(fault));
    }
    let query = unweighed(alloc, catalog, place, tree)?;
    weighed(alloc, catalog, tree, query)
}

/// The checked query that a tree stands for over a catalog, with its weight.
///
/// It is refused exactly where its rules give a fault: with the first fault, by place and then by code, of the
/// first of the phases forms, names, types, limits and weight that has one. Want of memory may be answered at
/// any time. The span of a refusal lies in the text in which the spans of the tree lie. The rules, their codes
/// and their limits are this project's own.
pub fn check_query(alloc: Global, catalog: &Catalog, tree: &QueryTree) -> Result<CheckedQuery, Stop>
    requires valid { IsValidCatalog catalog.now }
    requires joined { AllByRecursion IsJoined tree.now.paths }
    ensures answer { Gives (due catalog.now tree.now) result }
    ensures lowerable { IsPlain tree.now → IfOk result (λ query. IsLowerable catalog.now query) }
    ensures in_text { (end : ℕ) → EachSpanHas (LiesIn end) tree.now → StopLiesIn end result }
{
    judge(alloc, catalog, tree)
}
