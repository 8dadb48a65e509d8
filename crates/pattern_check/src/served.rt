ghost use Rattle.std.specs.Prelude.{◌≡◌, ◌&&◌, map, not, is_none, option_copied, option_to_list};
ghost use Rattle.std.specs.List.{list_all, flat_map};
ghost use Rattle.expr_tree.specs.Leaves.{leaves_in, joined};
ghost use Rattle.graph_ast.specs.declared.query.PropertyRef.{PropertyRef as LeafOf};
ghost use Rattle.graph_ast.specs.Patterns.{given_by, sequence_given, part_given, body_given};
ghost use Rattle.pattern_check.specs.Scopes.{conditions, row_conditions, body_conditions, part_conditions, path_conditions, wheres};
ghost use Rattle.pattern_check.specs.Served.{is_plain, is_plain_item, is_group_selector, has_no_groups, is_served};

use expr_tree::Expr;
use graph_ast::{
    Condition, Factor, Item, PartTree, PathTree, PropertyRef, QueryTree, Selector, SelectorKind,
    Sequence, Union,
};

#[cycle(plain)]
#[tactic(auto, using(crate::proofs::ServedSteps::all_append))]
fn expression_is_plain(value: &Expr<PropertyRef>) -> bool
    ensures { result ≡ list_all (λ (leaf : LeafOf). is_none leaf.test) (leaves_in value.now) }
{
    match value {
        Expr::Lit(_) => true,
        Expr::Null(_) => true,
        Expr::Leaf(leaf) => leaf.test.is_none(),
        Expr::Compare(_, a, b) => expression_is_plain(a.get()) && expression_is_plain(b.get()),
        Expr::All(list) => expressions_are_plain(list.as_slice()),
        Expr::Any(list) => expressions_are_plain(list.as_slice()),
        Expr::Not(a) => expression_is_plain(a.get()),
        Expr::Is(a, _, _) => expression_is_plain(a.get()),
        Expr::InList(a, list, _) => {
            expression_is_plain(a.get()) && expressions_are_plain(list.as_slice())
        }
        Expr::Between(a, b, c, _) => {
            expression_is_plain(a.get())
                && expression_is_plain(b.get())
                && expression_is_plain(c.get())
        }
        Expr::Coalesce(list) => expressions_are_plain(list.as_slice()),
    }
}

#[cycle(plain)]
#[tactic(auto, using(crate::proofs::ServedSteps::all_append))]
fn expressions_are_plain(list: &[Expr<PropertyRef>]) -> bool
    ensures { result ≡ list_all (λ (leaf : LeafOf). is_none leaf.test) (joined (map leaves_in list.now)) }
{
    for value in list {
        if !expression_is_plain(value) {
            return false;
        }
    }
    true
}

fn condition_is_plain(condition: &Condition) -> bool
    ensures { result ≡ is_plain condition.now }
{
    expression_is_plain(&condition.tree)
}

fn where_is_plain(condition: Option<&Condition>) -> bool
    ensures { result ≡ list_all is_plain (option_to_list (option_copied condition.entry)) }
{
    match condition {
        None => true,
        Some(condition) => condition_is_plain(condition),
    }
}

#[cycle(served)]
fn factor_is_plain(factor: &Factor) -> bool
    ensures { result ≡ list_all is_plain (given_by conditions factor.now) }
{
    match factor {
        Factor::Vertex(filler) => where_is_plain(filler.condition.as_ref()),
        Factor::Edge(_, filler, _) => where_is_plain(filler.condition.as_ref()),
        Factor::Part(part, _) => part_is_plain(part.get()),
    }
}

#[cycle(served)]
#[tactic(auto, using(crate::proofs::ServedSteps::all_append))]
fn part_is_plain(part: &PartTree) -> bool
    ensures { result ≡ list_all is_plain (part_conditions (part_given conditions part.now)) }
{
    union_is_plain(&part.body) && where_is_plain(part.condition.as_ref())
}

#[cycle(served)]
fn union_is_plain(union: &Union) -> bool
    ensures { result ≡ list_all is_plain (body_conditions (body_given conditions union.now)) }
{
    operands_are_plain(union.operands.as_slice())
}

#[cycle(served)]
#[tactic(auto, using(crate::proofs::ServedSteps::all_append))]
fn operands_are_plain(operands: &[Sequence]) -> bool
    ensures { result ≡ list_all is_plain (flat_map row_conditions (map (sequence_given conditions) operands.now)) }
{
    for operand in operands {
        if !sequence_is_plain(operand) {
            return false;
        }
    }
    true
}

#[cycle(served)]
fn sequence_is_plain(sequence: &Sequence) -> bool
    ensures { result ≡ list_all is_plain (row_conditions (sequence_given conditions sequence.now)) }
{
    factors_are_plain(sequence.factors.as_slice())
}

#[cycle(served)]
#[tactic(auto, using(crate::proofs::ServedSteps::all_append))]
fn factors_are_plain(factors: &[Factor]) -> bool
    ensures { result ≡ list_all is_plain (row_conditions (map (given_by conditions) factors.now)) }
{
    for factor in factors {
        if !factor_is_plain(factor) {
            return false;
        }
    }
    true
}

#[tactic(auto, using(crate::proofs::ServedSteps::all_append))]
fn paths_are_plain(paths: &[PathTree]) -> bool
    ensures { result ≡ list_all is_plain (flat_map path_conditions paths.now) }
{
    for path in paths {
        if !union_is_plain(&path.body) {
            return false;
        }
    }
    true
}

fn selects_groups(selector: Option<&Selector>) -> bool
    ensures { result ≡ is_group_selector (option_copied selector.entry) }
{
    match selector {
        None => false,
        Some(words) => match words.kind {
            SelectorKind::ShortestGroup(_) => true,
            _ => false,
        },
    }
}

fn no_groups(paths: &[PathTree]) -> bool
    ensures { result ≡ list_all has_no_groups paths.now }
{
    for path in paths {
        if selects_groups(path.selector.as_ref()) {
            return false;
        }
    }
    true
}

fn items_are_plain(items: &[Item]) -> bool
    ensures { result ≡ list_all is_plain_item items.now }
{
    for item in items {
        if item.gather.is_some() || !condition_is_plain(&item.value) {
            return false;
        }
    }
    true
}

/// Whether the query has none of the forms that are read and not served yet: element predicates, aggregates and
/// SHORTEST k GROUP.
#[tactic(auto, using(crate::proofs::ServedSteps::all_append), unfolding(crate::specs::Scopes::wheres, crate::specs::Served::is_served))]
pub fn is_served(tree: &QueryTree) -> bool
    ensures { result ≡ is_served tree.now }
{
    let paths = tree.paths.as_slice();
    no_groups(paths)
        && paths_are_plain(paths)
        && where_is_plain(tree.condition.as_ref())
        && items_are_plain(tree.columns.as_slice())
}
