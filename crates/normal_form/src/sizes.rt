ghost use Rattle.std.specs.Prelude.{◌≡◌, ◌+◌, ◌*◌, ◌-◌, ◌^◌, ◌<◌, ◌++◌, ◌∷◌, [], List as Seq, length, min, sum, map, flat_map, replicate};
ghost use Rattle.std.specs.List.{sum_by};
ghost use Rattle.expr_tree.specs.Nodes.{count_of_nodes};
ghost use Rattle.graph_meaning.specs.Choices.{Iteration, edges_in, iterations, expanded};
ghost use Rattle.graph_ast.specs.declared.checked.Piece.{Piece as PieceTree};
ghost use Rattle.graph_meaning.specs.Weights.{compared_pairs, choice_size, block_size, path_at};
ghost use Rattle.normal_form.specs.Search.{repeated};
ghost use Rattle.normal_form.specs.Spending.{counted};
ghost use Rattle.normal_form.specs.Sizes.{nodes_in, expansion_size};

use expr_tree::Expr;
use graph_ast::{
    Alternative, Catalog, CheckedPath, CheckedQuery, Mode, Operand, PathBlock, Piece, PropertyLeaf,
    Step,
};

/// A sum as far as 64 bits hold it.
#[tactic(auto, unfolding(crate::specs::Spending::greatest_number))]
pub(crate) fn sum(a: u64, b: u64) -> u64
    ensures { result ≡ counted (a + b) }
{
    a.saturating_add(b)
}

/// A product as far as 64 bits hold it.
#[tactic(auto, unfolding(crate::specs::Spending::greatest_number))]
pub(crate) fn product(a: u64, b: u64) -> u64
    ensures { result ≡ counted (a * b) }
{
    a.saturating_mul(b)
}

/// The number of nodes of an expression, as far as 64 bits hold it.
#[cycle(nodes)]
#[tactic(auto, using(crate::proofs::SizeLemmas::one_node))]
pub(crate) fn nodes(expr: &Expr<PropertyLeaf>) -> u64
    ensures { result ≡ counted (count_of_nodes expr.now) }
{
    match expr {
        Expr::Lit(_) => 1,
        Expr::Null(_) => 1,
        Expr::Leaf(_) => 1,
        Expr::Compare(_, a, b) => sum(sum(1, nodes(a.get())), nodes(b.get())),
        Expr::All(list) => sum(1, nodes_of_all(list.as_slice())),
        Expr::Any(list) => sum(1, nodes_of_all(list.as_slice())),
        Expr::Coalesce(list) => sum(1, nodes_of_all(list.as_slice())),
        Expr::Not(a) => sum(1, nodes(a.get())),
        Expr::Is(a, _, _) => sum(1, nodes(a.get())),
        Expr::InList(a, list, _) => sum(sum(1, nodes(a.get())), nodes_of_all(list.as_slice())),
        Expr::Between(a, b, c, _) => sum(
            sum(sum(1, nodes(a.get())), nodes(b.get())),
            nodes(c.get()),
        ),
    }
}

#[cycle(nodes)]
fn nodes_of_all(list: &[Expr<PropertyLeaf>]) -> u64
    ensures { result ≡ counted (sum (map count_of_nodes list.now)) }
{
    let mut count = 0;
    for expr in list {
        count = sum(count, nodes(expr));
    }
    count
}

/// The number of nodes of some conditions.
fn nodes_of(conditions: &[Expr<PropertyLeaf>]) -> u64
    ensures { result ≡ counted (sum_by count_of_nodes conditions.now) }
{
    let mut count = 0;
    for condition in conditions {
        count = sum(count, nodes(condition));
    }
    count
}

/// The nodes of a part's conditions, as often as its count says, and those behind it.
fn with_part_nodes(conditions: &[Expr<PropertyLeaf>], count: u32, below: u64) -> u64
    ensures { (pieces : Seq PieceTree) (rest : Seq Iteration) → below ≡ counted (nodes_in rest)
        → result ≡ counted (nodes_in (replicate count (record { pieces = pieces; conditions = conditions.now }) ++ rest)) }
{
    if count == 0 {
        return below;
    }
    let own = nodes_of(conditions);
    sum(product(count as u64, own), below)
}

/// The number of nodes of the conditions of parts, of each part as often as its count says.
#[cycle(nodes_inside)]
fn nodes_inside(steps: &[Step], counts: &[u32]) -> u64
    ensures { result ≡ counted (nodes_in (iterations steps.now counts.now)) }
{
    match steps {
        [] => 0,
        [Step::One(_), rest @ ..] => nodes_inside(rest, counts),
        [Step::Part { conditions, .. }, rest @ ..] => match counts {
            [] => 0,
            [count, more @ ..] => {
                let below = nodes_inside(rest, more);
                with_part_nodes(conditions.as_slice(), *count, below)
            }
        },
    }
}

/// The number of edge patterns.
fn edges_among(pieces: &[Piece]) -> u64
    ensures { result ≡ counted (edges_in pieces.now) }
{
    let mut edges = 0;
    for piece in pieces {
        edges = sum(edges, edges_at(piece));
    }
    edges
}

fn edges_at(piece: &Piece) -> u64
    ensures { result ≡ edges_in (piece.now ∷ []) }
{
    match piece {
        Piece::Vertex(_) => 0,
        Piece::Edge(_, _) => 1,
    }
}

/// The edge patterns of a part, as often as its count says, and those behind it.
fn with_part_edges(pieces: &[Piece], count: u32, below: u64) -> u64
    ensures { (rest : Seq PieceTree) → below ≡ counted (edges_in rest)
        → result ≡ counted (edges_in (flat_map (λ x. x) (replicate count pieces.now) ++ rest)) }
{
    let own = edges_among(pieces);
    sum(product(count as u64, own), below)
}

/// The number of edge patterns of some steps, of each part as often as its count says.
#[cycle(edges_of)]
fn edges_of(steps: &[Step], counts: &[u32]) -> u64
    ensures { result ≡ counted (edges_in (repeated steps.now counts.now)) }
{
    match steps {
        [] => 0,
        [Step::One(piece), rest @ ..] => sum(edges_at(piece), edges_of(rest, counts)),
        [Step::Part { pieces, .. }, rest @ ..] => match counts {
            [] => 0,
            [count, more @ ..] => {
                let below = edges_of(rest, more);
                with_part_edges(pieces.as_slice(), *count, below)
            }
        },
    }
}

/// How many pairs a mode compares along a path of so many edges.
fn pairs(mode: Mode, edges: u128) -> u128
    requires { edges < 2 ^ 64 }
    ensures { result ≡ compared_pairs mode edges }
{
    match mode {
        Mode::Walk => 0,
        Mode::Trail => edges * edges.saturating_sub(1) / 2,
        Mode::Acyclic => (edges + 1) * edges / 2,
        Mode::Simple => ((edges + 1) * edges / 2).saturating_sub(1),
    }
}

#[tactic(auto, unfolding(crate::specs::Spending::greatest_number))]
fn lowered(number: u128) -> u64
    ensures { result ≡ counted number }
{
    if number > u64::MAX as u128 {
        u64::MAX
    } else {
        number as u64
    }
}

fn size_of(mode: Mode, operand: &Operand, counts: &[u32]) -> u64
    ensures { result ≡ counted (expansion_size mode (expanded operand.now counts.now)) }
{
    let edges = edges_of(operand.steps.as_slice(), counts);
    let places = sum(product(2, edges), 1);
    let inside = nodes_inside(operand.steps.as_slice(), counts);
    let outside = nodes_of(operand.conditions.as_slice());
    let nodes = sum(inside, outside);
    let compared = lowered(pairs(mode, edges as u128));
    sum(sum(places, nodes), compared)
}

/// The size of a choice, as far as 64 bits hold it.
pub(crate) fn choice_size(path: &CheckedPath, choice: &Alternative) -> u64
    ensures { result ≡ counted (choice_size path.now choice.now) }
{
    match path.operands.as_slice().get(choice.operand as usize) {
        None => 1,
        Some(operand) => size_of(path.mode, operand, choice.counts.as_slice()),
    }
}

/// The sum of the sizes of some choices.
fn sizes_of(path: &CheckedPath, choices: &[Alternative]) -> u64
    ensures { result ≡ counted (sum_by (choice_size path.now) choices.now) }
{
    let mut size = 0;
    for choice in choices {
        size = sum(size, choice_size(path, choice));
    }
    size
}

/// The size of a block of a path pattern.
pub(crate) fn size_of_block(path: &CheckedPath, block: &PathBlock) -> u64
    ensures { result ≡ counted (block_size path.now block.now) }
{
    sizes_of(path, block.alternatives.as_slice())
}

/// The size of a path block: the sum of the sizes of its alternatives, each of which is its number of places,
/// the nodes of its conditions and the pairs that the mode compares. A size that 64 bits do not hold is given
/// as the greatest number. It takes no memory.
pub fn block_size(_catalog: &Catalog, query: &CheckedQuery, block: &PathBlock) -> u64
    requires { block.now.path < length query.now.paths }
    ensures { result ≡ min (block_size (path_at query.now block.now.path) block.now) (2 ^ 64 - 1) }
{
    let path = &query.paths.as_slice()[block.path as usize];
    size_of_block(path, block)
}
