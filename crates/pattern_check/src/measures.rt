ghost use Rattle.std.specs.Prelude.{◌≡◌, ◌+◌, ◌*◌, map, option_copied, max};
ghost use Rattle.graph_ast.specs.Patterns.{given_by, sequence_given, part_given, body_given};
ghost use Rattle.pattern_check.specs.SizeRules.{counts_allowed, greatest_count, chained, either, sequence_measure, union_measure, body_measure, repeated_measure, measuring, counted, counted_measure};

use graph_ast::{Factor, PartTree, Quantifier, QuantifierKind, Sequence, Union};

/// The number of choices of a pattern, and the number of edges of its longest choice.
#[derive(Clone, Copy, Debug)]
pub struct Measure {
    pub choices: u64,
    pub edges: u64,
}

#[tactic(auto, unfolding(crate::specs::SizeRules::greatest_number))]
fn product(a: u64, b: u64) -> u64
    ensures { result ≡ counted (a * b) }
{
    a.saturating_mul(b)
}

#[tactic(auto, unfolding(crate::specs::SizeRules::greatest_number))]
fn sum(a: u64, b: u64) -> u64
    ensures { result ≡ counted (a + b) }
{
    a.saturating_add(b)
}

#[tactic(auto, unfolding(crate::specs::SizeRules::greatest_number))]
fn greater(a: u64, b: u64) -> u64
    ensures { result ≡ counted (max a b) }
{
    a.max(b)
}

fn chained(first: Measure, second: Measure) -> Measure
    ensures { result ≡ counted_measure (chained first second) }
{
    Measure {
        choices: product(first.choices, second.choices),
        edges: sum(first.edges, second.edges),
    }
}

fn either(first: Measure, second: Measure) -> Measure
    ensures { result ≡ counted_measure (either first second) }
{
    Measure {
        choices: sum(first.choices, second.choices),
        edges: greater(first.edges, second.edges),
    }
}

#[tactic(auto, unfolding(crate::specs::SizeRules::greatest_number))]
fn counts_allowed(kind: QuantifierKind) -> u64
    ensures { result ≡ counted (counts_allowed kind) }
{
    match kind {
        QuantifierKind::Between(lower, upper) => {
            if upper < lower {
                0
            } else {
                (upper - lower).saturating_add(1)
            }
        }
        QuantifierKind::AtLeast(_) => 1,
        QuantifierKind::Optional => 1,
    }
}

fn greatest_count(kind: QuantifierKind) -> u64
    ensures { result ≡ greatest_count kind }
{
    match kind {
        QuantifierKind::Between(_, upper) => upper,
        QuantifierKind::AtLeast(lower) => lower,
        QuantifierKind::Optional => 1,
    }
}

#[tactic(auto, using(crate::proofs::Counting::product_right, crate::proofs::Counting::within), unfolding(crate::specs::SizeRules::greatest_number))]
fn repeated(inside: Measure, quantifier: Option<&Quantifier>) -> Measure
    ensures { result ≡ counted_measure (repeated_measure (option_copied quantifier.entry) inside) }
{
    match quantifier {
        None => inside,
        Some(quantifier) => Measure {
            choices: product(inside.choices, counts_allowed(quantifier.kind)),
            edges: product(inside.edges, greatest_count(quantifier.kind)),
        },
    }
}

#[cycle(measures)]
#[tactic(auto, unfolding(crate::specs::SizeRules::greatest_number))]
fn factor_measure(factor: &Factor) -> Measure
    ensures { result ≡ counted_measure (given_by measuring factor.now) }
{
    match factor {
        Factor::Vertex(_) => Measure {
            choices: 1,
            edges: 0,
        },
        Factor::Edge(_, _, quantifier) => {
            let one = Measure {
                choices: 1,
                edges: 1,
            };
            repeated(one, quantifier.as_ref())
        }
        Factor::Part(part, quantifier) => part_measure(part.get(), quantifier.as_ref()),
    }
}

#[cycle(measures)]
fn part_measure(part: &PartTree, quantifier: Option<&Quantifier>) -> Measure
    ensures { result ≡ counted_measure (repeated_measure (option_copied quantifier.entry) (body_measure (part_given measuring part.now).body)) }
{
    let inside = union_measure(&part.body);
    repeated(inside, quantifier)
}

/// The choices of some sequences and the edges of the longest choice, each number as far as 64 bits go.
#[cycle(measures)]
pub fn union_measure(union: &Union) -> Measure
    ensures { result ≡ counted_measure (body_measure (body_given measuring union.now)) }
{
    operands_measure(union.operands.as_slice())
}

#[cycle(measures)]
#[tactic(auto, using(crate::proofs::Counting::either_none))]
fn operands_measure(operands: &[Sequence]) -> Measure
    ensures { result ≡ counted_measure (union_measure (map sequence_measure (map (sequence_given measuring) operands.now))) }
{
    let mut total = Measure {
        choices: 0,
        edges: 0,
    };
    for operand in operands {
        let own = sequence_total(operand);
        total = either(total, own);
    }
    total
}

#[cycle(measures)]
fn sequence_total(sequence: &Sequence) -> Measure
    ensures { result ≡ counted_measure (sequence_measure (sequence_given measuring sequence.now)) }
{
    factors_measure(sequence.factors.as_slice())
}

#[cycle(measures)]
#[tactic(auto, using(crate::proofs::Counting::chained_none))]
fn factors_measure(factors: &[Factor]) -> Measure
    ensures { result ≡ counted_measure (sequence_measure (map (given_by measuring) factors.now)) }
{
    let mut total = Measure {
        choices: 1,
        edges: 0,
    };
    for factor in factors {
        let own = factor_measure(factor);
        total = chained(total, own);
    }
    total
}
