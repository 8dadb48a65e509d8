ghost use Rattle.std.specs.Prelude.{◌≡◌, ◌∷◌, ◌++◌, IfOk, option_map};
ghost use Rattle.condition_grammar.specs.Spans.{unless_none};
ghost use Rattle.token_grammar.specs.Checks.{first};
ghost use Rattle.token_grammar.specs.Code.{Parses};
ghost use Rattle.token_grammar.specs.Rules.{on};
ghost use Rattle.token_grammar.specs.Rules.Rule.{opt};
ghost use Rattle.token_grammar.specs.Parser.{heads, mapped_p};
ghost use Rattle.token_reading.specs.Tokens.{class};
ghost use Rattle.condition_nodes.specs.Reading.{reads_flat, ParsesBy};
ghost use Rattle.condition_nodes.specs.Tails.{comparison, negated, truth_test, truth_tail, after_is, after_is_of, predicate_of, including_of, tail_of, listed_by};

use crate::gathered::Gathered;
use crate::nodes::{compared, ranged, reach, span_of, tested};
use condition_grammar::Spanned;
use expr_tree::{Comparison, Expr, Test};
use pgq_base::{List, NoMemory, Span};
use sqlite_items::Boxed;
use std::alloc::Global;
use token_grammar::Halt;
use token_marks::Mark;
use token_reading::{Tokens, expect, next_is};

/// `IS [ NOT ] TRUE`, `FALSE` or `UNKNOWN`, and where its last word stands.
#[derive(Clone, Copy, Debug)]
pub struct TruthTail {
    pub test: Test,
    pub negated: bool,
    pub word: Span,
}

/// What makes a predicate of an operand, in a form that NOT may stand before.
#[derive(Debug, Drop)]
pub enum Inclusion<L> {
    Between(Spanned<L>, Spanned<L>),
    Among(Gathered<L>, Span),
}

/// What makes a predicate of an operand.
#[derive(Debug, Drop)]
pub enum Predicate<L> {
    Compare(Comparison, Spanned<L>),
    Include(bool, Inclusion<L>),
    Is(TruthTail),
}

/// What follows `IS [ NOT ]`.
#[derive(Clone, Copy, Debug)]
pub struct IsTail {
    pub test: Test,
    pub word: Span,
    pub truth: Option<TruthTail>,
}

/// What makes a test of an operand.
#[derive(Debug, Drop)]
pub struct TestTail<L> {
    pub predicate: Predicate<L>,
    pub truth: Option<TruthTail>,
}

/// A comparison's symbol.
#[tactic(auto, unfolding(condition_grammar::specs::Conditions::comparison))]
pub fn comparison(tokens: &mut Tokens<'_>) -> Result<Comparison, Halt>
    ensures { Parses (reads_flat (comparison (Unit {0})) tokens.old) result tokens.new }
{
    if next_is(tokens, Mark::Equals) {
        expect(tokens, Mark::Equals)?;
        return Ok(Comparison::Equal);
    }
    if next_is(tokens, Mark::NotEqual) {
        expect(tokens, Mark::NotEqual)?;
        return Ok(Comparison::NotEqual);
    }
    if next_is(tokens, Mark::Less) {
        expect(tokens, Mark::Less)?;
        return Ok(Comparison::Less);
    }
    if next_is(tokens, Mark::LessOrEqual) {
        expect(tokens, Mark::LessOrEqual)?;
        return Ok(Comparison::LessOrEqual);
    }
    if next_is(tokens, Mark::Greater) {
        expect(tokens, Mark::Greater)?;
        return Ok(Comparison::Greater);
    }
    expect(tokens, Mark::GreaterOrEqual)?;
    Ok(Comparison::GreaterOrEqual)
}

/// Whether a comparison's symbol is next.
#[tactic(auto, unfolding(condition_grammar::specs::Conditions::comparison))]
pub fn next_is_comparison(tokens: &Tokens<'_>) -> bool
    ensures { result ≡ heads (on class (first (comparison (Unit {0})))) tokens.now }
{
    next_is(tokens, Mark::Equals)
        || next_is(tokens, Mark::NotEqual)
        || next_is(tokens, Mark::Less)
        || next_is(tokens, Mark::LessOrEqual)
        || next_is(tokens, Mark::Greater)
        || next_is(tokens, Mark::GreaterOrEqual)
}

/// Whether NOT stands there, which is read then.
pub fn may_be_not(tokens: &mut Tokens<'_>) -> Result<bool, Halt>
    ensures { Parses (reads_flat (negated (Unit {0})) tokens.old) result tokens.new }
{
    if !next_is(tokens, Mark::Not) {
        return Ok(false);
    }
    expect(tokens, Mark::Not)?;
    Ok(true)
}

/// What makes a test of a predicate.
#[tactic(auto, unfolding(condition_grammar::specs::Conditions::truth_test, condition_grammar::specs::Conditions::truth_word))]
fn truth_test<L: Drop>(tokens: &mut Tokens<'_>) -> Result<TruthTail, Halt>
    ensures { ParsesBy truth_tail (reads_flat (truth_test L) tokens.old) result tokens.new }
{
    expect(tokens, Mark::Is)?;
    let negated = may_be_not(tokens)?;
    if next_is(tokens, Mark::True) {
        let word = expect(tokens, Mark::True)?;
        let test = Test::True;
        return Ok(TruthTail {
            test,
            negated,
            word,
        });
    }
    if next_is(tokens, Mark::False) {
        let word = expect(tokens, Mark::False)?;
        let test = Test::False;
        return Ok(TruthTail {
            test,
            negated,
            word,
        });
    }
    let word = expect(tokens, Mark::Unknown)?;
    let test = Test::Unknown;
    Ok(TruthTail {
        test,
        negated,
        word,
    })
}

/// What makes a test of a predicate, if it stands there.
#[tactic(auto, unfolding(condition_grammar::specs::Conditions::truth_test))]
pub fn may_be_truth_test<L: Drop>(tokens: &mut Tokens<'_>) -> Result<Option<TruthTail>, Halt>
    ensures { ParsesBy (option_map truth_tail) (reads_flat (opt (truth_test L)) tokens.old) result tokens.new }
{
    if !next_is(tokens, Mark::Is) {
        return Ok(None);
    }
    let truth = truth_test::<L>(tokens)?;
    Ok(Some(truth))
}

/// What follows `IS [ NOT ]` behind an operand.
#[tactic(auto, unfolding(condition_grammar::specs::Conditions::after_is, condition_grammar::specs::Conditions::truth_word, condition_grammar::specs::Conditions::truth_test))]
pub fn after_is<L: Drop>(tokens: &mut Tokens<'_>) -> Result<IsTail, Halt>
    ensures { ParsesBy after_is_of (reads_flat (after_is L) tokens.old) result tokens.new }
{
    if next_is(tokens, Mark::Null) {
        let word = expect(tokens, Mark::Null)?;
        let truth = may_be_truth_test::<L>(tokens)?;
        let test = Test::Null;
        return Ok(IsTail { test, word, truth });
    }
    if next_is(tokens, Mark::True) {
        let word = expect(tokens, Mark::True)?;
        let test = Test::True;
        let truth = None;
        return Ok(IsTail { test, word, truth });
    }
    if next_is(tokens, Mark::False) {
        let word = expect(tokens, Mark::False)?;
        let test = Test::False;
        let truth = None;
        return Ok(IsTail { test, word, truth });
    }
    let word = expect(tokens, Mark::Unknown)?;
    let test = Test::Unknown;
    let truth = None;
    Ok(IsTail { test, word, truth })
}

fn with_truth<L: Drop>(
    alloc: Global,
    truth: Option<TruthTail>,
    c: Spanned<L>,
) -> Result<Spanned<L>, NoMemory>
    ensures { IfOk result (λ r. r ≡ unless_none (option_map truth_tail truth) c) }
{
    match truth {
        Some(tail) => tested(alloc, tail.test, tail.negated, tail.word, c),
        None => Ok(c),
    }
}

fn spans_of_list(
    alloc: Global,
    span: Span,
    a: &[Span],
    all: &[Span],
) -> Result<List<Span>, NoMemory>
    ensures { IfOk result (λ spans. spans ≡ span ∷ (a.now ++ all.now)) }
{
    let mut spans = List::new(alloc);
    spans.push(span)?;
    spans.extend(a)?;
    spans.extend(all)?;
    Ok(spans)
}

fn listed<L: Drop>(
    alloc: Global,
    negated: bool,
    all: Gathered<L>,
    closing: Span,
    a: Spanned<L>,
) -> Result<Spanned<L>, NoMemory>
    ensures { IfOk result (λ r. r ≡ listed_by negated all closing a) }
{
    let span = reach(span_of(&a), closing);
    let spans = spans_of_list(alloc, span, a.spans.as_slice(), all.spans.as_slice())?;
    let value = Boxed::new(alloc, a.tree)?;
    Ok(Spanned {
        tree: Expr::InList(value, all.trees, negated),
        spans,
    })
}

fn included<L: Drop>(
    alloc: Global,
    negated: bool,
    inclusion: Inclusion<L>,
    a: Spanned<L>,
) -> Result<Spanned<L>, NoMemory>
    ensures { IfOk result (λ r. r ≡ including_of inclusion negated a) }
{
    match inclusion {
        Inclusion::Between(low, high) => ranged(alloc, negated, a, low, high),
        Inclusion::Among(all, closing) => listed(alloc, negated, all, closing, a),
    }
}

fn with_predicate<L: Drop>(
    alloc: Global,
    predicate: Predicate<L>,
    a: Spanned<L>,
) -> Result<Spanned<L>, NoMemory>
    ensures { IfOk result (λ r. r ≡ predicate_of predicate a) }
{
    match predicate {
        Predicate::Compare(op, b) => compared(alloc, op, a, b),
        Predicate::Include(negated, inclusion) => included(alloc, negated, inclusion, a),
        Predicate::Is(tail) => tested(alloc, tail.test, tail.negated, tail.word, a),
    }
}

/// The test that the tail makes of the operand.
pub fn with_tail<L: Drop>(
    alloc: Global,
    tail: TestTail<L>,
    a: Spanned<L>,
) -> Result<Spanned<L>, NoMemory>
    ensures { IfOk result (λ r. r ≡ tail_of tail a) }
{
    let predicate = with_predicate(alloc, tail.predicate, a)?;
    with_truth(alloc, tail.truth, predicate)
}

/// A predicate, and what makes a test of it, if it stands there.
#[tactic(auto, unfolding(condition_grammar::specs::Conditions::truth_test, condition_grammar::specs::Conditions::truth_word))]
pub fn truth_end<L: Drop>(
    alloc: Global,
    tokens: &mut Tokens<'_>,
    c: Spanned<L>,
) -> Result<Spanned<L>, Halt>
    ensures { Parses (mapped_p (λ tail. unless_none tail c) (reads_flat (opt (truth_test L))) tokens.old) result tokens.new }
{
    let truth = may_be_truth_test::<L>(tokens)?;
    Ok(with_truth(alloc, truth, c)?)
}
