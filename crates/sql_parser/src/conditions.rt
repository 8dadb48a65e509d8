ghost use Rattle.std.specs.Prelude.{◌≡◌, length};
ghost use Rattle.token_grammar.specs.Rules.{on};
ghost use Rattle.token_grammar.specs.Checks.{first};
ghost use Rattle.token_grammar.specs.Parser.{heads};
ghost use Rattle.token_grammar.specs.Code.{Parses};
ghost use Rattle.token_marks.specs.declared.mark.Mark.TheVariants as m;
ghost use Rattle.token_reading.specs.Tokens.{class};
ghost use Rattle.condition_nodes.specs.Reading.{ParsesBy, ParsesFrom};
ghost use Rattle.condition_nodes.specs.Gathered.{gathered_of};
ghost use Rattle.condition_nodes.specs.Tails.{including_of, predicate_of, tail_of};
ghost use Rattle.sql_algebra.specs.Grammar.{test};
ghost use Rattle.sql_parser.specs.Reading.{reads, at_depth};
ghost use Rattle.sql_parser.specs.Conditions.{coalesce, parens, operand, list, two_or_more, including, predicate_tail, test_tail, negation, conjunction, condition, gathers};

use crate::operands::{Condition, next_is_own_operand, own_operand};
use condition_nodes::{
    Gathered, Inclusion, Predicate, TestTail, TruthTail, after_is, coalesced, comparison,
    conjoined, disjoined, enclosed, literal, may_be_not, may_be_truth_test, negated,
    next_is_comparison, next_is_literal, open, with_tail,
};
use sql_algebra::ColumnRef;
use std::alloc::Global;
use token_grammar::Halt;
use token_marks::Mark;
use token_reading::{Tokens, expect, next_is};

// Whether [ NOT ] BETWEEN or [ NOT ] IN, or a comparison, is next.
#[tactic(auto, unfolding(condition_grammar::specs::Conditions::predicate_tail, condition_grammar::specs::Conditions::comparing, condition_grammar::specs::Conditions::including, condition_grammar::specs::Conditions::comparison))]
fn next_is_predicate_tail(tokens: &Tokens<'_>) -> bool
    ensures { result ≡ heads (on class (first predicate_tail)) tokens.now }
{
    next_is_comparison(tokens)
        || next_is(tokens, Mark::Between)
        || next_is(tokens, Mark::In)
        || next_is(tokens, Mark::Not)
}

// Whether something that makes a test of an operand is next.
#[tactic(auto, unfolding(condition_grammar::specs::Conditions::test_tail, condition_grammar::specs::Conditions::predicate_tail, condition_grammar::specs::Conditions::comparing, condition_grammar::specs::Conditions::including, condition_grammar::specs::Conditions::comparison))]
fn next_is_test_tail(tokens: &Tokens<'_>) -> bool
    ensures { result ≡ heads (on class (first test_tail)) tokens.now }
{
    next_is_predicate_tail(tokens) || next_is(tokens, Mark::Is)
}

// The operands that come, each behind a comma, behind those.
#[cycle(conditions)]
fn more_operands(
    alloc: Global,
    tokens: &mut Tokens<'_>,
    depth: u8,
    mut all: Gathered<ColumnRef>,
) -> Result<Gathered<ColumnRef>, Halt>
    ensures { Parses (gathers m.Comma (reads (at_depth depth) operand) all tokens.old) result tokens.new }
{
    for turn in 0..tokens.count() {
        if !next_is(tokens, Mark::Comma) {
            break;
        }
        tokens.skip();
        let item = operand(alloc, tokens, depth)?;
        all = all.with(item)?;
    }
    Ok(all)
}

// The operands of IN.
#[cycle(conditions)]
fn operand_list(
    alloc: Global,
    tokens: &mut Tokens<'_>,
    depth: u8,
) -> Result<Gathered<ColumnRef>, Halt>
    ensures { ParsesFrom gathered_of (reads (at_depth depth) (list operand) tokens.old) result tokens.new }
{
    let first = operand(alloc, tokens, depth)?;
    let one = Gathered::one(alloc, first)?;
    more_operands(alloc, tokens, depth, one)
}

// The operands of COALESCE, two or more.
#[cycle(conditions)]
fn members(alloc: Global, tokens: &mut Tokens<'_>, depth: u8) -> Result<Gathered<ColumnRef>, Halt>
    ensures { ParsesFrom gathered_of (reads (at_depth depth) (two_or_more operand) tokens.old) result tokens.new }
{
    let first = operand(alloc, tokens, depth)?;
    let one = Gathered::one(alloc, first)?;
    expect(tokens, Mark::Comma)?;
    let second = operand(alloc, tokens, depth)?;
    let two = one.with(second)?;
    more_operands(alloc, tokens, depth, two)
}

#[cycle(conditions)]
#[tactic(auto, unfolding(condition_grammar::specs::Conditions::coalesce), using(crate::proofs::Nests::nest_is))]
fn coalesce(alloc: Global, tokens: &mut Tokens<'_>, depth: u8) -> Result<Condition, Halt>
    ensures { Parses (reads (at_depth depth) coalesce tokens.old) result tokens.new }
{
    let word = expect(tokens, Mark::Coalesce)?;
    open(tokens, depth)?;
    let all = members(alloc, tokens, depth - 1)?;
    let closing = expect(tokens, Mark::RightParenthesis)?;
    Ok(coalesced(alloc, word, all, closing)?)
}

#[cycle(conditions)]
#[tactic(auto, unfolding(condition_grammar::specs::Conditions::parens), using(crate::proofs::Nests::nest_is))]
fn parens(alloc: Global, tokens: &mut Tokens<'_>, depth: u8) -> Result<Condition, Halt>
    ensures { Parses (reads (at_depth depth) parens tokens.old) result tokens.new }
{
    let opening = open(tokens, depth)?;
    let inner = condition(alloc, tokens, depth - 1)?;
    let closing = expect(tokens, Mark::RightParenthesis)?;
    Ok(enclosed(alloc, opening, closing, inner)?)
}

// An operand.
#[cycle(conditions)]
#[tactic(auto, unfolding(condition_grammar::specs::Conditions::operand, condition_grammar::specs::Conditions::literals, condition_grammar::specs::Conditions::coalesce))]
fn operand(alloc: Global, tokens: &mut Tokens<'_>, depth: u8) -> Result<Condition, Halt>
    ensures { Parses (reads (at_depth depth) operand tokens.old) result tokens.new }
{
    if next_is_literal(tokens) {
        return literal(alloc, tokens);
    }
    if next_is_own_operand(tokens) {
        return own_operand(alloc, tokens, depth);
    }
    if next_is(tokens, Mark::Coalesce) {
        return coalesce(alloc, tokens, depth);
    }
    parens(alloc, tokens, depth)
}

// What follows an operand and may have NOT before it.
#[cycle(conditions)]
#[tactic(auto, unfolding(condition_grammar::specs::Conditions::including), using(crate::proofs::Nests::nest_is))]
fn including(
    alloc: Global,
    tokens: &mut Tokens<'_>,
    depth: u8,
) -> Result<Inclusion<ColumnRef>, Halt>
    ensures { ParsesBy including_of (reads (at_depth depth) including tokens.old) result tokens.new }
{
    if next_is(tokens, Mark::Between) {
        expect(tokens, Mark::Between)?;
        let low = operand(alloc, tokens, depth)?;
        expect(tokens, Mark::And)?;
        let high = operand(alloc, tokens, depth)?;
        return Ok(Inclusion::Between(low, high));
    }
    expect(tokens, Mark::In)?;
    open(tokens, depth)?;
    let all = operand_list(alloc, tokens, depth - 1)?;
    let closing = expect(tokens, Mark::RightParenthesis)?;
    Ok(Inclusion::Among(all, closing))
}

// What makes a predicate of an operand, but for IS NULL.
#[cycle(conditions)]
#[tactic(auto, unfolding(condition_grammar::specs::Conditions::predicate_tail, condition_grammar::specs::Conditions::comparing, condition_grammar::specs::Conditions::including, condition_grammar::specs::Conditions::comparison))]
fn predicate_tail(
    alloc: Global,
    tokens: &mut Tokens<'_>,
    depth: u8,
) -> Result<Predicate<ColumnRef>, Halt>
    ensures { ParsesBy predicate_of (reads (at_depth depth) predicate_tail tokens.old) result tokens.new }
{
    if next_is_comparison(tokens) {
        let op = comparison(tokens)?;
        let other = operand(alloc, tokens, depth)?;
        return Ok(Predicate::Compare(op, other));
    }
    if next_is(tokens, Mark::Between) || next_is(tokens, Mark::In) {
        let rest = including(alloc, tokens, depth)?;
        return Ok(Predicate::Include(false, rest));
    }
    expect(tokens, Mark::Not)?;
    let rest = including(alloc, tokens, depth)?;
    Ok(Predicate::Include(true, rest))
}

// What makes a test of an operand.
#[cycle(conditions)]
#[tactic(auto, unfolding(condition_grammar::specs::Conditions::test_tail, condition_grammar::specs::Conditions::predicate_tail, condition_grammar::specs::Conditions::comparing, condition_grammar::specs::Conditions::including, condition_grammar::specs::Conditions::comparison, condition_grammar::specs::Conditions::truth_test, condition_grammar::specs::Conditions::after_is, condition_grammar::specs::Conditions::truth_word))]
fn test_tail(alloc: Global, tokens: &mut Tokens<'_>, depth: u8) -> Result<TestTail<ColumnRef>, Halt>
    ensures { ParsesBy tail_of (reads (at_depth depth) test_tail tokens.old) result tokens.new }
{
    if next_is_predicate_tail(tokens) {
        let predicate = predicate_tail(alloc, tokens, depth)?;
        let truth = may_be_truth_test::<ColumnRef>(tokens)?;
        return Ok(TestTail { predicate, truth });
    }
    expect(tokens, Mark::Is)?;
    let negated = may_be_not(tokens)?;
    let rest = after_is::<ColumnRef>(tokens)?;
    let test = rest.test;
    let word = rest.word;
    let truth = rest.truth;
    let predicate = Predicate::Is(TruthTail {
        test,
        negated,
        word,
    });
    Ok(TestTail { predicate, truth })
}

/// An operand, and what makes a test of it.
#[cycle(conditions)]
#[tactic(auto, unfolding(condition_grammar::specs::Conditions::tests))]
pub(crate) fn test(alloc: Global, tokens: &mut Tokens<'_>, depth: u8) -> Result<Condition, Halt>
    ensures { Parses (reads (at_depth depth) test tokens.old) result tokens.new }
{
    let value = operand(alloc, tokens, depth)?;
    if !next_is_test_tail(tokens) {
        return Ok(value);
    }
    let tail = test_tail(alloc, tokens, depth)?;
    Ok(with_tail(alloc, tail, value)?)
}

/// A test, or NOT of one.
#[cycle(conditions)]
#[tactic(auto, unfolding(condition_grammar::specs::Conditions::negation))]
pub(crate) fn negation(alloc: Global, tokens: &mut Tokens<'_>, depth: u8) -> Result<Condition, Halt>
    ensures { Parses (reads (at_depth depth) negation tokens.old) result tokens.new }
{
    if !next_is(tokens, Mark::Not) {
        return test(alloc, tokens, depth);
    }
    let word = expect(tokens, Mark::Not)?;
    let operand = test(alloc, tokens, depth)?;
    Ok(negated(alloc, word, operand)?)
}

// The members of AND that come, behind those.
#[cycle(conditions)]
fn more_negations(
    alloc: Global,
    tokens: &mut Tokens<'_>,
    depth: u8,
    mut all: Gathered<ColumnRef>,
) -> Result<Gathered<ColumnRef>, Halt>
    ensures { Parses (gathers m.And (reads (at_depth depth) negation) all tokens.old) result tokens.new }
{
    for turn in 0..tokens.count() {
        if !next_is(tokens, Mark::And) {
            break;
        }
        tokens.skip();
        let item = negation(alloc, tokens, depth)?;
        all = all.with(item)?;
    }
    Ok(all)
}

#[cycle(conditions)]
#[tactic(auto, unfolding(condition_grammar::specs::Conditions::conjunction))]
fn conjunction(alloc: Global, tokens: &mut Tokens<'_>, depth: u8) -> Result<Condition, Halt>
    ensures { Parses (reads (at_depth depth) conjunction tokens.old) result tokens.new }
{
    let first = negation(alloc, tokens, depth)?;
    if !next_is(tokens, Mark::And) {
        return Ok(first);
    }
    let one = Gathered::one(alloc, first)?;
    let all = more_negations(alloc, tokens, depth, one)?;
    Ok(conjoined(alloc, all)?)
}

// The members of OR that come, behind those.
#[cycle(conditions)]
fn more_conjunctions(
    alloc: Global,
    tokens: &mut Tokens<'_>,
    depth: u8,
    mut all: Gathered<ColumnRef>,
) -> Result<Gathered<ColumnRef>, Halt>
    ensures { Parses (gathers m.Or (reads (at_depth depth) conjunction) all tokens.old) result tokens.new }
{
    for turn in 0..tokens.count() {
        if !next_is(tokens, Mark::Or) {
            break;
        }
        tokens.skip();
        let item = conjunction(alloc, tokens, depth)?;
        all = all.with(item)?;
    }
    Ok(all)
}

/// A condition.
#[cycle(conditions)]
#[tactic(auto, unfolding(condition_grammar::specs::Conditions::search_condition))]
pub(crate) fn condition(
    alloc: Global,
    tokens: &mut Tokens<'_>,
    depth: u8,
) -> Result<Condition, Halt>
    ensures { Parses (reads (at_depth depth) condition tokens.old) result tokens.new }
{
    let first = conjunction(alloc, tokens, depth)?;
    if !next_is(tokens, Mark::Or) {
        return Ok(first);
    }
    let one = Gathered::one(alloc, first)?;
    let all = more_conjunctions(alloc, tokens, depth, one)?;
    Ok(disjoined(alloc, all)?)
}
