ghost use Rattle.std.specs.Prelude.{◌≡◌};
ghost use Rattle.condition_grammar.specs.Spans.{unless_none, all_of, any_of};
ghost use Rattle.token_grammar.specs.Rules.{on};
ghost use Rattle.token_grammar.specs.Rules.Rule.{opt};
ghost use Rattle.token_grammar.specs.Checks.{first};
ghost use Rattle.token_grammar.specs.Parser.{heads, one_p, mapped_p};
ghost use Rattle.token_grammar.specs.Code.{Parses};
ghost use Rattle.token_marks.specs.declared.mark.Mark.TheVariants as m;
ghost use Rattle.token_reading.specs.Tokens.{class, named};
ghost use Rattle.condition_nodes.specs.Reading.{ParsesBy, ParsesFrom};
ghost use Rattle.condition_nodes.specs.Gathered.{gathered_of};
ghost use Rattle.condition_nodes.specs.Tails.{including_of, predicate_of, tail_of};
ghost use Rattle.pattern_parser.specs.Insides.{list};
ghost use Rattle.pattern_parser.specs.Tests.{is_plain, is_group_word, unnamed_operand, test_tail, after_name, test, negation, conjunction, condition, more_members};
ghost use Rattle.pattern_parser.specs.Reading.{reads, at_depth};
ghost use Rattle.pattern_parser.specs.Conditions.{coalesce, parentheses, operand, two_or_more, including, predicate_tail, more_negations, more_conjunctions, date_test, group_word_test, gathers, put_p};

use crate::leaves::{Tree, date, leaf_node, next_is_own_operand, own_operand, property};
use crate::predicates::{group, relation_test};
use condition_nodes::{
    Gathered, Inclusion, Predicate, TestTail, TruthTail, after_is, coalesced, comparison,
    conjoined, disjoined, enclosed, literal, may_be_not, may_be_truth_test, negated,
    next_is_comparison, next_is_literal, next_is_undated, open, undated_name, with_tail, word_of,
};
use graph_ast::{Named, PropertyRef};
use std::alloc::Global;
use token_grammar::Halt;
use token_marks::Mark;
use token_reading::{Tokens, UNEXPECTED, expect, name, next_is};

// Whether a literal, COALESCE or a parenthesis is next.
#[tactic(auto, unfolding(crate::specs::Tests::unnamed_operand, condition_grammar::specs::Conditions::literals, condition_grammar::specs::Conditions::coalesce, condition_grammar::specs::Conditions::parens))]
fn next_is_unnamed(tokens: &Tokens<'_>) -> bool
    ensures { result ≡ heads (on class (first unnamed_operand)) tokens.now }
{
    next_is_literal(tokens)
        || next_is(tokens, Mark::Coalesce)
        || next_is(tokens, Mark::LeftParenthesis)
}

// Whether [ NOT ] BETWEEN or [ NOT ] IN, or a comparison, is next.
#[tactic(auto, unfolding(condition_grammar::specs::Conditions::predicate_tail, condition_grammar::specs::Conditions::comparing, condition_grammar::specs::Conditions::including, condition_grammar::specs::Conditions::comparison))]
fn next_is_predicate_tail(tokens: &Tokens<'_>) -> bool
    ensures { result ≡ heads (on class (first predicate_tail)) tokens.now }
{
    next_is_comparison(tokens)
        || next_is(tokens, Mark::Between)
        || next_is(tokens, Mark::In)
        || next_is(tokens, Mark::Not)
}

// Whether something that makes a test of an operand is next.
#[tactic(auto, unfolding(condition_grammar::specs::Conditions::test_tail, condition_grammar::specs::Conditions::predicate_tail, condition_grammar::specs::Conditions::comparing, condition_grammar::specs::Conditions::including, condition_grammar::specs::Conditions::comparison))]
fn next_is_test_tail(tokens: &Tokens<'_>) -> bool
    ensures { result ≡ heads (on class (first test_tail)) tokens.now }
{
    next_is_predicate_tail(tokens) || next_is(tokens, Mark::Is)
}

// Whether what may follow any name at the head of a test is next.
#[tactic(auto, unfolding(crate::specs::Tests::after_name, crate::specs::Tests::relation, condition_grammar::specs::Conditions::dotted))]
fn next_is_after_name(tokens: &Tokens<'_>) -> bool
    ensures { result ≡ heads (on class (first after_name)) tokens.now }
{
    next_is(tokens, Mark::Period) || next_is(tokens, Mark::Is)
}

fn next_is_group_word(tokens: &Tokens<'_>) -> bool
    ensures { result ≡ heads (on class is_group_word) tokens.now }
{
    next_is(tokens, Mark::Same) || next_is(tokens, Mark::AllDifferent)
}

fn next_is_plain(tokens: &Tokens<'_>) -> bool
    ensures { result ≡ heads (on class is_plain) tokens.now }
{
    next_is_undated(tokens) && !next_is_group_word(tokens)
}

// A name that begins with no word of a meaning of its own.
fn plain_name(alloc: Global, tokens: &mut Tokens<'_>) -> Result<Named, Halt>
    ensures { Parses (one_p (on class is_plain) named tokens.old) result tokens.new }
{
    if !next_is_plain(tokens) {
        return Err(UNEXPECTED);
    }
    name(alloc, tokens)
}

// SAME or ALL_DIFFERENT.
fn group_word(alloc: Global, tokens: &mut Tokens<'_>) -> Result<Named, Halt>
    ensures { Parses (one_p (on class is_group_word) named tokens.old) result tokens.new }
{
    if !next_is_group_word(tokens) {
        return Err(UNEXPECTED);
    }
    name(alloc, tokens)
}

#[cycle(conditions)]
#[tactic(auto, unfolding(condition_grammar::specs::Conditions::coalesce), using(crate::proofs::Nests::nest_is))]
fn coalesce(alloc: Global, tokens: &mut Tokens<'_>, depth: u8) -> Result<Tree, Halt>
    ensures { Parses (reads (at_depth depth) coalesce tokens.old) result tokens.new }
{
    let word = expect(tokens, Mark::Coalesce)?;
    open(tokens, depth)?;
    let all = members(alloc, tokens, depth - 1)?;
    let closing = expect(tokens, Mark::RightParenthesis)?;
    Ok(coalesced(alloc, word, all, closing)?)
}

// A condition in parentheses.
#[cycle(conditions)]
#[tactic(auto, unfolding(condition_grammar::specs::Conditions::parens), using(crate::proofs::Nests::nest_is))]
fn parentheses(alloc: Global, tokens: &mut Tokens<'_>, depth: u8) -> Result<Tree, Halt>
    ensures { Parses (reads (at_depth depth) parentheses tokens.old) result tokens.new }
{
    let opening = open(tokens, depth)?;
    let inner = condition(alloc, tokens, depth - 1)?;
    let closing = expect(tokens, Mark::RightParenthesis)?;
    Ok(enclosed(alloc, opening, closing, inner)?)
}

// An operand that begins with no name.
#[cycle(conditions)]
#[tactic(auto, unfolding(crate::specs::Tests::unnamed_operand, condition_grammar::specs::Conditions::literals, condition_grammar::specs::Conditions::coalesce))]
fn unnamed_operand(alloc: Global, tokens: &mut Tokens<'_>, depth: u8) -> Result<Tree, Halt>
    ensures { Parses (reads (at_depth depth) unnamed_operand tokens.old) result tokens.new }
{
    if next_is_literal(tokens) {
        return literal(alloc, tokens);
    }
    if next_is(tokens, Mark::Coalesce) {
        return coalesce(alloc, tokens, depth);
    }
    parentheses(alloc, tokens, depth)
}

#[cycle(conditions)]
#[tactic(auto, unfolding(condition_grammar::specs::Conditions::leaf_or_date, condition_grammar::specs::Conditions::dotted, condition_grammar::specs::Conditions::date_text))]
fn operand(alloc: Global, tokens: &mut Tokens<'_>, depth: u8) -> Result<Tree, Halt>
    ensures { Parses (reads (at_depth depth) operand tokens.old) result tokens.new }
{
    if next_is_own_operand(tokens) {
        return own_operand(alloc, tokens);
    }
    unnamed_operand(alloc, tokens, depth)
}

// The operands that come, each behind a comma, behind those.
#[cycle(conditions)]
fn more_operands(
    alloc: Global,
    tokens: &mut Tokens<'_>,
    depth: u8,
    mut all: Gathered<PropertyRef>,
) -> Result<Gathered<PropertyRef>, Halt>
    ensures { Parses (gathers m.Comma (reads (at_depth depth) operand) all tokens.old) result tokens.new }
{
    for turn in 0..tokens.count() {
        if !next_is(tokens, Mark::Comma) {
            break;
        }
        tokens.skip();
        let item = operand(alloc, tokens, depth)?;
        all = all.with(item)?;
    }
    Ok(all)
}

// The operands of IN.
#[cycle(conditions)]
fn operands(
    alloc: Global,
    tokens: &mut Tokens<'_>,
    depth: u8,
) -> Result<Gathered<PropertyRef>, Halt>
    ensures { ParsesFrom gathered_of (reads (at_depth depth) (list operand) tokens.old) result tokens.new }
{
    let first = operand(alloc, tokens, depth)?;
    let one = Gathered::one(alloc, first)?;
    more_operands(alloc, tokens, depth, one)
}

// The operands of COALESCE, two or more.
#[cycle(conditions)]
fn members(alloc: Global, tokens: &mut Tokens<'_>, depth: u8) -> Result<Gathered<PropertyRef>, Halt>
    ensures { ParsesFrom gathered_of (reads (at_depth depth) (two_or_more operand) tokens.old) result tokens.new }
{
    let first = operand(alloc, tokens, depth)?;
    let one = Gathered::one(alloc, first)?;
    expect(tokens, Mark::Comma)?;
    let second = operand(alloc, tokens, depth)?;
    let two = one.with(second)?;
    more_operands(alloc, tokens, depth, two)
}

// What follows an operand and may have NOT before it.
#[cycle(conditions)]
#[tactic(auto, unfolding(condition_grammar::specs::Conditions::including), using(crate::proofs::Nests::nest_is))]
fn including(
    alloc: Global,
    tokens: &mut Tokens<'_>,
    depth: u8,
) -> Result<Inclusion<PropertyRef>, Halt>
    ensures { ParsesBy including_of (reads (at_depth depth) including tokens.old) result tokens.new }
{
    if next_is(tokens, Mark::Between) {
        expect(tokens, Mark::Between)?;
        let low = operand(alloc, tokens, depth)?;
        expect(tokens, Mark::And)?;
        let high = operand(alloc, tokens, depth)?;
        return Ok(Inclusion::Between(low, high));
    }
    expect(tokens, Mark::In)?;
    open(tokens, depth)?;
    let all = operands(alloc, tokens, depth - 1)?;
    let closing = expect(tokens, Mark::RightParenthesis)?;
    Ok(Inclusion::Among(all, closing))
}

// What makes a predicate of an operand, but for IS NULL.
#[cycle(conditions)]
#[tactic(auto, unfolding(condition_grammar::specs::Conditions::predicate_tail, condition_grammar::specs::Conditions::comparing, condition_grammar::specs::Conditions::including, condition_grammar::specs::Conditions::comparison))]
fn predicate_tail(
    alloc: Global,
    tokens: &mut Tokens<'_>,
    depth: u8,
) -> Result<Predicate<PropertyRef>, Halt>
    ensures { ParsesBy predicate_of (reads (at_depth depth) predicate_tail tokens.old) result tokens.new }
{
    if next_is_comparison(tokens) {
        let op = comparison(tokens)?;
        let other = operand(alloc, tokens, depth)?;
        return Ok(Predicate::Compare(op, other));
    }
    if next_is(tokens, Mark::Between) || next_is(tokens, Mark::In) {
        let rest = including(alloc, tokens, depth)?;
        return Ok(Predicate::Include(false, rest));
    }
    expect(tokens, Mark::Not)?;
    let rest = including(alloc, tokens, depth)?;
    Ok(Predicate::Include(true, rest))
}

// What makes a test of an operand.
#[cycle(conditions)]
#[tactic(auto, unfolding(condition_grammar::specs::Conditions::test_tail, condition_grammar::specs::Conditions::predicate_tail, condition_grammar::specs::Conditions::comparing, condition_grammar::specs::Conditions::including, condition_grammar::specs::Conditions::comparison, condition_grammar::specs::Conditions::truth_test, condition_grammar::specs::Conditions::after_is, condition_grammar::specs::Conditions::truth_word))]
fn test_tail(
    alloc: Global,
    tokens: &mut Tokens<'_>,
    depth: u8,
) -> Result<TestTail<PropertyRef>, Halt>
    ensures { ParsesBy tail_of (reads (at_depth depth) test_tail tokens.old) result tokens.new }
{
    if next_is_predicate_tail(tokens) {
        let predicate = predicate_tail(alloc, tokens, depth)?;
        let truth = may_be_truth_test::<PropertyRef>(tokens)?;
        return Ok(TestTail { predicate, truth });
    }
    expect(tokens, Mark::Is)?;
    let negated = may_be_not(tokens)?;
    let rest = after_is::<PropertyRef>(tokens)?;
    let test = rest.test;
    let word = rest.word;
    let truth = rest.truth;
    let predicate = Predicate::Is(TruthTail {
        test,
        negated,
        word,
    });
    Ok(TestTail { predicate, truth })
}

// An operand, and what makes a test of it, if it stands there.
#[cycle(conditions)]
fn test_end(alloc: Global, tokens: &mut Tokens<'_>, depth: u8, operand: Tree) -> Result<Tree, Halt>
    ensures { Parses (mapped_p (λ tail. unless_none tail operand) (reads (at_depth depth) (opt test_tail)) tokens.old) result tokens.new }
{
    if !next_is_test_tail(tokens) {
        return Ok(operand);
    }
    let tail = test_tail(alloc, tokens, depth)?;
    Ok(with_tail(alloc, tail, operand)?)
}

// What may follow any name at the head of a test.
#[cycle(conditions)]
#[tactic(auto, unfolding(crate::specs::Tests::after_name, condition_grammar::specs::Conditions::dotted, crate::specs::Tests::relation, crate::specs::Tests::end_of_edge, condition_grammar::specs::Conditions::truth_test, condition_grammar::specs::Conditions::truth_word))]
pub(crate) fn after_name(
    alloc: Global,
    tokens: &mut Tokens<'_>,
    depth: u8,
    name: Named,
) -> Result<Tree, Halt>
    ensures { Parses (put_p name (reads (at_depth depth) after_name) tokens.old) result tokens.new }
{
    if !next_is(tokens, Mark::Period) {
        return relation_test(alloc, tokens, name);
    }
    let property = property(alloc, tokens)?;
    let leaf = leaf_node(alloc, name, property)?;
    test_end(alloc, tokens, depth, leaf)
}

// A test that begins with the word DATE.
#[cycle(conditions)]
#[tactic(auto, unfolding(condition_grammar::specs::Conditions::date_text))]
fn date_test(alloc: Global, tokens: &mut Tokens<'_>, depth: u8) -> Result<Tree, Halt>
    ensures { Parses (reads (at_depth depth) date_test tokens.old) result tokens.new }
{
    let word = word_of(alloc, tokens, Mark::Date)?;
    if next_is_after_name(tokens) {
        return after_name(alloc, tokens, depth, word);
    }
    let date = date(alloc, tokens, word)?;
    test_end(alloc, tokens, depth, date)
}

// A test that begins with SAME or ALL_DIFFERENT.
#[cycle(conditions)]
fn group_word_test(alloc: Global, tokens: &mut Tokens<'_>, depth: u8) -> Result<Tree, Halt>
    ensures { Parses (reads (at_depth depth) group_word_test tokens.old) result tokens.new }
{
    let word = group_word(alloc, tokens)?;
    if next_is_after_name(tokens) {
        return after_name(alloc, tokens, depth, word);
    }
    group(alloc, tokens, depth, word)
}

// A test, by what it begins with.
#[cycle(conditions)]
#[tactic(auto, unfolding(crate::specs::Tests::test_from))]
fn test(alloc: Global, tokens: &mut Tokens<'_>, depth: u8) -> Result<Tree, Halt>
    ensures { Parses (reads (at_depth depth) test tokens.old) result tokens.new }
{
    if next_is_unnamed(tokens) {
        let operand = unnamed_operand(alloc, tokens, depth)?;
        return test_end(alloc, tokens, depth, operand);
    }
    if next_is_plain(tokens) {
        let name = plain_name(alloc, tokens)?;
        return after_name(alloc, tokens, depth, name);
    }
    if next_is(tokens, Mark::Date) {
        return date_test(alloc, tokens, depth);
    }
    group_word_test(alloc, tokens, depth)
}

/// A test, or NOT of one.
#[cycle(conditions)]
#[tactic(auto, unfolding(condition_grammar::specs::Conditions::negation))]
pub(crate) fn negation(alloc: Global, tokens: &mut Tokens<'_>, depth: u8) -> Result<Tree, Halt>
    ensures { Parses (reads (at_depth depth) negation tokens.old) result tokens.new }
{
    if !next_is(tokens, Mark::Not) {
        return test(alloc, tokens, depth);
    }
    let word = expect(tokens, Mark::Not)?;
    let operand = test(alloc, tokens, depth)?;
    Ok(negated(alloc, word, operand)?)
}

// The members of AND that come, behind those.
#[cycle(conditions)]
fn more_negations(
    alloc: Global,
    tokens: &mut Tokens<'_>,
    depth: u8,
    mut all: Gathered<PropertyRef>,
) -> Result<Gathered<PropertyRef>, Halt>
    ensures { Parses (gathers m.And (reads (at_depth depth) negation) all tokens.old) result tokens.new }
{
    for turn in 0..tokens.count() {
        if !next_is(tokens, Mark::And) {
            break;
        }
        tokens.skip();
        let item = negation(alloc, tokens, depth)?;
        all = all.with(item)?;
    }
    Ok(all)
}

// The first member of AND, and the others that come.
#[cycle(conditions)]
fn conjunction_from(
    alloc: Global,
    tokens: &mut Tokens<'_>,
    depth: u8,
    first: Tree,
) -> Result<Tree, Halt>
    ensures { Parses (mapped_p (all_of first) (reads (at_depth depth) more_negations) tokens.old) result tokens.new }
{
    if !next_is(tokens, Mark::And) {
        return Ok(first);
    }
    let one = Gathered::one(alloc, first)?;
    let all = more_negations(alloc, tokens, depth, one)?;
    Ok(conjoined(alloc, all)?)
}

#[cycle(conditions)]
#[tactic(auto, unfolding(condition_grammar::specs::Conditions::conjunction))]
fn conjunction(alloc: Global, tokens: &mut Tokens<'_>, depth: u8) -> Result<Tree, Halt>
    ensures { Parses (reads (at_depth depth) conjunction tokens.old) result tokens.new }
{
    let first = negation(alloc, tokens, depth)?;
    conjunction_from(alloc, tokens, depth, first)
}

// The members of OR that come, behind those.
#[cycle(conditions)]
fn more_conjunctions(
    alloc: Global,
    tokens: &mut Tokens<'_>,
    depth: u8,
    mut all: Gathered<PropertyRef>,
) -> Result<Gathered<PropertyRef>, Halt>
    ensures { Parses (gathers m.Or (reads (at_depth depth) conjunction) all tokens.old) result tokens.new }
{
    for turn in 0..tokens.count() {
        if !next_is(tokens, Mark::Or) {
            break;
        }
        tokens.skip();
        let item = conjunction(alloc, tokens, depth)?;
        all = all.with(item)?;
    }
    Ok(all)
}

// The first member of OR, and the others that come.
#[cycle(conditions)]
fn condition_from(
    alloc: Global,
    tokens: &mut Tokens<'_>,
    depth: u8,
    first: Tree,
) -> Result<Tree, Halt>
    ensures { Parses (mapped_p (any_of first) (reads (at_depth depth) more_conjunctions) tokens.old) result tokens.new }
{
    if !next_is(tokens, Mark::Or) {
        return Ok(first);
    }
    let one = Gathered::one(alloc, first)?;
    let all = more_conjunctions(alloc, tokens, depth, one)?;
    Ok(disjoined(alloc, all)?)
}

/// A condition.
#[cycle(conditions)]
#[tactic(auto, unfolding(condition_grammar::specs::Conditions::search_condition))]
pub(crate) fn condition(alloc: Global, tokens: &mut Tokens<'_>, depth: u8) -> Result<Tree, Halt>
    ensures { Parses (reads (at_depth depth) condition tokens.old) result tokens.new }
{
    let first = conjunction(alloc, tokens, depth)?;
    condition_from(alloc, tokens, depth, first)
}

/// A condition whose first member was read.
#[tactic(auto, unfolding(crate::specs::Tests::more_members))]
pub(crate) fn more_members(
    alloc: Global,
    tokens: &mut Tokens<'_>,
    depth: u8,
    first: Tree,
) -> Result<Tree, Halt>
    ensures { Parses (put_p first (reads (at_depth depth) more_members) tokens.old) result tokens.new }
{
    let conjunction = conjunction_from(alloc, tokens, depth, first)?;
    condition_from(alloc, tokens, depth, conjunction)
}
