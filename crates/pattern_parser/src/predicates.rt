ghost use Rattle.std.specs.Prelude.{◌≡◌, IfOk, length};
ghost use Rattle.condition_grammar.specs.Spans.{span_of};
ghost use Rattle.token_grammar.specs.Code.{Parses, gathered, pushed, after_p};
ghost use Rattle.token_grammar.specs.Rules.{on};
ghost use Rattle.token_grammar.specs.Parser.{one_p};
ghost use Rattle.token_marks.specs.declared.mark.Mark.TheVariants as m;
ghost use Rattle.token_reading.specs.Tokens.{is_mark, span_of as place, class, is_name, named};
ghost use Rattle.condition_nodes.specs.Reading.{ParsesBy};
ghost use Rattle.pattern_parser.specs.Tests.{predicate, not_when, end_of_edge, relation, group_test, grouped, first_of, after_group_word, with_tail, truth_test};
ghost use Rattle.pattern_parser.specs.Reading.{reads, at_depth, flat};
ghost use Rattle.pattern_parser.specs.Conditions.{test_for, related_by, put_p, variables};

use crate::leaves::Tree;
use condition_nodes::{lone, may_be_not, negated, open, reach, span_of, truth_end, word_of};
use expr_tree::Expr;
use graph_ast::{ElementTest, Named, PropertyRef};
use pgq_base::{List, Name, NoMemory, Span};
use std::alloc::Global;
use token_grammar::Halt;
use token_marks::Mark;
use token_reading::{Tokens, expect, name, next_is};

/// Which end of an edge.
#[derive(Clone, Copy, Debug)]
pub(crate) enum EdgeRole {
    Source,
    Destination,
}

/// `IS [ NOT ] SOURCE OF name`, or `DESTINATION`: its last word, and the edge.
#[derive(Debug, Drop)]
pub(crate) struct RelationTail {
    pub negated: bool,
    pub role: EdgeRole,
    pub word: Named,
    pub edge: Named,
}

fn copied(alloc: Global, it: &Named) -> Result<Named, NoMemory>
    ensures { IfOk result (λ n. n ≡ it.now) }
{
    let name = it.name.copy(alloc)?;
    let span = it.span;
    Ok(Named { name, span })
}

fn predicate(
    alloc: Global,
    span: Span,
    variable: Named,
    word: Named,
    test: ElementTest,
) -> Result<Tree, NoMemory>
    ensures { IfOk result (λ c. c ≡ predicate span variable word test) }
{
    let property = word;
    let test = Some(test);
    lone(
        alloc,
        span,
        Expr::Leaf(PropertyRef {
            variable,
            property,
            test,
        }),
    )
}

fn not_when(alloc: Global, is_negated: bool, c: Tree) -> Result<Tree, NoMemory>
    ensures { IfOk result (λ r. r ≡ not_when is_negated (span_of c) c) }
{
    if !is_negated {
        return Ok(c);
    }
    let span = span_of(&c);
    negated(alloc, span, c)
}

fn test_for(role: EdgeRole, vertex: Named, edge: Named) -> ElementTest
    ensures { result ≡ test_for role vertex edge }
{
    match role {
        EdgeRole::Source => ElementTest::SourceOf(vertex, edge),
        EdgeRole::Destination => ElementTest::DestinationOf(vertex, edge),
    }
}

fn related(alloc: Global, relation: RelationTail, vertex: Named) -> Result<Tree, NoMemory>
    ensures { IfOk result (λ c. c ≡ related_by relation vertex) }
{
    let span = reach(vertex.span, relation.edge.span);
    let variable = copied(alloc, &vertex)?;
    let test = test_for(relation.role, vertex, relation.edge);
    let leaf = predicate(alloc, span, variable, relation.word, test)?;
    not_when(alloc, relation.negated, leaf)
}

#[tactic(auto, unfolding(crate::specs::Tests::relation, crate::specs::Tests::end_of_edge))]
fn relation(alloc: Global, tokens: &mut Tokens<'_>) -> Result<RelationTail, Halt>
    ensures { ParsesBy related_by (reads flat relation tokens.old) result tokens.new }
{
    expect(tokens, Mark::Is)?;
    let negated = may_be_not(tokens)?;
    if next_is(tokens, Mark::Source) {
        let word = word_of(alloc, tokens, Mark::Source)?;
        expect(tokens, Mark::Of)?;
        let edge = name(alloc, tokens)?;
        let role = EdgeRole::Source;
        return Ok(RelationTail {
            negated,
            role,
            word,
            edge,
        });
    }
    let word = word_of(alloc, tokens, Mark::Destination)?;
    expect(tokens, Mark::Of)?;
    let edge = name(alloc, tokens)?;
    let role = EdgeRole::Destination;
    Ok(RelationTail {
        negated,
        role,
        word,
        edge,
    })
}

/// `IS [ NOT ] SOURCE OF name`, or `DESTINATION`, behind the name of a vertex, and what makes a test of it.
#[tactic(auto, unfolding(condition_grammar::specs::Conditions::truth_test))]
pub(crate) fn relation_test(
    alloc: Global,
    tokens: &mut Tokens<'_>,
    vertex: Named,
) -> Result<Tree, Halt>
    ensures { Parses (put_p vertex (reads flat (with_tail truth_test relation)) tokens.old) result tokens.new }
{
    let relation = relation(alloc, tokens)?;
    let predicate = related(alloc, relation, vertex)?;
    truth_end(alloc, tokens, predicate)
}

fn first_of(alloc: Global, word: &Named, variables: &[Named]) -> Result<Named, NoMemory>
    ensures { IfOk result (λ n. n ≡ first_of word.now variables.now) }
{
    match variables.first() {
        Some(variable) => copied(alloc, variable),
        None => copied(alloc, word),
    }
}

fn group_test(word: &Name, variables: List<Named>) -> ElementTest
    ensures { result ≡ group_test word.now variables }
{
    if word.as_bytes() == b"SAME".as_slice() {
        return ElementTest::Same(variables);
    }
    ElementTest::AllDifferent(variables)
}

fn grouped(
    alloc: Global,
    variables: List<Named>,
    closing: Span,
    word: Named,
) -> Result<Tree, NoMemory>
    ensures { IfOk result (λ c. c ≡ grouped variables closing word) }
{
    let span = reach(word.span, closing);
    let first = first_of(alloc, &word, variables.as_slice())?;
    let test = group_test(&word.name, variables);
    predicate(alloc, span, first, word, test)
}

// The names that come, each behind a comma, behind those.
fn more_names(
    alloc: Global,
    tokens: &mut Tokens<'_>,
    mut all: List<Named>,
) -> Result<List<Named>, Halt>
    ensures { Parses (gathered (is_mark m.Comma) (after_p (is_mark m.Comma) place (one_p (on class is_name) named)) pushed (length tokens.old) all tokens.old) result tokens.new }
{
    for turn in 0..tokens.count() {
        if !next_is(tokens, Mark::Comma) {
            break;
        }
        tokens.skip();
        let item = name(alloc, tokens)?;
        all.push(item)?;
    }
    Ok(all)
}

// Names, two or more.
fn variables(alloc: Global, tokens: &mut Tokens<'_>) -> Result<List<Named>, Halt>
    ensures { Parses (reads flat variables tokens.old) result tokens.new }
{
    let first = name(alloc, tokens)?;
    let mut all = List::new(alloc);
    all.push(first)?;
    expect(tokens, Mark::Comma)?;
    let second = name(alloc, tokens)?;
    all.push(second)?;
    more_names(alloc, tokens, all)
}

/// The variables of SAME or ALL_DIFFERENT in parentheses, behind that word, and what makes a test of it.
#[tactic(auto, unfolding(crate::specs::Tests::after_group_word, condition_grammar::specs::Conditions::truth_test), using(crate::proofs::Nests::nest_is))]
pub(crate) fn group(
    alloc: Global,
    tokens: &mut Tokens<'_>,
    depth: u8,
    word: Named,
) -> Result<Tree, Halt>
    ensures { Parses (put_p word (reads (at_depth depth) after_group_word) tokens.old) result tokens.new }
{
    open(tokens, depth)?;
    let variables = variables(alloc, tokens)?;
    let closing = expect(tokens, Mark::RightParenthesis)?;
    let predicate = grouped(alloc, variables, closing, word)?;
    truth_end(alloc, tokens, predicate)
}
