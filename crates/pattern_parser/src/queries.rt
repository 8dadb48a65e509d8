ghost use Rattle.token_grammar.specs.Rules.Rule.{opt};
ghost use Rattle.token_grammar.specs.Code.{Parses};
ghost use Rattle.pattern_parser.specs.Insides.{Own, parens};
ghost use Rattle.pattern_parser.specs.Queries.{table, semicolon, query_end, query};
ghost use Rattle.pattern_parser.specs.Reading.{reads, at_depth, flat};

use crate::edges::where_part;
use crate::items::items;
use crate::paths::paths;
use condition_nodes::open;
use graph_ast::QueryTree;
use std::alloc::Global;
use token_grammar::Halt;
use token_marks::Mark;
use token_reading::{Tokens, expect, name, next_is, next_is_name, skip_name};

#[tactic(auto, unfolding(crate::specs::Queries::table))]
fn table(alloc: Global, tokens: &mut Tokens<'_>, depth: u8) -> Result<QueryTree, Halt>
    ensures { Parses (reads (at_depth depth) table tokens.old) result tokens.new }
{
    let graph = name(alloc, tokens)?;
    let match_span = expect(tokens, Mark::Match)?;
    let paths = paths(alloc, tokens, depth)?;
    let condition = where_part(alloc, tokens, depth)?;
    expect(tokens, Mark::Columns)?;
    let columns = items(alloc, tokens, depth)?;
    Ok(QueryTree {
        graph,
        match_span,
        paths,
        condition,
        columns,
    })
}

fn graph_table(alloc: Global, tokens: &mut Tokens<'_>, depth: u8) -> Result<QueryTree, Halt>
    ensures { Parses (reads (at_depth depth) (parens Own.table) tokens.old) result tokens.new }
{
    open(tokens, depth)?;
    let content = table(alloc, tokens, depth - 1)?;
    expect(tokens, Mark::RightParenthesis)?;
    Ok(content)
}

#[tactic(auto, unfolding(crate::specs::Queries::query_end))]
fn semicolon(tokens: &mut Tokens<'_>) -> Result<(), Halt>
    ensures { Parses (reads flat semicolon tokens.old) result tokens.new }
{
    if next_is(tokens, Mark::Semicolon) {
        expect(tokens, Mark::Semicolon)?;
    }
    Ok(())
}

#[tactic(auto, unfolding(crate::specs::Queries::query_end))]
fn query_end(tokens: &mut Tokens<'_>) -> Result<(), Halt>
    ensures { Parses (reads flat query_end tokens.old) result tokens.new }
{
    if next_is(tokens, Mark::As) {
        expect(tokens, Mark::As)?;
        skip_name(tokens)?;
        return semicolon(tokens);
    }
    if next_is_name(tokens) {
        skip_name(tokens)?;
        return semicolon(tokens);
    }
    semicolon(tokens)
}

/// A query text, as far as it goes.
#[tactic(auto, unfolding(crate::specs::Queries::query, crate::specs::Queries::query_end))]
pub(crate) fn query(alloc: Global, tokens: &mut Tokens<'_>) -> Result<QueryTree, Halt>
    ensures { Parses (reads (at_depth 64) query tokens.old) result tokens.new }
{
    expect(tokens, Mark::Select)?;
    expect(tokens, Mark::Asterisk)?;
    expect(tokens, Mark::From)?;
    expect(tokens, Mark::GraphTable)?;
    let tree = graph_table(alloc, tokens, 64)?;
    query_end(tokens)?;
    Ok(tree)
}
