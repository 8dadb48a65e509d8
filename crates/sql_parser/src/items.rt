ghost use Rattle.std.specs.Prelude.{◌≡◌};
ghost use Rattle.token_grammar.specs.Rules.{on};
ghost use Rattle.token_grammar.specs.Checks.{first};
ghost use Rattle.token_grammar.specs.Parser.{heads};
ghost use Rattle.token_grammar.specs.Code.{Parses, after_p};
ghost use Rattle.token_marks.specs.declared.mark.Mark.TheVariants as m;
ghost use Rattle.token_reading.specs.Tokens.{class, is_mark, span_of};
ghost use Rattle.sql_algebra.specs.Grammar.{column, table, joined, member};
ghost use Rattle.sql_parser.specs.Reading.{reads, at_depth, flat};
ghost use Rattle.sql_parser.specs.Selects.{next_item};

use crate::conditions::{condition, negation};
use crate::lists::{Listed, list};
use crate::operands::Condition;
use sql_algebra::{ColumnText, ItemText};
use std::alloc::Global;
use token_grammar::Halt;
use token_marks::Mark;
use token_reading::{Tokens, expect, name, next_is};

impl Listed for Condition {
    ghost first = { λ depth. reads (at_depth depth) member };

    ghost begins = { is_mark m.And };

    ghost another = { λ depth. after_p (is_mark m.And) span_of (reads (at_depth depth) member) };

    fn read_first(alloc: Global, tokens: &mut Tokens<'_>, depth: u8) -> Result<Condition, Halt> {
        negation(alloc, tokens, depth)
    }

    fn another_is_next(tokens: &Tokens<'_>) -> bool {
        next_is(tokens, Mark::And)
    }

    fn read_another(alloc: Global, tokens: &mut Tokens<'_>, depth: u8) -> Result<Condition, Halt> {
        expect(tokens, Mark::And)?;
        negation(alloc, tokens, depth)
    }
}

// A column of a select, under its name.
#[tactic(auto, unfolding(sql_algebra::specs::Grammar::column))]
fn column(alloc: Global, tokens: &mut Tokens<'_>, depth: u8) -> Result<ColumnText, Halt>
    ensures { Parses (reads (at_depth depth) column tokens.old) result tokens.new }
{
    let value = condition(alloc, tokens, depth)?;
    expect(tokens, Mark::As)?;
    let name = name(alloc, tokens)?;
    Ok(ColumnText { value, name })
}

impl Listed for ColumnText {
    ghost first = { λ depth. reads (at_depth depth) column };

    ghost begins = { is_mark m.Comma };

    ghost another = { λ depth. after_p (is_mark m.Comma) span_of (reads (at_depth depth) column) };

    fn read_first(alloc: Global, tokens: &mut Tokens<'_>, depth: u8) -> Result<ColumnText, Halt> {
        column(alloc, tokens, depth)
    }

    fn another_is_next(tokens: &Tokens<'_>) -> bool {
        next_is(tokens, Mark::Comma)
    }

    fn read_another(alloc: Global, tokens: &mut Tokens<'_>, depth: u8) -> Result<ColumnText, Halt> {
        expect(tokens, Mark::Comma)?;
        column(alloc, tokens, depth)
    }
}

// A table, under its alias.
#[tactic(auto, unfolding(sql_algebra::specs::Grammar::table))]
fn table(alloc: Global, tokens: &mut Tokens<'_>) -> Result<ItemText, Halt>
    ensures { Parses (reads flat table tokens.old) result tokens.new }
{
    let table = name(alloc, tokens)?;
    expect(tokens, Mark::As)?;
    let alias = name(alloc, tokens)?;
    Ok(ItemText {
        table,
        alias,
        on: None,
    })
}

// A table that is joined, with its ON.
#[tactic(auto, unfolding(sql_algebra::specs::Grammar::joined, sql_algebra::specs::Grammar::table))]
fn joined(alloc: Global, tokens: &mut Tokens<'_>, depth: u8) -> Result<ItemText, Halt>
    ensures { Parses (reads (at_depth depth) joined tokens.old) result tokens.new }
{
    expect(tokens, Mark::Join)?;
    let item = table(alloc, tokens)?;
    expect(tokens, Mark::On)?;
    let on = list::<Condition>(alloc, tokens, depth)?;
    Ok(ItemText {
        table: item.table,
        alias: item.alias,
        on: Some(on),
    })
}

// A table behind the first: joined, or the next one of the list.
#[tactic(auto, unfolding(sql_algebra::specs::Grammar::joined, sql_algebra::specs::Grammar::next_chain, sql_algebra::specs::Grammar::table))]
fn next_item(alloc: Global, tokens: &mut Tokens<'_>, depth: u8) -> Result<ItemText, Halt>
    ensures { Parses (reads (at_depth depth) next_item tokens.old) result tokens.new }
{
    if next_is(tokens, Mark::Join) {
        return joined(alloc, tokens, depth);
    }
    expect(tokens, Mark::Comma)?;
    table(alloc, tokens)
}

#[tactic(auto, unfolding(sql_algebra::specs::Grammar::joined, sql_algebra::specs::Grammar::next_chain))]
fn next_is_item(tokens: &Tokens<'_>) -> bool
    ensures { result ≡ heads (on class (first next_item)) tokens.now }
{
    next_is(tokens, Mark::Join) || next_is(tokens, Mark::Comma)
}

impl Listed for ItemText {
    ghost first = { λ depth. reads flat table };

    ghost begins = { on class (first next_item) };

    ghost another = { λ depth. reads (at_depth depth) next_item };

    fn read_first(alloc: Global, tokens: &mut Tokens<'_>, depth: u8) -> Result<ItemText, Halt> {
        table(alloc, tokens)
    }

    fn another_is_next(tokens: &Tokens<'_>) -> bool {
        next_is_item(tokens)
    }

    fn read_another(alloc: Global, tokens: &mut Tokens<'_>, depth: u8) -> Result<ItemText, Halt> {
        next_item(alloc, tokens, depth)
    }
}
