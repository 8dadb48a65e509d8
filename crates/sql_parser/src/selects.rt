ghost use Rattle.std.specs.Prelude.{◌≡◌, IfOk};
ghost use Rattle.token_grammar.specs.Parser.{mapped_p, seq_p, one_p};
ghost use Rattle.token_grammar.specs.Code.{Parses};
ghost use Rattle.token_marks.specs.declared.mark.Mark.TheVariants as m;
ghost use Rattle.token_reading.specs.Tokens.{is_mark, span_of};
ghost use Rattle.sql_algebra.specs.declared.text.ConjunctText.TheVariants.{NotExists as IsNotExists};
ghost use Rattle.sql_algebra.specs.Grammar.{exists, conjunct, where_part, select, sql};
ghost use Rattle.sql_parser.specs.Reading.{reads, at_depth};
ghost use Rattle.sql_parser.specs.Selects.{conjuncts};

use crate::conditions::test;
use crate::lists::{Listed, list};
use condition_nodes::{negated, open};
use pgq_base::{List, NoMemory};
use sql_algebra::{ColumnText, ConjunctText, ItemText, SelectText, SqlText};
use sqlite_items::Boxed;
use std::alloc::Global;
use token_grammar::Halt;
use token_marks::Mark;
use token_reading::{Tokens, expect, next_is};

fn not_exists(alloc: Global, inner: SelectText) -> Result<ConjunctText, NoMemory>
    ensures { IfOk result (λ c. c ≡ IsNotExists inner) }
{
    let boxed = Boxed::new(alloc, inner)?;
    Ok(ConjunctText::NotExists(boxed))
}

// `EXISTS ( select )`
#[cycle(selects)]
#[tactic(auto, unfolding(sql_algebra::specs::Grammar::exists), using(crate::proofs::Nests::nest_is))]
fn exists(alloc: Global, tokens: &mut Tokens<'_>, depth: u8) -> Result<SelectText, Halt>
    ensures { Parses (reads (at_depth depth) exists tokens.old) result tokens.new }
{
    expect(tokens, Mark::Exists)?;
    open(tokens, depth)?;
    let inner = select(alloc, tokens, depth - 1)?;
    expect(tokens, Mark::RightParenthesis)?;
    Ok(inner)
}

// A member of WHERE.
#[cycle(selects)]
#[tactic(auto, unfolding(sql_algebra::specs::Grammar::conjunct, sql_algebra::specs::Grammar::after_not, sql_algebra::specs::Grammar::exists))]
fn conjunct(alloc: Global, tokens: &mut Tokens<'_>, depth: u8) -> Result<ConjunctText, Halt>
    ensures { Parses (reads (at_depth depth) conjunct tokens.old) result tokens.new }
{
    if !next_is(tokens, Mark::Not) {
        let value = test(alloc, tokens, depth)?;
        return Ok(ConjunctText::Plain(value));
    }
    let word = expect(tokens, Mark::Not)?;
    if next_is(tokens, Mark::Exists) {
        let inner = exists(alloc, tokens, depth)?;
        return Ok(not_exists(alloc, inner)?);
    }
    let value = test(alloc, tokens, depth)?;
    let value = negated(alloc, word, value)?;
    Ok(ConjunctText::Plain(value))
}

#[cycle(selects)]
fn conjuncts(alloc: Global, tokens: &mut Tokens<'_>, depth: u8) -> Result<List<ConjunctText>, Halt>
    ensures { Parses (reads (at_depth depth) conjuncts tokens.old) result tokens.new }
{
    let first = conjunct(alloc, tokens, depth)?;
    let mut all = List::new(alloc);
    all.push(first)?;
    for turn in 0..tokens.count() {
        if !next_is(tokens, Mark::And) {
            break;
        }
        tokens.skip();
        let item = conjunct(alloc, tokens, depth)?;
        all.push(item)?;
    }
    Ok(all)
}

#[cycle(selects)]
#[tactic(auto, unfolding(sql_algebra::specs::Grammar::where_part))]
fn where_part(alloc: Global, tokens: &mut Tokens<'_>, depth: u8) -> Result<List<ConjunctText>, Halt>
    ensures { Parses (reads (at_depth depth) where_part tokens.old) result tokens.new }
{
    if !next_is(tokens, Mark::Where) {
        return Ok(List::new(alloc));
    }
    expect(tokens, Mark::Where)?;
    conjuncts(alloc, tokens, depth)
}

#[cycle(selects)]
#[tactic(auto, unfolding(sql_algebra::specs::Grammar::select, sql_algebra::specs::Grammar::from_list, sql_algebra::specs::Grammar::table))]
fn select(alloc: Global, tokens: &mut Tokens<'_>, depth: u8) -> Result<SelectText, Halt>
    ensures { Parses (reads (at_depth depth) select tokens.old) result tokens.new }
{
    let word = expect(tokens, Mark::Select)?;
    let columns = list::<ColumnText>(alloc, tokens, depth)?;
    expect(tokens, Mark::From)?;
    let from = list::<ItemText>(alloc, tokens, depth)?;
    let conjuncts = where_part(alloc, tokens, depth)?;
    Ok(SelectText {
        word,
        columns,
        from,
        conjuncts,
    })
}

impl Listed for SelectText {
    ghost first = { λ depth. reads (at_depth depth) select };

    ghost begins = { is_mark m.Union };

    ghost another = { λ depth. mapped_p (λ d. d.1.1) (seq_p (one_p (is_mark m.Union) span_of) (seq_p (one_p (is_mark m.All) span_of) (reads (at_depth depth) select))) };

    fn read_first(alloc: Global, tokens: &mut Tokens<'_>, depth: u8) -> Result<SelectText, Halt> {
        select(alloc, tokens, depth)
    }

    fn another_is_next(tokens: &Tokens<'_>) -> bool {
        next_is(tokens, Mark::Union)
    }

    fn read_another(alloc: Global, tokens: &mut Tokens<'_>, depth: u8) -> Result<SelectText, Halt> {
        expect(tokens, Mark::Union)?;
        expect(tokens, Mark::All)?;
        select(alloc, tokens, depth)
    }
}

/// An SQL text, as far as it goes.
#[tactic(auto, unfolding(sql_algebra::specs::Grammar::sql))]
pub(crate) fn sql(alloc: Global, tokens: &mut Tokens<'_>) -> Result<SqlText, Halt>
    ensures { Parses (reads (at_depth 128) sql tokens.old) result tokens.new }
{
    let selects = list::<SelectText>(alloc, tokens, 128)?;
    if next_is(tokens, Mark::Semicolon) {
        expect(tokens, Mark::Semicolon)?;
    }
    Ok(SqlText { selects })
}
