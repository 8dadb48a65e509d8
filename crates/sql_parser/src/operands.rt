ghost use Rattle.std.specs.Prelude.{◌≡◌, IfOk};
ghost use Rattle.token_grammar.specs.Rules.{on, the_token};
ghost use Rattle.token_grammar.specs.Checks.{first};
ghost use Rattle.token_grammar.specs.Parser.{heads, mapped_p, one_p};
ghost use Rattle.token_grammar.specs.Code.{Parses};
ghost use Rattle.token_marks.specs.declared.mark.Mark.TheVariants as m;
ghost use Rattle.token_reading.specs.Tokens.{class, is_mark, number_in};
ghost use Rattle.condition_nodes.specs.Reading.{ParsesBy};
ghost use Rattle.sql_algebra.specs.Grammar.{leaf, cast, cast_type, null_as, own_operand};
ghost use Rattle.sql_parser.specs.Reading.{reads, at_depth, flat};
ghost use Rattle.sql_parser.specs.Operands.{dotted, dotted_of, leaf_node};

use condition_grammar::Spanned;
use condition_nodes::{date_text, lone, next_is_undated, open, reach, undated_name, word_of};
use expr_tree::Expr;
use graph_ast::Named;
use pgq_base::{Class, NoMemory};
use sql_algebra::ColumnRef;
use std::alloc::Global;
use token_grammar::Halt;
use token_marks::Mark;
use token_reading::{Tokens, expect, name, next_is, number};

/// A condition of an SQL text.
pub(crate) type Condition = Spanned<ColumnRef>;

fn leaf_node(alloc: Global, alias: Named, column: Named) -> Result<Condition, NoMemory>
    ensures { IfOk result (λ c. c ≡ leaf_node alias column) }
{
    let span = reach(alias.span, column.span);
    lone(alloc, span, Expr::Leaf(ColumnRef { alias, column }))
}

// `. name`, behind an alias.
#[tactic(auto, unfolding(condition_grammar::specs::Conditions::dotted))]
fn column(alloc: Global, tokens: &mut Tokens<'_>) -> Result<Named, Halt>
    ensures { ParsesBy dotted_of (reads flat dotted tokens.old) result tokens.new }
{
    expect(tokens, Mark::Period)?;
    name(alloc, tokens)
}

// `name . name`, or the literal of a date.
#[tactic(auto, unfolding(condition_grammar::specs::Conditions::leaf_or_date, condition_grammar::specs::Conditions::dotted, condition_grammar::specs::Conditions::date_text))]
fn leaf(alloc: Global, tokens: &mut Tokens<'_>) -> Result<Condition, Halt>
    ensures { Parses (reads flat leaf tokens.old) result tokens.new }
{
    if next_is_undated(tokens) {
        let alias = undated_name(alloc, tokens)?;
        let column = column(alloc, tokens)?;
        return Ok(leaf_node(alloc, alias, column)?);
    }
    let word = word_of(alloc, tokens, Mark::Date)?;
    if next_is(tokens, Mark::Period) {
        let column = column(alloc, tokens)?;
        return Ok(leaf_node(alloc, word, column)?);
    }
    date_text(alloc, tokens, word.span)
}

fn length(tokens: &mut Tokens<'_>) -> Result<u64, Halt>
    ensures { Parses (mapped_p (λ t. number_in t.kind) (one_p (is_mark m.Number) the_token) tokens.old) result tokens.new }
{
    let (number, _) = number(tokens)?;
    Ok(number)
}

// `BIGINT`, `BOOLEAN`, `VARCHAR ( number )` or `DATE`.
#[tactic(auto, unfolding(sql_algebra::specs::Grammar::cast_type), using(crate::proofs::Nests::nest_is))]
fn cast_type(tokens: &mut Tokens<'_>, depth: u8) -> Result<Class, Halt>
    ensures { Parses (reads (at_depth depth) cast_type tokens.old) result tokens.new }
{
    if next_is(tokens, Mark::Bigint) {
        expect(tokens, Mark::Bigint)?;
        return Ok(Class::Number);
    }
    if next_is(tokens, Mark::Boolean) {
        expect(tokens, Mark::Boolean)?;
        return Ok(Class::Truth);
    }
    if next_is(tokens, Mark::Varchar) {
        expect(tokens, Mark::Varchar)?;
        open(tokens, depth)?;
        length(tokens)?;
        expect(tokens, Mark::RightParenthesis)?;
        return Ok(Class::Text);
    }
    expect(tokens, Mark::Date)?;
    Ok(Class::Date)
}

#[tactic(auto, unfolding(sql_algebra::specs::Grammar::null_as))]
fn null_as(tokens: &mut Tokens<'_>, depth: u8) -> Result<Class, Halt>
    ensures { Parses (reads (at_depth depth) null_as tokens.old) result tokens.new }
{
    expect(tokens, Mark::Null)?;
    expect(tokens, Mark::As)?;
    cast_type(tokens, depth)
}

// `CAST ( NULL AS .. )`
#[tactic(auto, unfolding(sql_algebra::specs::Grammar::cast), using(crate::proofs::Nests::nest_is))]
fn cast(alloc: Global, tokens: &mut Tokens<'_>, depth: u8) -> Result<Condition, Halt>
    ensures { Parses (reads (at_depth depth) cast tokens.old) result tokens.new }
{
    let word = expect(tokens, Mark::Cast)?;
    open(tokens, depth)?;
    let class = null_as(tokens, depth - 1)?;
    let closing = expect(tokens, Mark::RightParenthesis)?;
    Ok(lone(alloc, reach(word, closing), Expr::Null(class))?)
}

#[tactic(auto, unfolding(condition_grammar::specs::Conditions::leaf_or_date))]
fn next_is_leaf(tokens: &Tokens<'_>) -> bool
    ensures { result ≡ heads (on class (first leaf)) tokens.now }
{
    next_is_undated(tokens) || next_is(tokens, Mark::Date)
}

/// Whether an operand that conditions do not have elsewhere is next.
#[tactic(auto, unfolding(sql_algebra::specs::Grammar::own_operand, sql_algebra::specs::Grammar::cast, condition_grammar::specs::Conditions::leaf_or_date))]
pub(crate) fn next_is_own_operand(tokens: &Tokens<'_>) -> bool
    ensures { result ≡ heads (on class (first own_operand)) tokens.now }
{
    next_is_leaf(tokens) || next_is(tokens, Mark::Cast)
}

/// An operand that conditions do not have elsewhere: a leaf, the literal of a date, or a typed Null.
#[tactic(auto, unfolding(sql_algebra::specs::Grammar::own_operand, condition_grammar::specs::Conditions::leaf_or_date, condition_grammar::specs::Conditions::dotted, condition_grammar::specs::Conditions::date_text))]
pub(crate) fn own_operand(
    alloc: Global,
    tokens: &mut Tokens<'_>,
    depth: u8,
) -> Result<Condition, Halt>
    ensures { Parses (reads (at_depth depth) own_operand tokens.old) result tokens.new }
{
    if next_is_leaf(tokens) {
        return leaf(alloc, tokens);
    }
    cast(alloc, tokens, depth)
}
