ghost use Rattle.std.specs.Prelude.{◌≡◌, IfOk};
ghost use Rattle.token_grammar.specs.Rules.{on};
ghost use Rattle.token_grammar.specs.Checks.{first};
ghost use Rattle.token_grammar.specs.Parser.{heads};
ghost use Rattle.token_grammar.specs.Code.{Parses};
ghost use Rattle.token_reading.specs.Tokens.{class};
ghost use Rattle.condition_nodes.specs.Reading.{ParsesBy};
ghost use Rattle.pattern_parser.specs.Tests.{dotted, date_text, own_operand};
ghost use Rattle.pattern_parser.specs.Reading.{reads, flat};
ghost use Rattle.pattern_parser.specs.Conditions.{leaf_node, dotted_of, put_p};

use condition_grammar::Spanned;
use condition_nodes::{lone, next_is_undated, reach, undated_name, word_of};
use expr_tree::Expr;
use graph_ast::{Named, PropertyRef};
use pgq_base::NoMemory;
use std::alloc::Global;
use token_grammar::Halt;
use token_marks::Mark;
use token_reading::{Tokens, expect, name, next_is};

/// A condition, with the spans of its nodes.
pub(crate) type Tree = Spanned<PropertyRef>;

/// The leaf of a property.
pub(crate) fn leaf_node(alloc: Global, variable: Named, property: Named) -> Result<Tree, NoMemory>
    ensures { IfOk result (λ c. c ≡ leaf_node variable property) }
{
    let span = reach(variable.span, property.span);
    let test = None;
    lone(
        alloc,
        span,
        Expr::Leaf(PropertyRef {
            variable,
            property,
            test,
        }),
    )
}

/// `. name`, behind the name of a variable.
#[tactic(auto, unfolding(condition_grammar::specs::Conditions::dotted))]
pub(crate) fn property(alloc: Global, tokens: &mut Tokens<'_>) -> Result<Named, Halt>
    ensures { ParsesBy dotted_of (reads flat dotted tokens.old) result tokens.new }
{
    expect(tokens, Mark::Period)?;
    name(alloc, tokens)
}

/// The literal of a date, behind the word DATE.
pub(crate) fn date(alloc: Global, tokens: &mut Tokens<'_>, word: Named) -> Result<Tree, Halt>
    ensures { Parses (put_p word (reads flat date_text) tokens.old) result tokens.new }
{
    condition_nodes::date_text(alloc, tokens, word.span)
}

/// Whether a leaf or the literal of a date is next.
#[tactic(auto, unfolding(condition_grammar::specs::Conditions::leaf_or_date))]
pub(crate) fn next_is_own_operand(tokens: &Tokens<'_>) -> bool
    ensures { result ≡ heads (on class (first own_operand)) tokens.now }
{
    next_is_undated(tokens) || next_is(tokens, Mark::Date)
}

/// A leaf, or the literal of a date.
#[tactic(auto, unfolding(condition_grammar::specs::Conditions::leaf_or_date, condition_grammar::specs::Conditions::dotted, condition_grammar::specs::Conditions::date_text))]
pub(crate) fn own_operand(alloc: Global, tokens: &mut Tokens<'_>) -> Result<Tree, Halt>
    ensures { Parses (reads flat own_operand tokens.old) result tokens.new }
{
    if next_is_undated(tokens) {
        let variable = undated_name(alloc, tokens)?;
        let property = property(alloc, tokens)?;
        return Ok(leaf_node(alloc, variable, property)?);
    }
    let word = word_of(alloc, tokens, Mark::Date)?;
    if next_is(tokens, Mark::Period) {
        let property = property(alloc, tokens)?;
        return Ok(leaf_node(alloc, word, property)?);
    }
    date(alloc, tokens, word)
}
