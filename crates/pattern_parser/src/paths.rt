ghost use Rattle.std.specs.Prelude.{◌≡◌};
ghost use Rattle.token_grammar.specs.Rules.Rule.{opt};
ghost use Rattle.token_grammar.specs.Code.{Parses};
ghost use Rattle.token_marks.specs.declared.mark.Mark.TheVariants as m;
ghost use Rattle.pattern_parser.specs.Insides.{name as some_name, the, before};
ghost use Rattle.pattern_parser.specs.Patterns.{prefix, path, path_from, path_of};
ghost use Rattle.pattern_parser.specs.Reading.{reads, reads_list, at_depth, flat};

use crate::patterns::union;
use crate::pieces::{Placed, Prefix};
use crate::prefixes::{next_is_prefix, prefix};
use graph_ast::{Named, PathTree, Union};
use pgq_base::{List, Span};
use std::alloc::Global;
use token_grammar::Halt;
use token_marks::Mark;
use token_reading::{Tokens, expect, name, next_is, next_is_name};

fn path_variable(alloc: Global, tokens: &mut Tokens<'_>) -> Result<Option<Named>, Halt>
    ensures { Parses (reads flat (opt (before some_name (the m.Equals))) tokens.old) result tokens.new }
{
    if !next_is_name(tokens) {
        return Ok(None);
    }
    let name = name(alloc, tokens)?;
    expect(tokens, Mark::Equals)?;
    Ok(Some(name))
}

#[tactic(auto, unfolding(crate::specs::Patterns::prefix, crate::specs::Patterns::mode_part, crate::specs::Patterns::mode, crate::specs::Patterns::all_prefix, crate::specs::Patterns::any_prefix, crate::specs::Patterns::shortest_prefix))]
fn prefix_if(tokens: &mut Tokens<'_>) -> Result<Option<Prefix>, Halt>
    ensures { Parses (reads flat (opt prefix) tokens.old) result tokens.new }
{
    if !next_is_prefix(tokens) {
        return Ok(None);
    }
    let prefix = prefix(tokens)?;
    Ok(Some(prefix))
}

fn path_from(variable: &Option<Named>, prefix: &Option<Prefix>, body: Span) -> u32
    ensures { result ≡ path_from variable.now prefix.now body }
{
    match variable {
        Some(variable) => variable.span.from,
        None => match prefix {
            Some(prefix) => prefix.from,
            None => body.from,
        },
    }
}

fn path_of(variable: Option<Named>, prefix: Option<Prefix>, body: Placed<Union>) -> PathTree
    ensures { result ≡ path_of variable prefix body }
{
    let from = path_from(&variable, &prefix, body.span);
    let span = Span {
        from,
        to: body.span.to,
    };
    match prefix {
        None => PathTree {
            variable,
            selector: None,
            mode: None,
            body: body.node,
            span,
        },
        Some(prefix) => PathTree {
            variable,
            selector: prefix.selector,
            mode: prefix.mode,
            body: body.node,
            span,
        },
    }
}

#[tactic(auto, unfolding(crate::specs::Patterns::path))]
fn path(alloc: Global, tokens: &mut Tokens<'_>, depth: u8) -> Result<PathTree, Halt>
    ensures { Parses (reads (at_depth depth) path tokens.old) result tokens.new }
{
    let variable = path_variable(alloc, tokens)?;
    let prefix = prefix_if(tokens)?;
    let body = union(alloc, tokens, depth)?;
    Ok(path_of(variable, prefix, body))
}

/// Paths, with commas between them.
pub(crate) fn paths(
    alloc: Global,
    tokens: &mut Tokens<'_>,
    depth: u8,
) -> Result<List<PathTree>, Halt>
    ensures { Parses (reads_list (reads (at_depth depth) path) tokens.old) result tokens.new }
{
    let first = path(alloc, tokens, depth)?;
    let mut all = List::new(alloc);
    all.push(first)?;
    for turn in 0..tokens.count() {
        if !next_is(tokens, Mark::Comma) {
            break;
        }
        tokens.skip();
        let item = path(alloc, tokens, depth)?;
        all.push(item)?;
    }
    Ok(all)
}
