ghost use Rattle.std.specs.Prelude.{◌≡◌, IfOk, length};
ghost use Rattle.token_grammar.specs.Rules.{on};
ghost use Rattle.token_grammar.specs.Parser.{heads, one_p};
ghost use Rattle.token_grammar.specs.Code.{Parses, gathered, pushed, after_p};
ghost use Rattle.token_marks.specs.declared.mark.Mark.TheVariants as m;
ghost use Rattle.token_reading.specs.Tokens.{class, is_mark, span_of, named};
ghost use Rattle.pattern_parser.specs.Insides.{Own, parens, condition_of};
ghost use Rattle.pattern_parser.specs.Queries.{alias, item_of, gather_of, count_gather, is_leaf_word, kind_of, leaf_gather, counted, property, item_rest, after_word, item};
ghost use Rattle.pattern_parser.specs.Reading.{reads, at_depth, flat, reads_list};
ghost use Rattle.pattern_parser.specs.Conditions.{put_p};
ghost use Rattle.pattern_parser.specs.Items.{count_item, leaf_item};

use crate::conditions::{after_name, more_members, negation};
use crate::leaves::Tree;
use crate::pieces::Counted;
use condition_nodes::{lone, open, reach, span_of, word_of};
use expr_tree::Expr;
use graph_ast::{Condition, GatherDef, GatherKind, Item, Named};
use pgq_base::{List, Name, NoMemory, Span, Value};
use std::alloc::Global;
use token_grammar::Halt;
use token_marks::Mark;
use token_reading::{Tokens, UNEXPECTED, expect, name, next_is};

fn condition_of(c: Tree) -> Condition
    ensures { result ≡ condition_of c }
{
    let tree = c.tree;
    let spans = c.spans;
    Condition { tree, spans }
}

fn item_of(c: Tree, name: Option<Named>) -> Item
    ensures { result ≡ item_of c name }
{
    let span = span_of(&c);
    let value = condition_of(c);
    let gather = None;
    Item {
        value,
        name,
        span,
        gather,
    }
}

fn gather_of(
    alloc: Global,
    kind: GatherKind,
    counted: Counted,
    closing: Span,
    name: Named,
    word: Named,
) -> Result<Item, NoMemory>
    ensures { IfOk result (λ item. item ≡ gather_of kind counted closing name word) }
{
    let span = reach(word.span, closing);
    let one = lone(alloc, span, Expr::Lit(Value::Number(1)))?;
    let value = condition_of(one);
    let name = Some(name);
    let variable = counted.variable;
    let property = counted.property;
    let gather = Some(GatherDef {
        kind,
        variable,
        property,
    });
    Ok(Item {
        value,
        name,
        span,
        gather,
    })
}

fn kind_of(word: &Name) -> GatherKind
    ensures { result ≡ kind_of word.now }
{
    if word.as_bytes() == b"MIN".as_slice() {
        return GatherKind::Min;
    }
    if word.as_bytes() == b"MAX".as_slice() {
        return GatherKind::Max;
    }
    GatherKind::Sum
}

fn next_is_leaf_word(tokens: &Tokens<'_>) -> bool
    ensures { result ≡ heads (on class is_leaf_word) tokens.now }
{
    next_is(tokens, Mark::Min) || next_is(tokens, Mark::Max) || next_is(tokens, Mark::Sum)
}

// MIN, MAX or SUM.
fn leaf_word(alloc: Global, tokens: &mut Tokens<'_>) -> Result<Named, Halt>
    ensures { Parses (one_p (on class is_leaf_word) named tokens.old) result tokens.new }
{
    if !next_is_leaf_word(tokens) {
        return Err(UNEXPECTED);
    }
    name(alloc, tokens)
}

#[tactic(auto, unfolding(crate::specs::Queries::alias))]
fn alias(alloc: Global, tokens: &mut Tokens<'_>) -> Result<Option<Named>, Halt>
    ensures { Parses (reads flat alias tokens.old) result tokens.new }
{
    if !next_is(tokens, Mark::As) {
        return Ok(None);
    }
    expect(tokens, Mark::As)?;
    let name = name(alloc, tokens)?;
    Ok(Some(name))
}

// What COUNT gathers.
#[tactic(auto, unfolding(crate::specs::Queries::counted))]
fn counted(alloc: Global, tokens: &mut Tokens<'_>) -> Result<Counted, Halt>
    ensures { Parses (reads flat counted tokens.old) result tokens.new }
{
    let variable = name(alloc, tokens)?;
    if !next_is(tokens, Mark::Period) {
        let property = None;
        return Ok(Counted { variable, property });
    }
    expect(tokens, Mark::Period)?;
    let property = Some(name(alloc, tokens)?);
    Ok(Counted { variable, property })
}

// What MIN, MAX and SUM gather.
#[tactic(auto, unfolding(crate::specs::Queries::property))]
fn property(alloc: Global, tokens: &mut Tokens<'_>) -> Result<Counted, Halt>
    ensures { Parses (reads flat property tokens.old) result tokens.new }
{
    let variable = name(alloc, tokens)?;
    expect(tokens, Mark::Period)?;
    let property = Some(name(alloc, tokens)?);
    Ok(Counted { variable, property })
}

// What follows COUNT that gathers.
#[tactic(auto, unfolding(crate::specs::Queries::count_gather, crate::specs::Queries::counted), using(crate::proofs::Nests::nest_is))]
fn count_gather(
    alloc: Global,
    tokens: &mut Tokens<'_>,
    depth: u8,
    word: Named,
) -> Result<Item, Halt>
    ensures { Parses (put_p word (reads (at_depth depth) count_gather) tokens.old) result tokens.new }
{
    open(tokens, depth)?;
    let counted = counted(alloc, tokens)?;
    let closing = expect(tokens, Mark::RightParenthesis)?;
    expect(tokens, Mark::As)?;
    let name = name(alloc, tokens)?;
    let kind = GatherKind::Count;
    Ok(gather_of(alloc, kind, counted, closing, name, word)?)
}

// What follows MIN, MAX or SUM that gathers.
#[tactic(auto, unfolding(crate::specs::Queries::leaf_gather, crate::specs::Queries::property), using(crate::proofs::Nests::nest_is))]
fn leaf_gather(alloc: Global, tokens: &mut Tokens<'_>, depth: u8, word: Named) -> Result<Item, Halt>
    ensures { Parses (put_p word (reads (at_depth depth) leaf_gather) tokens.old) result tokens.new }
{
    open(tokens, depth)?;
    let leaf = property(alloc, tokens)?;
    let closing = expect(tokens, Mark::RightParenthesis)?;
    expect(tokens, Mark::As)?;
    let name = name(alloc, tokens)?;
    let kind = kind_of(&word.name);
    Ok(gather_of(alloc, kind, leaf, closing, name, word)?)
}

// The rest of an item that is a condition whose first member was read.
#[tactic(auto, unfolding(crate::specs::Queries::item_rest))]
fn item_rest(alloc: Global, tokens: &mut Tokens<'_>, depth: u8, first: Tree) -> Result<Item, Halt>
    ensures { Parses (put_p first (reads (at_depth depth) item_rest) tokens.old) result tokens.new }
{
    let condition = more_members(alloc, tokens, depth, first)?;
    let name = alias(alloc, tokens)?;
    Ok(item_of(condition, name))
}

// The rest of an item that is a condition that begins with a name.
#[tactic(auto, unfolding(crate::specs::Queries::after_word))]
fn after_word(alloc: Global, tokens: &mut Tokens<'_>, depth: u8, word: Named) -> Result<Item, Halt>
    ensures { Parses (put_p word (reads (at_depth depth) after_word) tokens.old) result tokens.new }
{
    let first = after_name(alloc, tokens, depth, word)?;
    item_rest(alloc, tokens, depth, first)
}

// An item that begins with COUNT.
fn count_item(alloc: Global, tokens: &mut Tokens<'_>, depth: u8) -> Result<Item, Halt>
    ensures { Parses (reads (at_depth depth) count_item tokens.old) result tokens.new }
{
    let word = word_of(alloc, tokens, Mark::Count)?;
    if next_is(tokens, Mark::LeftParenthesis) {
        return count_gather(alloc, tokens, depth, word);
    }
    after_word(alloc, tokens, depth, word)
}

// An item that begins with MIN, MAX or SUM.
fn leaf_item(alloc: Global, tokens: &mut Tokens<'_>, depth: u8) -> Result<Item, Halt>
    ensures { Parses (reads (at_depth depth) leaf_item tokens.old) result tokens.new }
{
    let word = leaf_word(alloc, tokens)?;
    if next_is(tokens, Mark::LeftParenthesis) {
        return leaf_gather(alloc, tokens, depth, word);
    }
    after_word(alloc, tokens, depth, word)
}

// An item, by what it begins with.
#[tactic(auto, unfolding(crate::specs::Queries::item))]
fn item(alloc: Global, tokens: &mut Tokens<'_>, depth: u8) -> Result<Item, Halt>
    ensures { Parses (reads (at_depth depth) item tokens.old) result tokens.new }
{
    if next_is(tokens, Mark::Count) {
        return count_item(alloc, tokens, depth);
    }
    if next_is_leaf_word(tokens) {
        return leaf_item(alloc, tokens, depth);
    }
    let first = negation(alloc, tokens, depth)?;
    item_rest(alloc, tokens, depth, first)
}

// The items that come, each behind a comma, behind those.
fn more_items(
    alloc: Global,
    tokens: &mut Tokens<'_>,
    depth: u8,
    mut all: List<Item>,
) -> Result<List<Item>, Halt>
    ensures { Parses (gathered (is_mark m.Comma) (after_p (is_mark m.Comma) span_of (reads (at_depth depth) item)) pushed (length tokens.old) all tokens.old) result tokens.new }
{
    for turn in 0..tokens.count() {
        if !next_is(tokens, Mark::Comma) {
            break;
        }
        tokens.skip();
        let item = item(alloc, tokens, depth)?;
        all.push(item)?;
    }
    Ok(all)
}

fn item_list(alloc: Global, tokens: &mut Tokens<'_>, depth: u8) -> Result<List<Item>, Halt>
    ensures { Parses (reads_list (reads (at_depth depth) item) tokens.old) result tokens.new }
{
    let first = item(alloc, tokens, depth)?;
    let mut all = List::new(alloc);
    all.push(first)?;
    more_items(alloc, tokens, depth, all)
}

/// The items of COLUMNS, in parentheses.
#[tactic(auto, using(crate::proofs::Nests::nest_is))]
pub(crate) fn items(alloc: Global, tokens: &mut Tokens<'_>, depth: u8) -> Result<List<Item>, Halt>
    ensures { Parses (reads (at_depth depth) (parens Own.items) tokens.old) result tokens.new }
{
    open(tokens, depth)?;
    let all = item_list(alloc, tokens, depth - 1)?;
    expect(tokens, Mark::RightParenthesis)?;
    Ok(all)
}
