ghost use Rattle.std.specs.Prelude.{◌≡◌, ◌∷◌, IfOk, OnOk};
ghost use Rattle.condition_grammar.specs.Spans.{reach, span_of};
ghost use Rattle.condition_nodes.specs.Gathered.{first_of, with_one, conjoined, disjoined, coalesced_by};

use crate::nodes::{reach, span_of};
use condition_grammar::Spanned;
use expr_tree::Expr;
use pgq_base::{List, NoMemory, Span};
use std::alloc::Global;

/// Conditions that were read one after another: their trees, the spans of all their nodes, and the spans
/// of the first and of the last.
#[derive(Debug, Drop)]
pub struct Gathered<L> {
    pub trees: List<Expr<L>>,
    pub spans: List<Span>,
    pub first: Span,
    pub last: Span,
}

impl<L: Drop> Gathered<L> {
    /// One condition alone.
    pub fn one(alloc: Global, c: Spanned<L>) -> Result<Gathered<L>, NoMemory>
        ensures { IfOk result (λ g. g ≡ first_of c) }
    {
        let span = span_of(&c);
        let mut trees = List::new(alloc);
        trees.push(c.tree)?;
        Ok(Gathered {
            trees,
            spans: c.spans,
            first: span,
            last: span,
        })
    }

    /// One more behind them.
    pub fn with(self, c: Spanned<L>) -> Result<Gathered<L>, NoMemory>
        ensures { IfOk result (λ g. g ≡ with_one self c) }
    {
        let mut all = self;
        all.last = span_of(&c);
        all.trees.push(c.tree)?;
        all.spans.extend(c.spans.as_slice())?;
        Ok(all)
    }
}

fn behind(alloc: Global, span: Span, spans: &[Span]) -> Result<List<Span>, NoMemory>
    ensures { IfOk result (λ all. all ≡ span ∷ spans.now) }
{
    let mut all = List::new(alloc);
    all.push(span)?;
    all.extend(spans)?;
    Ok(all)
}

/// AND of what was gathered.
pub fn conjoined<L: Drop>(alloc: Global, all: Gathered<L>) -> Result<Spanned<L>, NoMemory>
    ensures { IfOk result (λ c. c ≡ conjoined all) }
{
    let spans = behind(alloc, reach(all.first, all.last), all.spans.as_slice())?;
    let tree = Expr::All(all.trees);
    Ok(Spanned { tree, spans })
}

/// OR of what was gathered.
pub fn disjoined<L: Drop>(alloc: Global, all: Gathered<L>) -> Result<Spanned<L>, NoMemory>
    ensures { IfOk result (λ c. c ≡ disjoined all) }
{
    let spans = behind(alloc, reach(all.first, all.last), all.spans.as_slice())?;
    let tree = Expr::Any(all.trees);
    Ok(Spanned { tree, spans })
}

/// COALESCE of what was gathered, from its word to its closing parenthesis.
pub fn coalesced<L: Drop>(
    alloc: Global,
    word: Span,
    all: Gathered<L>,
    closing: Span,
) -> Result<Spanned<L>, NoMemory>
    ensures { IfOk result (λ c. c ≡ coalesced_by word all closing) }
{
    let spans = behind(alloc, reach(word, closing), all.spans.as_slice())?;
    let tree = Expr::Coalesce(all.trees);
    Ok(Spanned { tree, spans })
}
