ghost use Rattle.std.specs.Prelude.{ℕ};
ghost use Rattle.graph_ast.specs.declared.catalog.Catalog.{Catalog};
ghost use Rattle.graph_ast.specs.declared.query.QueryTree.{QueryTree as Tree};
ghost use Rattle.graph_ast.specs.QuerySpans.{EachSpanHas};
ghost use Rattle.pgq_base.specs.Spans.{LiesIn};
ghost use Rattle.pattern_check.specs.FaultPlaces.{FaultLiesIn};
ghost use Rattle.pattern_check.specs.Phases.{first_fault};
ghost use Rattle.pattern_check.specs.Lowerable.{MakesLowerable};

/// A query without faults is lowerable: its graph is there, it has one to eight path patterns, their quantified parts have
/// bounds in order up to 32, at most 4,096 choices and no choice of more than 64 edges, each name stands for vertices or for
/// edges, each leaf names a declared variable and a known property, each expression is well classed and each condition of
/// class Truth, and the weight is at most 1,000,000. (The limits are this project's own.)
pub fn makes_lowerable()
    ensures { MakesLowerable }
{}

/// A law: the place that a query's first fault names lies in the text in which the spans of the tree lie.
pub fn faults_lie()
    ensures { (end : ℕ) (catalog : Catalog) (tree : Tree) → EachSpanHas (LiesIn end) tree → FaultLiesIn end (first_fault catalog tree) }
{}
