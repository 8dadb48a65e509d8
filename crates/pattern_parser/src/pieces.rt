//! What the parser has in its hands between tokens and tree.

use graph_ast::{
    Condition, Direction, Factor, Filler, Joint, LabelExpr, ModeWord, Named, Selector, Sequence,
    Union,
};
use pgq_base::{List, Span};

/// What was read, and where it stands.
#[derive(Debug, Drop)]
pub(crate) struct Placed<T> {
    pub node: T,
    pub span: Span,
}

/// What stands in the brackets of an element pattern: a filler that has no span yet.
#[derive(Debug, Drop)]
pub(crate) struct Content {
    pub variable: Option<Named>,
    pub label: Option<LabelExpr>,
    pub condition: Option<Condition>,
}

/// An edge pattern without its quantifier.
#[derive(Debug, Drop)]
pub(crate) struct EdgePattern {
    pub direction: Direction,
    pub filler: Filler,
}

/// How an edge pattern ends behind its first `-` or `~`: its content, whether `>` ends it, and where it ends.
#[derive(Debug, Drop)]
pub(crate) struct EdgeEnd {
    pub content: Content,
    pub points: bool,
    pub to: u32,
}

/// What stands in the parentheses of a part.
#[derive(Debug, Drop)]
pub(crate) struct PartContent {
    pub mode: Option<ModeWord>,
    pub body: Union,
    pub condition: Option<Condition>,
}

/// What stands before the patterns of a path: its selector and its mode, and where they begin.
#[derive(Debug, Drop)]
pub(crate) struct Prefix {
    pub selector: Option<Selector>,
    pub mode: Option<ModeWord>,
    pub from: u32,
}

/// What COUNT gathers: a variable, or a property of it.
#[derive(Debug, Drop)]
pub(crate) struct Counted {
    pub variable: Named,
    pub property: Option<Named>,
}

/// Factors one after another, and where they stand.
#[derive(Debug, Drop)]
pub(crate) struct Run {
    pub factors: List<Factor>,
    pub span: Span,
}

/// Sequences and what stands between them, and where they stand.
#[derive(Debug, Drop)]
pub(crate) struct Operands {
    pub operands: List<Sequence>,
    pub joints: List<Joint>,
    pub span: Span,
}
