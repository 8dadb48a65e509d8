//! Reads the parts of conditions that nest nothing, and builds their nodes with the spans, for the parsers of query texts and of SQL texts.
#![tactic(auto)]

mod gathered;
mod literals;
mod names;
mod nodes;
mod tails;

pub use gathered::{Gathered, coalesced, conjoined, disjoined};
pub use literals::{date_text, literal, next_is_literal};
pub use names::{next_is_undated, open, undated_name, word_of};
pub use nodes::{compared, enclosed, lone, negated, ranged, reach, span_of, tested};
pub use tails::{
    Inclusion, IsTail, Predicate, TestTail, TruthTail, after_is, comparison, may_be_not,
    may_be_truth_test, next_is_comparison, truth_end, with_tail,
};
