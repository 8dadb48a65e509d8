//! Reads query texts: from tokens to the one tree that they spell.
#![tactic(auto)]

mod conditions;
mod edges;
mod items;
mod labels;
mod leaves;
mod parsing;
mod paths;
mod patterns;
mod pieces;
mod predicates;
mod prefixes;
mod queries;

pub use parsing::{one_outcome, one_tree, parse_query, tree_in_text};
