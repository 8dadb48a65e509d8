//! Reads SQL texts: from tokens to the one tree that they spell.
#![tactic(auto)]

mod conditions;
mod items;
mod lists;
mod operands;
mod parsing;
mod selects;

pub use parsing::{one_outcome, one_tree, parse_sql};
