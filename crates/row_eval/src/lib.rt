//! Evaluation of SQL queries over tables of rows.
#![tactic(auto)]

mod access;
mod branch;
mod chains;
mod collect;
mod evaluator;
mod frame;
mod group;
mod index;
mod joins;
mod legs;
mod levels;
mod narrowing;
mod places;
mod planner;
mod reach;
mod scope;
mod sorting;
mod source;
mod stage;
mod steps;
mod ties;
mod ways;

pub use evaluator::{EvalStop, MOST_ROWS, evaluate};
pub use source::RowSource;
pub use steps::Steps;
