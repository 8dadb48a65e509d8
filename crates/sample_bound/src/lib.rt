//! How many rows the answer of the generated run can have.
#![tactic(auto)]

mod laws;

pub use laws::sample_answer_is_small;
