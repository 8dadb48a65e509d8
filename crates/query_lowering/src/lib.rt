//! From a checked query to the SQL query whose rows are its answer.
#![tactic(auto)]

mod block_lists;
mod lowering;
mod names;
mod path_candidates;
mod plans;

pub use lowering::lower;
pub use path_candidates::candidates;
pub use plans::select_plan;
