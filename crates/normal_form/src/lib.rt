//! The path blocks of a checked query, each of which becomes a part of a SELECT.
#![tactic(auto)]

mod candidates;
mod choices;
mod copies;
mod costs;
mod expansion;
mod fits;
mod groups;
mod joined;
mod labels;
mod laws;
mod merged;
mod names;
mod path_weight;
mod paths;
mod row_weight;
mod rows;
mod search;
mod sizes;
mod tags;
mod weight;

pub use joined::blocks;
pub use laws::{blocks_by_findings, blocks_by_path, findings_gathered};
pub use paths::path_blocks;
pub use sizes::block_size;
pub use weight::weight_of;
