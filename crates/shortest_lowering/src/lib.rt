//! From graph blocks to SQL, with NOT EXISTS of a shorter path for ALL SHORTEST.
#![tactic(auto)]

mod candidate;
mod candidate_laws;
mod copies;
mod lower;
mod means;
mod none_between;
mod plan_laws;
mod shorter;
mod sound_laws;

pub use candidate::path_candidate;
pub use candidate_laws::{alone_law, pairs_law};
pub use lower::lower_selected;
pub use means::selected_law;
pub use none_between::no_shorter;
pub use plan_laws::plans_law;
pub use sound_laws::{printable_law, sound_law};
