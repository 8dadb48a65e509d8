//! How the query text of the generated run is read: its tokens, their tree and its checked form.
#![tactic(auto)]

mod laws;

pub use laws::sample_query_read;
