//! SQL texts judged by the rules on names and classes, and read as queries.
#![tactic(auto)]

mod judging;
mod laws;
mod names;
mod phases;
mod queries;
mod reach;
mod reading;
mod tables;
mod types;
mod unions;

pub use judging::judge_text;
pub use laws::{
    faultless_is_sound, grammar_gives_shape, lexed_are_sized, printed_is_read, query_is_told,
    sound_is_faultless, told_query_is_written,
};
pub use reading::read_sql;
