//! The whole program over devices: what the words ask for, read from files and put on two sinks.
#![tactic(auto)]

mod answers;
mod evaluating;
mod evaluation;
mod halt;
mod laws;
mod lines;
mod names;
mod queries;
mod running;
mod sampling;
mod schemas;
mod status;
mod steps;
mod table_runs;
mod telling;
mod texts;
mod top;
mod words;

pub use laws::{one_answer, one_catalog, one_query, summary_is_due};
pub use lines::line_of;
pub use status::Status;
pub use table_files::TableText;
pub use table_runs::run_texts;
pub use texts::translate_texts;
pub use top::pgq;
