//! Tables as CSV texts: reading and writing them, and the keys and references that their rows keep.
#![tactic(auto)]

mod checking;
mod faults;
mod fields;
mod header;
mod keys;
mod laws;
mod numbers;
mod reading;
mod records;
mod sorting;
mod writing;

pub use checking::check_instance;
pub use laws::{checked_instances_fit, read_rows_are_typed, types_tell, valid_catalogs_number};
pub use reading::read_table;
pub use writing::{one_table_text, write_rows};
