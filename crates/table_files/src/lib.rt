//! The instance that the files of some tables give: each file's rows, and no rows for the other tables.
#![tactic(auto)]

mod files;
mod instances;
mod laws;
mod places;

pub use files::{TableText, TablesRead, data_too_large};
pub use instances::instance_of;
pub use laws::instances_of_files;
pub use places::table_places;

#[cfg(test)]
mod tests;
