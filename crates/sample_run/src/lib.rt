//! The generated run: its tables, the schema that they are tables of, and its summary.
#![tactic(auto)]

mod catalog;
mod laws;
mod summary;
mod tables;

pub use catalog::sample_catalog;
pub use laws::{sample_catalog_valid, sample_tables_fit};
pub use summary::{sample_query, sample_schema, sample_summary};
pub use tables::sample_tables;

#[cfg(test)]
mod tests;
