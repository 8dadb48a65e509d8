//! Calls the layers one after another as a caller would, so that a premise that nobody earns shows.
#![tactic(auto)]

mod schemas;

pub use schemas::catalog_of_text;

#[cfg(test)]
mod tests;
