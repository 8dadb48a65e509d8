//! The tables of a command, read from the files of a shelf.
#![tactic(auto)]

mod loads;
mod stops;

pub use loads::load_instance;
pub use stops::TablesStop;

#[cfg(test)]
mod tests;
