//! How many different rows a list of rows has.
#![tactic(auto)]

mod counting;
mod keys;

pub use counting::distinct;

#[cfg(test)]
mod tests;
