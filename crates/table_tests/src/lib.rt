//! Tests of values, expression trees, table files and evaluation.
#![tactic(auto)]

#[cfg(test)]
mod base_tests;
#[cfg(test)]
mod csv_tests;
#[cfg(test)]
mod row_tests;
#[cfg(test)]
mod tree_tests;
