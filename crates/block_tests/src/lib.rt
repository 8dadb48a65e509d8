//! Tests of path blocks, weights, names and lowering.
#![tactic(auto)]

#[cfg(test)]
mod form_tests;
#[cfg(test)]
mod lowering_tests;
#[cfg(test)]
mod name_tests;
#[cfg(test)]
mod weight_tests;
