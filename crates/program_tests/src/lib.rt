//! Tests of the whole program over devices in memory.
#![tactic(auto)]

#[cfg(test)]
mod device_tests;
#[cfg(test)]
mod program_tests;
#[cfg(test)]
mod query_tests;
#[cfg(test)]
mod schema_tests;
#[cfg(test)]
mod table_tests;
