//! Tests of the lexer, the parsers, the reader and the printer.
#![tactic(auto)]

#[cfg(test)]
mod lexer_tests;
#[cfg(test)]
mod pattern_shown;
#[cfg(test)]
mod pattern_tests;
#[cfg(test)]
mod pattern_verdicts;
#[cfg(test)]
mod printer_tests;
#[cfg(test)]
mod reader_tests;
#[cfg(test)]
mod schema_shown;
#[cfg(test)]
mod schema_tests;
#[cfg(test)]
mod sql_shown;
#[cfg(test)]
mod sql_tests;
