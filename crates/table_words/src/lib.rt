//! The words `TABLE=FILE` of a command line.
#![tactic(auto)]

mod identifier;
mod laws;
mod word;

pub use laws::{files_are_asked, files_behind_equals, words_of_one_form};
pub use word::{TableWord, table_word, table_words};

#[cfg(test)]
mod tests;
