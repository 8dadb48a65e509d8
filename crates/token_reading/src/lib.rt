//! What the parsers share: the tokens that are left, and the functions that read one of them.
#![tactic(auto)]

mod laws;
mod reading;
mod refusing;

pub use laws::classes_tell;
pub use reading::{
    TOO_DEEP, Tokens, UNEXPECTED, blocked, class_of, expect, name, next_is, next_is_name,
    next_is_word, number, skip_name, word,
};
pub use refusing::{code_for, span_at};
