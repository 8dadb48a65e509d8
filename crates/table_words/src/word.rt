ghost use Rattle.std.specs.Prelude.{◌≡◌, ◌<◌, ◌+◌, false, drop, length, option_map, slice_index, IfOk, IfSome};
ghost use Rattle.pgq_base.specs.Files.{after_equals, equals_sign};
ghost use Rattle.table_words.specs.TableWords.{table_word, table_words, AsksFor};

use crate::identifier::identifier;
use crate::laws::words_of_one_form;
use pgq_base::{List, Name, NoMemory, Text};
use std::alloc::Global;

/// A word `TABLE=FILE`: the name of the table, folded as a bare name is or kept as a delimited one is, and
/// the name of the file.
#[derive(Debug, Drop)]
pub struct TableWord {
    pub table: Name,
    pub file: Text,
}

// The place of the first `=` that has an even number of quotes before it.
fn equals_place(word: &[u8]) -> Option<usize>
    ensures file { option_map (λ place. drop (place + 1) word.now) result ≡ after_equals false word.now }
    ensures within { IfSome result (λ place. place < length word.now) }
    ensures equals { IfSome result (λ place. slice_index word.now place ≡ equals_sign) }
{
    let mut inside = false;
    for (at, byte) in word.iter().enumerate() {
        if *byte == b'"' {
            inside = !inside;
        } else if *byte == b'=' && !inside {
            return Some(at);
        }
    }
    None
}

// What a word asks for.
#[tactic(auto, using(std::proofs::lemmas::Str::lead_after_ascii))]
fn read_word(alloc: Global, word: &str) -> Result<Option<TableWord>, NoMemory>
    ensures { IfOk result (AsksFor word.now) }
{
    let Some(place) = equals_place(word.as_bytes()) else {
        return Ok(None);
    };
    let file = &word[place + 1..];
    if file.is_empty() {
        return Ok(None);
    }
    match identifier(alloc, &word.as_bytes()[..place])? {
        Some(table) => Ok(Some(TableWord {
            table,
            file: Text::from_text(alloc, file)?,
        })),
        None => Ok(None),
    }
}

/// What a word asks for, and None exactly where it has another form.
///
/// TABLE is one identifier by the rules of the lexer, bare or delimited and not reserved, with nothing
/// before or behind it; the first `=` after it ends it, and FILE is the rest, which is not empty. The form
/// is this project's own.
pub fn table_word(alloc: Global, word: &str) -> Result<Option<TableWord>, NoMemory>
    ensures { IfOk result (λ asked. asked ≡ table_word word.now) }
{
    words_of_one_form();
    read_word(alloc, word)
}

/// What some words ask for, in their order, and None exactly where one of them has another form.
pub fn table_words(alloc: Global, words: &[Text]) -> Result<Option<List<TableWord>>, NoMemory>
    ensures { IfOk result (λ asked. asked ≡ table_words words.now) }
{
    let mut asked = List::new(alloc);
    for word in words {
        match table_word(alloc, word.as_text())? {
            Some(table) => asked.push(table)?,
            None => return Ok(None),
        }
    }
    Ok(Some(asked))
}
