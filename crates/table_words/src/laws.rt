ghost use Rattle.std.specs.Prelude.{◌≡◌, ◌↔◌, All, drop, false, List, ℕ, slice_get, Some};
ghost use Rattle.pgq_base.specs.Files.{after_equals, sample_word, IsAsked};
ghost use Rattle.table_words.specs.declared.word.TableWord.{TableWord};
ghost use Rattle.table_words.specs.TableWords.{table_word, table_words, IsTableWord};

use sql_lexer::one_front;

/// A word asks for a table and a file exactly where it is an identifier, a `=` and the file's name.
pub fn words_of_one_form()
    ensures { (word : List ℕ) (asked : TableWord) → (table_word word ≡ Some asked) ↔ IsTableWord word asked }
{
    one_front();
}

/// The file is what follows the first `=` of the word that has an even number of quotes before it. So it is
/// a file that the word asks for.
pub fn files_behind_equals()
    ensures { (word : List ℕ) (asked : TableWord) → table_word word ≡ Some asked → after_equals false word ≡ Some asked.file }
{
    one_front();
}

/// The files of the words behind a command's first three are files that its words ask for, but for `sample`.
pub fn files_are_asked()
    ensures { (words : List (List ℕ)) (asked : List TableWord) → (slice_get words 0 ≡ Some sample_word → ⊥) → table_words (drop 3 words) ≡ Some asked
        → All (λ table. IsAsked table.file words) asked }
{
    one_front();
}
