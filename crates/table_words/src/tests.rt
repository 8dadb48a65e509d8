use crate::{TableWord, table_word, table_words};
use pgq_base::{List, Text};
use std::alloc::Global;
use std::test::Fail;

// A word, and the table and the file that it asks for; no table where it has another form.
static WORDS: [(&str, &str, &str); 32] = [
    ("person=f", "PERSON", "f"),
    ("Person=f", "PERSON", "f"),
    ("\"PERSON\"=f", "PERSON", "f"),
    ("\"person\"=f", "person", "f"),
    ("\"a=b\"=c", "a=b", "c"),
    ("\"a\"\"b\"=x", "a\"b", "x"),
    ("\"\"\"=\"=x", "\"=", "x"),
    ("_1=a=b", "_1", "a=b"),
    ("t==", "T", "="),
    ("t= f ", "T", " f "),
    ("t=\"f\"", "T", "\"f\""),
    ("\"select\"=f", "select", "f"),
    ("\"é\"=é", "é", "é"),
    ("key=f", "KEY", "f"),
    ("select=f", "", ""),
    ("SELECT=f", "", ""),
    ("=f", "", ""),
    ("t=", "", ""),
    ("t", "", ""),
    ("", "", ""),
    (" t=f", "", ""),
    ("t =f", "", ""),
    ("t/**/=f", "", ""),
    ("\"\"=f", "", ""),
    ("\"a=f", "", ""),
    ("\"a\"b\"=f", "", ""),
    ("\"a\" \"b\"=f", "", ""),
    ("1=f", "", ""),
    ("a.b=f", "", ""),
    ("é=f", "", ""),
    ("'t'=f", "", ""),
    ("<=f", "", ""),
];

fn is_asked(asked: &Option<TableWord>, table: &str, file: &str) -> bool {
    match asked {
        Some(word) => word.table.as_bytes() == table.as_bytes() && word.file.as_text() == file,
        None => table.is_empty(),
    }
}

#[test]
fn words_are_read(rt: HostRuntime) -> Result<(), Fail> {
    for (word, table, file) in &WORDS {
        let asked = table_word(rt.alloc(), word)?;
        assert!(rt; is_asked(&asked, table, file), "at {word}");
    }
    Ok(())
}

// A name of `count` letters, delimited or not, and a file.
fn long_word(alloc: Global, count: usize, delimited: bool) -> Result<String, Fail> {
    let mut word = String::new(alloc);
    if delimited {
        word.push('"')?;
    }
    for _ in 0..count {
        word.push('a')?;
    }
    if delimited {
        word.push('"')?;
    }
    word.push_str("=f")?;
    Ok(word)
}

#[test]
fn names_have_at_most_128_bytes(rt: HostRuntime) -> Result<(), Fail> {
    for delimited in [false, true] {
        let longest = long_word(rt.alloc(), 128, delimited)?;
        assert!(rt; table_word(rt.alloc(), longest.as_str())?.is_some());
        let longer = long_word(rt.alloc(), 129, delimited)?;
        assert!(rt; table_word(rt.alloc(), longer.as_str())?.is_none());
    }
    Ok(())
}

#[test]
fn words_in_a_row(rt: HostRuntime) -> Result<(), Fail> {
    let mut words = List::new(rt.alloc());
    words.push(Text::from_text(rt.alloc(), "person=f")?)?;
    words.push(Text::from_text(rt.alloc(), "\"a b\"=g h")?)?;
    match table_words(rt.alloc(), words.as_slice())? {
        Some(asked) => assert_eq!(rt; asked.as_slice().len(), 2),
        None => return Err("no words")?,
    }
    words.push(Text::from_text(rt.alloc(), "knows")?)?;
    assert!(rt; table_words(rt.alloc(), words.as_slice())?.is_none());
    Ok(())
}
