ghost use Rattle.std.specs.Prelude.{◌≡◌, ◌++◌, OnOk};
ghost use Rattle.std.specs.List.{list_all};
ghost use Rattle.sql_lexer.specs.Pieces.{Delimited, bytes_of, doubled};
ghost use Rattle.pgq_program.specs.Lines.{begins_bare, is_bare_byte, is_bare_text, is_bare, name_text};

use pgq_base::{List, Name, NoMemory};
use word_table::reserved_words;

fn begins_bare(byte: u8) -> bool
    ensures { result ≡ begins_bare byte }
{
    byte.is_ascii_uppercase() || byte == b'_'
}

fn is_bare_byte(byte: u8) -> bool
    ensures { result ≡ is_bare_byte byte }
{
    begins_bare(byte) || byte.is_ascii_digit()
}

fn are_bare(bytes: &[u8]) -> bool
    ensures { result ≡ list_all is_bare_byte bytes.now }
{
    bytes.iter().all(|byte| is_bare_byte(*byte))
}

fn is_bare_text(name: &[u8]) -> bool
    ensures { result ≡ is_bare_text name.now }
{
    match name.split_first() {
        Some((first, rest)) => begins_bare(*first) && are_bare(rest),
        None => false,
    }
}

// Whether the name needs no quotes.
fn is_bare(name: &[u8]) -> bool
    ensures { result ≡ is_bare name.now }
{
    is_bare_text(name) && reserved_words().find(name).is_none()
}

// The content with each quote written twice.
fn put_doubled(line: &mut List<u8>, content: &[u8], quote: u8) -> Result<(), NoMemory>
    ensures { OnOk result (line.new ≡ line.old ++ doubled quote content.now) }
{
    for byte in content {
        if *byte == quote {
            line.push(*byte)?;
        }
        line.push(*byte)?;
    }
    Ok(())
}

fn put_delimited(line: &mut List<u8>, content: &[u8]) -> Result<(), NoMemory>
    ensures { OnOk result (line.new ≡ line.old ++ bytes_of (Delimited content.now)) }
{
    line.extend(b"\"")?;
    put_doubled(line, content, b'"')?;
    line.extend(b"\"")
}

/// Appends a name as SQL texts have it: bare where it can be, and else delimited.
pub(crate) fn put_name(line: &mut List<u8>, name: &Name) -> Result<(), NoMemory>
    ensures { OnOk result (line.new ≡ line.old ++ name_text name.now) }
{
    let bytes = name.as_bytes();
    if is_bare(bytes) {
        line.extend(bytes)
    } else {
        put_delimited(line, bytes)
    }
}
