use pgq_base::{Detail, Role, Stop};
use sql_lexer::{Kind, Token, lex};
use std::alloc::Global;
use std::test::Fail;
use word_table::{reserved_words, symbols};

const MOST_BYTES: usize = 1048576;

// Each token as its kind, its value and its bytes, or the code and the bytes of the refusal.
fn answer(alloc: Global, text: &[u8], role: Role) -> Result<String, Fail> {
    if text.len() > MOST_BYTES {
        return Err("the text is too long")?;
    }
    let mut shown = String::new(alloc);
    match lex(alloc, text, role) {
        Ok(tokens) => {
            for token in tokens.as_slice() {
                show(alloc, &mut shown, token)?;
            }
        }
        Err(Stop::Refused(refusal)) => {
            let at = format!(in alloc;
                "{} {}-{}",
                refusal.code.number(),
                refusal.span.from,
                refusal.span.to
            )?;
            shown.push_str(&at)?;
            if refusal.role != role || !matches!(&refusal.detail, Detail::Nothing) {
                shown.push_str(" of another text")?;
            }
        }
        Err(Stop::NoMemory) => shown.push_str("no memory")?,
    }
    Ok(shown)
}

fn show(alloc: Global, shown: &mut String, token: &Token) -> Result<(), Fail> {
    if !shown.is_empty() {
        shown.push_str(" ")?;
    }
    match &token.kind {
        Kind::Word(name) => {
            let text = std::str::from_utf8(name.as_bytes())
                .ok()
                .ok_or("a name is no text")?;
            shown.push_str("word ")?;
            shown.push_str(text)?;
        }
        Kind::Reserved(place) => {
            let words = reserved_words();
            let place = *place as usize;
            if place < 44 {
                let text = std::str::from_utf8(words.word(place))
                    .ok()
                    .ok_or("a word is no text")?;
                shown.push_str("reserved ")?;
                shown.push_str(text)?;
            }
        }
        Kind::Delimited(name) => {
            let text = std::str::from_utf8(name.as_bytes())
                .ok()
                .ok_or("a name is no text")?;
            shown.push_str("name ")?;
            shown.push_str(text)?;
        }
        Kind::Number(value) => {
            let text = format!(in alloc; "number {value}")?;
            shown.push_str(&text)?;
        }
        Kind::Decimal(size) => {
            let text = format!(in alloc; "decimal {} {}", size.unscaled(), size.scale())?;
            shown.push_str(&text)?;
        }
        Kind::Literal(text) => {
            shown.push_str("text ")?;
            shown.push_str(text.as_text())?;
        }
        Kind::Symbol(place) => {
            let words = symbols();
            let place = *place as usize;
            if place < 25 {
                let text = std::str::from_utf8(words.word(place))
                    .ok()
                    .ok_or("a symbol is no text")?;
                shown.push_str(text)?;
            }
        }
    }
    let at = format!(in alloc; " {}-{}", token.span.from, token.span.to)?;
    shown.push_str(&at)?;
    Ok(())
}

// Texts, and what they are read as.
const TEXTS: [(&[u8], &str); 93] = [
    (b"", ""),
    (b" \t\r\n", ""),
    (b"select", "reserved SELECT 0-6"),
    (b"SELECT x", "reserved SELECT 0-6 word X 7-8"),
    (b"Graph_Table", "reserved GRAPH_TABLE 0-11"),
    (b"selects", "word SELECTS 0-7"),
    (b"key", "word KEY 0-3"),
    (b"_x9 a1", "word _X9 0-3 word A1 4-6"),
    (b"1a", "number 1 0-1 word A 1-2"),
    (b"007", "number 7 0-3"),
    (b"7.0", "decimal 7 0 0-3"),
    (b"12.50", "decimal 125 1 0-5"),
    (b"0.05-", "decimal 5 2 0-4 - 4-5"),
    (b"00.000", "decimal 0 0 0-6"),
    (b"1.2.3", "decimal 12 1 0-3 . 3-4 number 3 4-5"),
    (b"1.x", "number 1 0-1 . 1-2 word X 2-3"),
    (b"1 .5", "number 1 0-1 . 2-3 number 5 3-4"),
    (
        b"000123456789.123456789",
        "decimal 123456789123456789 9 0-22",
    ),
    (b"x 1.234567890123456789", "108 2-22"),
    (b"0.1234567890123456789", "108 0-21"),
    (b"\"select\"", "name select 0-8"),
    (b"\"a b\"", "name a b 0-5"),
    (b"\"a\"\"b\"", "name a\"b 0-6"),
    (b"\"\"\"\"", "name \" 0-4"),
    (b"\"\xc3\xa9\"", "name é 0-4"),
    (b"''", "text  0-2"),
    (b"''''", "text ' 0-4"),
    (b"'it''s'", "text it's 0-7"),
    (b"'a' 'b'", "text a 0-3 text b 4-7"),
    (b"'a'\"b\"", "text a 0-3 name b 3-6"),
    (b"x'1'", "word X 0-1 text 1 1-4"),
    (b"'--' '/*'", "text -- 0-4 text /* 5-9"),
    (b"\"--\"", "name -- 0-4"),
    (b"a--b", "word A 0-1"),
    (b"--a\rb", ""),
    (b"--a\nb", "word B 4-5"),
    (b"--", ""),
    (b"---\n-", "- 4-5"),
    (b"- -", "- 0-1 - 2-3"),
    (b"a-/*x*/>b", "word A 0-1 - 1-2 > 7-8 word B 8-9"),
    (b"/**/1", "number 1 4-5"),
    (b"/***/1", "number 1 5-6"),
    (b"/*/*/1", "number 1 5-6"),
    (b"/*'*/1", "number 1 5-6"),
    (b"--'\n1", "number 1 4-5"),
    (b"--\xff\n1", "number 1 4-5"),
    (b"/*\xff\x00*/1", "number 1 6-7"),
    (b"()[]{}", "( 0-1 ) 1-2 [ 2-3 ] 3-4 { 4-5 } 5-6"),
    (
        b",.;:*+-?=",
        ", 0-1 . 1-2 ; 2-3 : 3-4 * 4-5 + 5-6 - 6-7 ? 7-8 = 8-9",
    ),
    (b"|&!%~", "| 0-1 & 1-2 ! 2-3 % 3-4 ~ 4-5"),
    (b"<>", "<> 0-2"),
    (b"< >", "< 0-1 > 2-3"),
    (b"<=>=", "<= 0-2 >= 2-4"),
    (b"<=>", "<= 0-2 > 2-3"),
    (b"=<", "= 0-1 < 1-2"),
    (b"><", "> 0-1 < 1-2"),
    (b"<-[e]->", "< 0-1 - 1-2 [ 2-3 word E 3-4 ] 4-5 - 5-6 > 6-7"),
    (b"9223372036854775807", "number 9223372036854775807 0-19"),
    (b"9223372036854775808", "number 9223372036854775808 0-19"),
    (b"9223372036854775809", "103 0-19"),
    (b"18446744073709551616", "103 0-20"),
    (b"x 0009223372036854775809 y", "103 2-24"),
    (b"\"a\"\"", "102 0-4"),
    (b"x 'a", "102 2-4"),
    (b"'a''", "102 0-4"),
    (b"'", "102 0-1"),
    (b"/*", "102 0-2"),
    (b"/*/", "102 0-3"),
    (b"1 /* *", "102 2-6"),
    (b"'\xff", "102 0-2"),
    (b"\"\"", "104 0-2"),
    (b"x \"\" @", "104 2-4"),
    (b"SELECT @", "101 7-8"),
    (b"@ 'a", "101 0-1"),
    (b"1/2", "101 1-2"),
    (b"*/", "101 1-2"),
    (b"/* /* */ */", "101 10-11"),
    (b"/", "101 0-1"),
    (b"a#", "101 1-2"),
    (b"\xc3\xa9", "101 0-1"),
    (b"a\xc3\xa9", "101 1-2"),
    (b"\xef\xbb\xbfSELECT", "101 0-1"),
    (b"a\x0cb", "101 1-2"),
    (b"a\xc2\xa0b", "101 1-2"),
    (b"a\x00", "101 1-2"),
    (b"\"a\xffb\"", "101 2-3"),
    (b"'\xc3'", "101 1-2"),
    (b"'a\xe2\x82'", "101 2-3"),
    (b"'\xc3\xa9''\xff'", "101 5-6"),
    (b"\"\"\"\xff\"", "101 3-4"),
    (b"'\xff' @ '", "101 1-2"),
    (b"'\xed\xa0\x80'", "101 1-2"),
    (b"'\xf0\x9f\x98\x80'", "text 😀 0-6"),
];

// What a text of that byte alone is read as.
fn single(alloc: Global, byte: u8) -> Result<String, Fail> {
    Ok(match byte {
        b'\t' | b'\n' | b'\r' | b' ' => String::new(alloc),
        b'"' | b'\'' => String::from_str(alloc, "102 0-1")?,
        b'a'..=b'z' => format!(in alloc; "word {} 0-1", (byte - 32) as char)?,
        b'A'..=b'Z' | b'_' => format!(in alloc; "word {} 0-1", byte as char)?,
        b'0'..=b'9' => format!(in alloc; "number {} 0-1", byte - b'0')?,
        _ if b"()[]{},.;:*+-?=<>|&!%~".contains(&byte) => format!(in alloc;
            "{} 0-1",
            byte as char
        )?,
        _ => String::from_str(alloc, "101 0-1")?,
    })
}

#[test]
fn lexes_texts(rt: HostRuntime) -> Result<(), Fail> {
    for (text, want) in TEXTS.iter() {
        let got = answer(rt.alloc(), text, Role::Query)?;
        assert_eq!(rt; got.as_str(), *want);
    }
    for byte in 0..=255u8 {
        let got = answer(rt.alloc(), &[byte], Role::Schema)?;
        let want = single(rt.alloc(), byte)?;
        assert_eq!(rt; got.as_str(), want.as_str(), "at the byte {byte}");
    }
    Ok(())
}

// A text of a front, so many times a middle, and a back.
fn built(
    alloc: Global,
    front: &[u8],
    middle: &[u8],
    times: usize,
    back: &[u8],
) -> Result<Vec<u8>, Fail> {
    let mut text = Vec::new(alloc);
    text.extend_from_slice(front)?;
    for _ in 0..times {
        text.extend_from_slice(middle)?;
    }
    text.extend_from_slice(back)?;
    Ok(text)
}

// The number of tokens, or the code and the bytes of the refusal.
fn outcome(alloc: Global, text: &[u8]) -> Result<String, Fail> {
    if text.len() > MOST_BYTES {
        return Err("the text is too long")?;
    }
    Ok(match lex(alloc, text, Role::Sql) {
        Ok(tokens) => format!(in alloc; "{} tokens", tokens.as_slice().len())?,
        Err(Stop::Refused(refusal)) => {
            format!(in alloc;
                "{} {}-{}",
                refusal.code.number(),
                refusal.span.from,
                refusal.span.to
            )?
        }
        Err(Stop::NoMemory) => String::from_str(alloc, "no memory")?,
    })
}

// A front, a middle that stands so many times, a back, and what the text is read as.
const LIMITS: [(&[u8], &[u8], usize, &[u8], &str); 34] = [
    (b"", b"a", 128, b"", "1 tokens"),
    (b"", b"a", 129, b"", "104 0-129"),
    (b"\"", b"a", 128, b"\"", "1 tokens"),
    (b"\"", b"a", 129, b"\"", "104 0-131"),
    (b"\"", b"\"\"", 128, b"\"", "1 tokens"),
    (b"\"", b"\"\"", 129, b"\"", "104 0-260"),
    (b"\"", b"\xc3\xa9", 64, b"\"", "1 tokens"),
    (b"\"", b"\xc3\xa9", 65, b"\"", "104 0-132"),
    (b"\"", b"\xff", 128, b"\"", "101 1-2"),
    (b"\"", b"\xff", 129, b"\"", "104 0-131"),
    (b"\"", b"a", 129, b"", "102 0-130"),
    (b"'", b"a", 1024, b"'", "1 tokens"),
    (b"'", b"a", 1025, b"'", "105 0-1027"),
    (b"'", b"''", 1024, b"'", "1 tokens"),
    (b"'", b"''", 1025, b"'", "105 0-2052"),
    (b"'", b"\xff", 1024, b"'", "101 1-2"),
    (b"'", b"\xff", 1025, b"'", "105 0-1027"),
    (b"'", b"a", 1025, b"", "102 0-1026"),
    (b"", b"0", 1000, b"9223372036854775808", "1 tokens"),
    (b"", b"0", 1000, b"9223372036854775809", "103 0-1019"),
    (b"", b"9", 1000, b" @", "103 0-1000"),
    (b"", b";", 65536, b"", "65536 tokens"),
    (b"", b"; ", 65536, b"--", "65536 tokens"),
    (b"", b";", 65537, b"", "106 65536-65537"),
    (b"", b";", 65536, b"<=", "106 65536-65538"),
    (b"", b";", 65536, b" 'a' @", "106 65537-65540"),
    (b"", b";", 65536, b"@", "101 65536-65537"),
    (b"", b";", 65536, b"'", "102 65536-65537"),
    (b"", b";", 65536, b"\"\"", "104 65536-65538"),
    // The longest texts.
    (b"", b" ", 1048576, b"", "0 tokens"),
    (b"", b"a", 1048576, b"", "104 0-1048576"),
    (b"--", b"x", 1048574, b"", "0 tokens"),
    (b"/*", b"*", 1048574, b"", "102 0-1048576"),
    (b"'", b"a", 1048573, b"\xff'", "105 0-1048576"),
];

#[test]
fn keeps_limits(rt: HostRuntime) -> Result<(), Fail> {
    for (front, middle, times, back, want) in LIMITS.iter() {
        let text = built(rt.alloc(), front, middle, *times, back)?;
        let got = outcome(rt.alloc(), text.as_slice())?;
        assert_eq!(rt; got.as_str(), *want);
    }
    Ok(())
}
