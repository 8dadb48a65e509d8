ghost use Rattle.std.specs.Prelude.{◌≤◌};

use crate::program_tests::{Outside, READ_FAULT, SCHEMA, SOUND, Wanted};
use crate::table_tests::{BOTH, KNOWS, PERSON, RUNS, answered, answers, done, query_text};
use pgq_base::NoMemory;
use pgq_program::Status;
use std::alloc::Global;
use std::process::Abort;
use std::test::Fail;

// How many calls open a file and read it to its end in pieces of seven bytes.
fn calls_for(file: &str) -> u64
    ensures { result ≤ 3000000000000000000 }
{
    2 + file.len().div_ceil(7) as u64
}

// Each call of the shelf in turn: four files are opened, and each is read to its end.
#[test]
fn tells_read_faults_of_tables(rt: HostRuntime) -> Result<(), Fail> {
    let alloc = rt.alloc();
    let (pattern, text) = &RUNS[0];
    let query = query_text(alloc, pattern)?;
    let texts = calls_for(SCHEMA) + calls_for(query.as_str());
    let calls = texts + calls_for(PERSON) + calls_for(KNOWS);
    let files = [
        ("schema", SCHEMA),
        ("query", query.as_str()),
        ("p", PERSON),
        ("k", KNOWS),
    ];
    for call in 0..calls + 1 {
        let outside = Outside {
            shelf: call,
            shelf_piece: 7,
            ..SOUND
        };
        let wanted = if call < calls { READ_FAULT } else { done(text) };
        answers(&rt, alloc, &BOTH, &files, outside, wanted)?;
    }
    Ok(())
}

// Each call of `out` in turn, with pieces of three bytes; what was taken before it is a prefix of the text.
#[test]
fn tells_write_faults_of_rows(rt: HostRuntime) -> Result<(), Fail> {
    let alloc = rt.alloc();
    let (pattern, text) = &RUNS[0];
    let query = query_text(alloc, pattern)?;
    let files = [
        ("schema", SCHEMA),
        ("query", query.as_str()),
        ("p", PERSON),
        ("k", KNOWS),
    ];
    let calls = text.len().div_ceil(3);
    for call in 0..calls + 1 {
        let outside = Outside {
            out: call as u64,
            out_piece: 3,
            ..SOUND
        };
        let taken = text.len().min(call.saturating_mul(3));
        let status = if call < calls {
            Status::WriteFault
        } else {
            Status::Done
        };
        let wanted = Wanted {
            status,
            out: &text.as_bytes()[..taken],
            err: b"",
        };
        answers(&rt, alloc, &BOTH, &files, outside, wanted)?;
    }
    Ok(())
}

// A table that is refused over an `err` that fails leaves both sinks empty.
#[test]
fn tells_write_faults_of_refusals(rt: HostRuntime) -> Result<(), Fail> {
    let alloc = rt.alloc();
    let (pattern, _) = &RUNS[0];
    let query = query_text(alloc, pattern)?;
    let files = [
        ("schema", SCHEMA),
        ("query", query.as_str()),
        ("p", "id,name\n"),
        ("k", KNOWS),
    ];
    let silent = Wanted {
        status: Status::WriteFault,
        out: b"",
        err: b"",
    };
    let outside = Outside { err: 0, ..SOUND };
    answers(&rt, alloc, &BOTH, &files, outside, silent)?;
    Ok(())
}

const MOST_PERSONS: u32 = 100_000;

fn push_number(alloc: Global, text: &mut String, number: u64, end: &str) -> Result<(), NoMemory> {
    text.push_str(number.to_string(alloc)?.as_str())?;
    text.push_str(end)?;
    Ok(())
}

fn many_persons(alloc: Global) -> Result<String, NoMemory> {
    let mut text = String::from_str(alloc, "id,name,age\n")?;
    for i in 1..MOST_PERSONS + 1 {
        push_number(alloc, &mut text, i as u64, ",P")?;
        push_number(alloc, &mut text, i as u64, ",")?;
        push_number(alloc, &mut text, i as u64 % 90, "\n")?;
    }
    Ok(text)
}

// From each person to the next three, round and round.
fn many_edges(alloc: Global) -> Result<String, NoMemory> {
    let mut text = String::from_str(alloc, "id,a,b,since\n")?;
    for edge in 0..3 * MOST_PERSONS {
        let person = edge / 3;
        let next = (person + edge % 3 + 1) % MOST_PERSONS;
        push_number(alloc, &mut text, edge as u64, ",")?;
        push_number(alloc, &mut text, person as u64 + 1, ",")?;
        push_number(alloc, &mut text, next as u64 + 1, ",2000\n")?;
    }
    Ok(text)
}

fn expect_ends(rt: &impl Abort, text: &[u8], begin: &[u8], end: &[u8], lines: usize) {
    assert!(rt; text.starts_with(begin));
    assert!(rt; text.ends_with(end));
    assert!(rt; text.iter().filter(|byte| **byte == b'\n').count() == lines);
}

#[test]
fn runs_over_large_tables(rt: HostRuntime) -> Result<(), Fail> {
    let alloc = rt.alloc();
    let (pattern, _) = &RUNS[0];
    let query = query_text(alloc, pattern)?;
    let persons = many_persons(alloc)?;
    let edges = many_edges(alloc)?;
    let files = [
        ("schema", SCHEMA),
        ("query", query.as_str()),
        ("p", persons.as_str()),
        ("k", edges.as_str()),
    ];
    let (status, out, _) = answered(alloc, &BOTH, &files, SOUND)?;
    assert!(rt; status == Status::Done);
    let begin = b"X,Y\nP1,P2\nP1,P3\nP1,P4\nP10,P11\n";
    let end = b"P99999,P1\nP99999,P100000\nP99999,P2\n";
    expect_ends(&rt, out.as_slice(), begin, end, 300_001);
    Ok(())
}
