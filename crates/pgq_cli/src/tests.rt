use crate::disk::DiskShelf;
use crate::run::run;
use crate::stream::StdSink;
use pgq_base::{Fault, List, Sink, Text};
use pgq_program::Status;
use std::test::Fail;

// Row by row: the schema's file name, and how `translate` of it ends. `/` opens and then fails to read.
#[test]
fn adapters_tell_the_outside(rt: HostRuntime) -> Result<(), Fail> {
    let rows = [
        ("/dev/null", Status::Refused, "schema:0-0: 201 unexpected\n"),
        (
            "/dev/zero",
            Status::Refused,
            "schema:0-0: 107 text too large\n",
        ),
        ("/dev/null/absent", Status::ReadFault, "read fault\n"),
        ("/", Status::ReadFault, "read fault\n"),
    ];
    let alloc = rt.alloc();
    for (schema, status, line) in rows {
        let mut words = List::new(alloc);
        for word in ["translate", schema, "/dev/null"] {
            words.push(Text::from_text(alloc, word)?)?;
        }
        let mut out = Vec::new(alloc);
        let mut err = Vec::new(alloc);
        let mut files = DiskShelf::new(&rt, words.as_slice());
        let ended = run(
            &rt,
            words.as_slice(),
            &mut files,
            &mut StdSink::new(&mut out),
            &mut StdSink::new(&mut err),
        );
        assert!(rt; ended == status, "{schema}");
        assert_eq!(rt; out.as_slice(), b"".as_slice());
        assert_eq!(rt; err.as_slice(), line.as_bytes());
    }

    // A stream with room for four bytes takes four, and then nothing, which is a fault.
    let mut room = [0u8; 4];
    let mut sink = StdSink::new(room.as_mut_slice());
    assert!(rt; sink.put(b"SELECT") == Ok(4));
    assert!(rt; sink.put(b"CT") == Err(Fault));
    Ok(())
}
