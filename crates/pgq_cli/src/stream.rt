ghost use Rattle.std.specs.Prelude.{◌≡◌, ◌≤◌, None, IfSome, length};

use pgq_base::{Fault, Sink};
use std::io::Write;

/// A stream, as standard output, that is flushed after each write.
///
/// A write that fails or takes nothing and a flush that fails are faults, which the count of faults tells.
/// What the stream keeps is not told.
#[derive(Drop)]
pub(crate) struct StdSink<W: Write> {
    stream: W,
    faults: u64,
}

impl<W: Write> StdSink<W> {
    /// A sink over that stream, with no fault counted.
    pub(crate) fn new(stream: W) -> StdSink<W>
        ensures { ⟦<StdSink<W> as Sink>⟧.faults result ≡ 0 }
    {
        StdSink { stream, faults: 0 }
    }

    // One write and its flush: how many bytes were taken, where some were.
    fn put_once(&mut self, bytes: &[u8]) -> Option<usize>
        ensures faults { self.new.faults ≡ self.old.faults }
        ensures least { IfSome result (λ n. 1 ≤ n) }
        ensures most { IfSome result (λ n. n ≤ length bytes.now) }
    {
        match self.stream.write(bytes) {
            Ok(count) if count > 0 && self.stream.flush().is_ok() => Some(count),
            _ => None,
        }
    }
}

impl<W: Write> Sink for StdSink<W> {
    ghost received = { λ s. None };

    ghost faults = { λ s. s.faults };

    fn put(&mut self, bytes: &[u8]) -> Result<usize, Fault> {
        match self.put_once(bytes) {
            Some(count) => Ok(count),
            None => {
                self.faults = self.faults.saturating_add(1);
                Err(Fault)
            }
        }
    }
}
