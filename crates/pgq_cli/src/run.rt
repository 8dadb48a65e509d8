ghost use Rattle.std.specs.Prelude.{◌≡◌, ◌⊎◌, [], None, Some, IfSome};
ghost use Rattle.std.specs.Io.KnownBytes.{Appends};
ghost use Rattle.pgq_base.specs.Causes.{Rose};
ghost use Rattle.pgq_program.specs.Commands.{command_of, MayBeUsage};
ghost use Rattle.pgq_program.specs.Runs.{Ran, HasLine};

use crate::disk::DiskShelf;
use pgq_base::{Shelf, Sink, Text};
use pgq_program::{Status, pgq};
use std::rt::Files;

/// Does what the words ask for, with the files of the file system, and puts the outcome on the two
/// sinks. The answers and their order are those of `pgq`.
///
/// Of the files' content nothing is known here; which text each sink receives under which ending, which
/// line `err` receives, whom an ending blames, and that only words of another form, or that name tables, are
/// `Usage`, holds all the same.
pub(crate) fn run<'a, R: Files + AllocGlobal, S: Sink, E: Sink>(
    rt: &R,
    words: &[Text],
    files: &mut DiskShelf<'a, R>,
    out: &mut S,
    err: &mut E,
) -> Status
    requires { ⟦<DiskShelf<'a, R> as Shelf>⟧.words files.old ≡ words.now }

    // Some answer had its cause; by it, each sink has received its text, and under WriteFault a prefix of it.
    ensures ran { Ran words.now None (⟦<DiskShelf<'a, R> as Shelf>⟧.faults files.old) (⟦<DiskShelf<'a, R> as Shelf>⟧.faults files.new) result
        (S.received out.old) (S.received out.new) (S.faults out.old) (S.faults out.new) (E.received err.old) (E.received err.new) (E.faults err.old) (E.faults err.new) }

    // Usage comes of words of another form, but for want of memory and a fault of a sink, and where words name tables.
    ensures usage { result ≡ Status.Usage → MayBeUsage (command_of words.now) }
    ensures form { command_of words.now ≡ None → (result ≡ Status.Usage) ⊎ (result ≡ Status.NoMemory) ⊎ (result ≡ Status.WriteFault) }

    // The outside is blamed only where a count rose, or stands at its last value, and no count rose under another answer.
    ensures read { result ≡ Status.ReadFault → Rose (⟦<DiskShelf<'a, R> as Shelf>⟧.faults files.old) (⟦<DiskShelf<'a, R> as Shelf>⟧.faults files.new) }
    ensures write { result ≡ Status.WriteFault → Rose (S.faults out.old) (S.faults out.new) ⊎ Rose (E.faults err.old) (E.faults err.new) }
    ensures quiet { (result ≡ Status.Done) ⊎ (result ≡ Status.Usage) ⊎ (result ≡ Status.Refused)
        → (⟦<DiskShelf<'a, R> as Shelf>⟧.faults files.new ≡ ⟦<DiskShelf<'a, R> as Shelf>⟧.faults files.old) × (S.faults out.new ≡ S.faults out.old) × (E.faults err.new ≡ E.faults err.old) }

    // Nothing is on `out` under another status than Done, and nothing on `err` under Done.
    ensures nothing { (result ≡ Status.Done → ⊥) → (result ≡ Status.WriteFault → ⊥) → Appends (S.received out.old) (S.received out.new) [] }
    ensures silent { result ≡ Status.Done → Appends (E.received err.old) (E.received err.new) [] }

    // `err` has the line of the status: that of some refusal under Refused.
    ensures line { (result ≡ Status.WriteFault → ⊥) → HasLine result (E.received err.old) (E.received err.new) }

    ensures words { ⟦<DiskShelf<'a, R> as Shelf>⟧.words files.new ≡ ⟦<DiskShelf<'a, R> as Shelf>⟧.words files.old }
{
    pgq(rt.alloc(), words, files, out, err)
}
