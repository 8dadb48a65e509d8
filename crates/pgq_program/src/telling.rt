ghost use Rattle.std.specs.Prelude.{◌≡◌, ◌⊎◌};
ghost use Rattle.pgq_base.specs.Causes.{Rose};
ghost use Rattle.pgq_program.specs.Runs.{status_of, out_text, err_text, Gets};

use crate::answers::Answer;
use crate::status::Status;
use pgq_base::{Sink, put_all};

/// Puts what the answer has to say: its text on `out` and its line on `err`, one of which is empty.
pub(crate) fn tell<S: Sink, E: Sink>(answer: &Answer, out: &mut S, err: &mut E) -> Status
    ensures status { (result ≡ Status.WriteFault → ⊥) → result ≡ status_of answer.now }
    ensures out { Gets result (out_text answer.now) (S.received out.old) (S.received out.new) (S.faults out.old) (S.faults out.new) }
    ensures err { Gets result (err_text answer.now) (E.received err.old) (E.received err.new) (E.faults err.old) (E.faults err.new) }
    ensures fault { result ≡ Status.WriteFault → Rose (S.faults out.old) (S.faults out.new) ⊎ Rose (E.faults err.old) (E.faults err.new) }
{
    if put_all(out, answer.text()).is_err() {
        return Status::WriteFault;
    }
    if put_all(err, answer.line()).is_err() {
        return Status::WriteFault;
    }
    answer.status()
}
