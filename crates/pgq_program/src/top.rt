ghost use Rattle.std.specs.Prelude.{◌≡◌, ◌⊎◌, ◌≤◌, ℕ, List, [], None, Some, IfSome, Ok, Err};
ghost use Rattle.std.specs.Io.KnownBytes.{Appends};
ghost use Rattle.pgq_base.specs.Causes.{Rose};
ghost use Rattle.pgq_program.specs.declared.halt.Halt.TheVariants.{Refused as IsRefused, Usage as IsUsage};
ghost use Rattle.pgq_program.specs.Commands.Asked.{OfSample};
ghost use Rattle.pgq_program.specs.Commands.{command_of, MayBeUsage};
ghost use Rattle.pgq_program.specs.Lines.{refusal_line, IsLineOf};
ghost use Rattle.pgq_program.specs.Outcomes.{Outcome, IsTextOf, Writes};
ghost use Rattle.pgq_program.specs.Places.{IsLineDue};
ghost use Rattle.pgq_program.specs.Steps.{Owes};
ghost use Rattle.pgq_program.specs.Runs.{IsDue, AnswerCause, Ran, HasLine, status_of, out_text, err_text};

use crate::answers::Answer;
use crate::halt::Halt;
use crate::lines::line_of;
use crate::status::Status;
use crate::steps::answer;
use crate::telling::tell;
use pgq_base::{Shelf, Sink, Text};
use std::alloc::Global;

/// Does what the words ask for, with the files of the shelf, and puts the outcome on the two sinks.
///
/// `translate SCHEMA QUERY` writes the SQL text that means the query over the tables of the schema,
/// `check SCHEMA` writes `ok`, `check SCHEMA QUERY` writes `ok, weight W`, W the query's weight in decimal,
/// `run SCHEMA QUERY TABLE=FILE ..` the table text of the query's answer over the view of the tables of the files,
/// `eval SCHEMA SQL TABLE=FILE ..` the table text of the SQL text over the tables of the files, and `sample N`, with N
/// from 1 to 2000, the summary of the generated run with N persons, for which no file is read. Words of
/// another form are `Usage`. Things are looked at in this order: the words; the schema file, by its size, its tokens, its
/// grammar and its rules; under `run` and `eval` the names of the tables, where an unknown one and one that stands twice are
/// `Usage`; the query file, by its size, its tokens, its grammar, whether it has a form that is not served yet, and its rules,
/// or the SQL file, by its size, its tokens, its grammar and its rules; the tables' files in the order of the words, each by its
/// size and its content; their keys and references; and the number of rows, of which more than 1,000,000 are refused by
/// `TooManyRows`. The first of them that is at fault gives the answer.
///
/// The whole text is made before its first byte is put on `out`. Under `Done` `out` receives the text and `err`
/// nothing; under another status `out` receives nothing and `err` one line, unless a sink fails, which is
/// `WriteFault` and leaves each sink with a prefix of its text.
pub fn pgq<F: Shelf, S: Sink, E: Sink>(
    alloc: Global,
    words: &[Text],
    files: &mut F,
    out: &mut S,
    err: &mut E,
) -> Status
    requires { F.words files.old ≡ words.now }

    // Some answer was due and had its cause; by it, each sink has received its text, and under WriteFault a prefix of it.
    ensures ran { Ran words.now (F.files files.old) (F.faults files.old) (F.faults files.new) result (S.received out.old) (S.received out.new) (S.faults out.old) (S.faults out.new)
        (E.received err.old) (E.received err.new) (E.faults err.old) (E.faults err.new) }

    // What is written is a text of what is due: of `translate` one that means the query, over every instance that fits; of `check` the
    // line `ok`, and then the schema text is without faults; with a query the line with its weight, and then the query text is, too; of
    // `run` the table text of the answer over the view of the tables, of `eval` that of the SQL text's rows, of `sample` its counts.
    ensures done { result ≡ Status.Done → IfSome (F.files files.old) (λ told. (outcome : Outcome) × Owes (command_of words.now) told (Ok outcome)
        × Writes outcome (S.received out.old) (S.received out.new)) }

    // Where a text is due and no count rose, one is written unless memory is refused.
    ensures complete { IfSome (F.files files.old) (λ told. (outcome : Outcome) → Owes (command_of words.now) told (Ok outcome)
        → (Rose (F.faults files.old) (F.faults files.new) → ⊥) → (Rose (S.faults out.old) (S.faults out.new) → ⊥) → (Rose (E.faults err.old) (E.faults err.new) → ⊥)
        → ((result ≡ Status.Done) × Writes outcome (S.received out.old) (S.received out.new)) ⊎ (result ≡ Status.NoMemory)) }

    // Where a refusal is due and no count rose, its line is written unless memory is refused.
    ensures refused { IfSome (F.files files.old) (λ told. (refusal : _) → Owes (command_of words.now) told (Err (IsRefused refusal))
        → (Rose (F.faults files.old) (F.faults files.new) → ⊥) → (Rose (S.faults out.old) (S.faults out.new) → ⊥) → (Rose (E.faults err.old) (E.faults err.new) → ⊥)
        → ((result ≡ Status.Refused) × Appends (E.received err.old) (E.received err.new) (refusal_line refusal)) ⊎ (result ≡ Status.NoMemory)) }

    // Under Refused `err` received the line of the refusal that is due, which names a part of the text of its role.
    ensures told { result ≡ Status.Refused → IfSome (F.files files.old) (λ told. (line : List ℕ) × IsLineDue (command_of words.now) told line
        × Appends (E.received err.old) (E.received err.new) line) }

    // Usage comes exactly by the form of the words, and where a table that they name is unknown or stands twice, but for want of memory and a
    // fault of a sink.
    ensures usage { result ≡ Status.Usage → MayBeUsage (command_of words.now) × IfSome (F.files files.old) (λ told. Owes (command_of words.now) told (Err IsUsage)) }
    ensures used { IfSome (F.files files.old) (λ told. Owes (command_of words.now) told (Err IsUsage)
        → (Rose (F.faults files.old) (F.faults files.new) → ⊥) → (Rose (S.faults out.old) (S.faults out.new) → ⊥) → (Rose (E.faults err.old) (E.faults err.new) → ⊥)
        → (result ≡ Status.Usage) ⊎ (result ≡ Status.NoMemory)) }
    ensures form { command_of words.now ≡ None → (result ≡ Status.Usage) ⊎ (result ≡ Status.NoMemory) ⊎ (result ≡ Status.WriteFault) }

    // `sample N` is never refused: its summary is written, but for want of memory and a fault of a sink.
    ensures sampled { (n : ℕ) → command_of words.now ≡ Some (OfSample n) → (result ≡ Status.Done) ⊎ (result ≡ Status.NoMemory) ⊎ (result ≡ Status.WriteFault) }

    // The outside is blamed only where a count rose, or stands at its last value, and no count rose under another answer.
    ensures read { result ≡ Status.ReadFault → Rose (F.faults files.old) (F.faults files.new) }
    ensures write { result ≡ Status.WriteFault → Rose (S.faults out.old) (S.faults out.new) ⊎ Rose (E.faults err.old) (E.faults err.new) }
    ensures quiet { (result ≡ Status.Done) ⊎ (result ≡ Status.Usage) ⊎ (result ≡ Status.Refused)
        → (F.faults files.new ≡ F.faults files.old) × (S.faults out.new ≡ S.faults out.old) × (E.faults err.new ≡ E.faults err.old) }

    // Nothing is on `out` under another status than Done, and nothing on `err` under Done.
    ensures nothing { (result ≡ Status.Done → ⊥) → (result ≡ Status.WriteFault → ⊥) → Appends (S.received out.old) (S.received out.new) [] }
    ensures silent { result ≡ Status.Done → Appends (E.received err.old) (E.received err.new) [] }

    // `err` has the line of the status, whether the files are told or not: that of some refusal under Refused.
    ensures line { (result ≡ Status.WriteFault → ⊥) → HasLine result (E.received err.old) (E.received err.new) }

    // The shelf stays as it was made, so that it can be used again.
    ensures words { F.words files.new ≡ F.words files.old }
    ensures files { F.files files.new ≡ F.files files.old }
{
    let said = decide(alloc, words, files);
    tell(&said, out, err)
}

// What there is to say. No sink is seen before it is decided.
fn decide<F: Shelf>(alloc: Global, words: &[Text], files: &mut F) -> Answer
    requires { F.words files.old ≡ words.now }
    ensures words { F.words files.new ≡ F.words files.old }
    ensures files { F.files files.new ≡ F.files files.old }
    ensures cause { AnswerCause (F.faults files.old) (F.faults files.new) result }
    ensures due { IfSome (F.files files.old) (λ told. IsDue (Owes (command_of words.now) told) result) }
    ensures line { IsLineOf (status_of result) (err_text result) }
    ensures form { command_of words.now ≡ None → (status_of result ≡ Status.Usage) ⊎ (status_of result ≡ Status.NoMemory) }
    ensures usage { status_of result ≡ Status.Usage → MayBeUsage (command_of words.now) }
    ensures sampled { (n : ℕ) → command_of words.now ≡ Some (OfSample n) → (status_of result ≡ Status.Done) ⊎ (status_of result ≡ Status.NoMemory) }
    ensures told { status_of result ≡ Status.Refused → IfSome (F.files files.old) (λ told. IsLineDue (command_of words.now) told (err_text result)) }
    ensures complete { IfSome (F.files files.old) (λ told. (outcome : Outcome) → Owes (command_of words.now) told (Ok outcome) → (Rose (F.faults files.old) (F.faults files.new) → ⊥)
        → ((status_of result ≡ Status.Done) × IsTextOf outcome (out_text result)) ⊎ (status_of result ≡ Status.NoMemory)) }
    ensures refused { IfSome (F.files files.old) (λ told. (refusal : _) → Owes (command_of words.now) told (Err (IsRefused refusal)) → (Rose (F.faults files.old) (F.faults files.new) → ⊥)
        → ((status_of result ≡ Status.Refused) × (err_text result ≡ refusal_line refusal)) ⊎ (status_of result ≡ Status.NoMemory)) }
    ensures used { IfSome (F.files files.old) (λ told. Owes (command_of words.now) told (Err IsUsage) → (Rose (F.faults files.old) (F.faults files.new) → ⊥)
        → (status_of result ≡ Status.Usage) ⊎ (status_of result ≡ Status.NoMemory)) }
    ensures owed { status_of result ≡ Status.Usage → IfSome (F.files files.old) (λ told. Owes (command_of words.now) told (Err IsUsage)) }
{
    answer_of(alloc, words, files)
}

fn answer_of<F: Shelf>(alloc: Global, words: &[Text], files: &mut F) -> Answer
    requires { F.words files.old ≡ words.now }
    ensures words { F.words files.new ≡ F.words files.old }
    ensures files { F.files files.new ≡ F.files files.old }
    ensures cause { AnswerCause (F.faults files.old) (F.faults files.new) result }
    ensures due { IfSome (F.files files.old) (λ told. IsDue (Owes (command_of words.now) told) result) }
    ensures line { IsLineOf (status_of result) (err_text result) }
    ensures form { command_of words.now ≡ None → (status_of result ≡ Status.Usage) ⊎ (status_of result ≡ Status.NoMemory) }
    ensures usage { status_of result ≡ Status.Usage → MayBeUsage (command_of words.now) }
    ensures sampled { (n : ℕ) → command_of words.now ≡ Some (OfSample n) → (status_of result ≡ Status.Done) ⊎ (status_of result ≡ Status.NoMemory) }
{
    match answer(alloc, words, files) {
        Ok(text) => Answer::Done(text),
        Err(Halt::Refused(refusal)) => match line_of(alloc, &refusal) {
            Ok(line) => Answer::Refused(line),
            Err(_) => Answer::NoMemory,
        },
        Err(Halt::Usage) => Answer::Usage,
        Err(Halt::ReadFault) => Answer::ReadFault,
        Err(Halt::NoMemory) => Answer::NoMemory,
    }
}
