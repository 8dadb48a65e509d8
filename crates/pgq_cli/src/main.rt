//! The program: its words, the file system and the standard streams, around the top call.
#![tactic(auto)]

mod disk;
mod exit;
mod run;
mod stream;
#[cfg(test)]
mod tests;
mod words;

use disk::DiskShelf;
use exit::exit_code;
use pgq_base::{NoMemory, put_all};
use pgq_program::Status;
use run::run;
use std::process::ExitCode;
use stream::StdSink;
use words::words_after_name;

/// Does what the words after the program's name ask for, over the file system, standard output and
/// standard error, and ends with the exit status of the run's ending.
///
/// Where memory is refused for the words themselves it puts `out of memory` on standard error and ends
/// with 5. That line's own fault changes nothing.
fn main(rt: HostRuntime) -> ExitCode {
    let mut out = StdSink::new(rt.stdout());
    let mut err = StdSink::new(rt.stderr());
    let status = match words_after_name(&rt) {
        Ok(words) => {
            let mut files = DiskShelf::new(&rt, words.as_slice());
            run(&rt, words.as_slice(), &mut files, &mut out, &mut err)
        }
        Err(NoMemory) => {
            let _ = put_all(&mut err, b"out of memory\n");
            Status::NoMemory
        }
    };
    exit_code(status)
}
