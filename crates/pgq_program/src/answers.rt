ghost use Rattle.std.specs.Prelude.{◌≡◌};
ghost use Rattle.pgq_program.specs.Lines.{usage_line};
ghost use Rattle.pgq_program.specs.Runs.{status_of, out_text, err_text};

use crate::status::Status;
use pgq_base::List;

/// What a run has to say, made whole before the first byte of it is put on a sink.
#[derive(Drop)]
pub(crate) enum Answer {
    Done(List<u8>),
    Refused(List<u8>),
    Usage,
    ReadFault,
    NoMemory,
}

impl Answer {
    pub(crate) fn status(&self) -> Status
        ensures { result ≡ status_of self.now }
    {
        match self {
            Answer::Done(_) => Status::Done,
            Answer::Refused(_) => Status::Refused,
            Answer::Usage => Status::Usage,
            Answer::ReadFault => Status::ReadFault,
            Answer::NoMemory => Status::NoMemory,
        }
    }

    /// The text for `out`.
    pub(crate) fn text(&self) -> &[u8]
        ensures { result.now ≡ out_text self.now }
    {
        match self {
            Answer::Done(text) => text.as_slice(),
            _ => &[],
        }
    }

    /// The line for `err`.
    pub(crate) fn line(&self) -> &[u8]
        ensures { result.now ≡ err_text self.now }
    {
        match self {
            Answer::Done(_) => &[],
            Answer::Refused(line) => line.as_slice(),
            Answer::Usage => usage_line(),
            Answer::ReadFault => b"read fault\n",
            Answer::NoMemory => b"out of memory\n",
        }
    }
}

fn usage_line() -> &'static [u8]
    ensures { result.now ≡ usage_line }
{
    b"usage: pgq translate SCHEMA QUERY, check SCHEMA [QUERY], run SCHEMA QUERY TABLE=FILE ..., eval SCHEMA SQL TABLE=FILE ..., sample N\n"
}
