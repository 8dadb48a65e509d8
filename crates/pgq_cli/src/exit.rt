ghost use Rattle.std.specs.Prelude.{◌≡◌};
ghost use Rattle.std.specs.Process.{exit_status};
ghost use Rattle.pgq_cli.specs.Exits.{exit_number};

use pgq_program::Status;
use std::process::ExitCode;

/// The exit status by which the program tells how a run ended, from 0 to 5 in the order of `Status`.
/// The numbers are this project's own.
pub(crate) fn exit_code(ending: Status) -> ExitCode
    ensures { exit_status result ≡ exit_number ending }
{
    ExitCode::from(match ending {
        Status::Done => 0,
        Status::Refused => 1,
        Status::Usage => 2,
        Status::ReadFault => 3,
        Status::WriteFault => 4,
        Status::NoMemory => 5,
    })
}
