ghost use Rattle.std.specs.Prelude.{◌≡◌};
ghost use Rattle.pgq_program.specs.declared.halt.Halt.TheVariants.{NoMemory as OutOfMemory};
ghost use Rattle.pgq_program.specs.Steps.{halt_of};

use pgq_base::{NoMemory, Refusal, Stop};

/// Why a run ends without a text.
#[derive(Debug, Drop)]
pub enum Halt {
    Refused(Refusal),
    Usage,
    ReadFault,
    NoMemory,
}

impl From<NoMemory> for Halt {
    ghost from_gives = { λ _ e. e ≡ OutOfMemory };

    fn from(_: NoMemory) -> Halt {
        Halt::NoMemory
    }
}

impl From<Stop> for Halt {
    ghost from_gives = { λ stop e. e ≡ halt_of stop };

    fn from(stop: Stop) -> Halt {
        match stop {
            Stop::Refused(refusal) => Halt::Refused(refusal),
            Stop::NoMemory => Halt::NoMemory,
        }
    }
}
