ghost use Rattle.std.specs.Prelude.{◌≡◌};
ghost use Rattle.table_loads.specs.declared.stops.TablesStop.TheVariants.{NoMemory as OutOfMemory};
ghost use Rattle.table_loads.specs.Loads.{stop_of};

use pgq_base::{NoMemory, Refusal, Stop};

/// Why the tables of a command are not there: a file or its rows are refused, the shelf failed, or memory
/// ran out.
#[derive(Debug, Drop)]
pub enum TablesStop {
    Refused(Refusal),
    ReadFault,
    NoMemory,
}

impl From<NoMemory> for TablesStop {
    ghost from_gives = { λ _ e. e ≡ OutOfMemory };

    fn from(_: NoMemory) -> TablesStop {
        TablesStop::NoMemory
    }
}

impl From<Stop> for TablesStop {
    ghost from_gives = { λ stop e. e ≡ stop_of stop };

    fn from(stop: Stop) -> TablesStop {
        match stop {
            Stop::Refused(refusal) => TablesStop::Refused(refusal),
            Stop::NoMemory => TablesStop::NoMemory,
        }
    }
}
