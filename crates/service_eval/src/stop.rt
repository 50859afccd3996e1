//! Why the rest of an event's code is left out.

use thiserror::Error;
use wave_base::{OutOfMemory, Trap, Value};

/// Why the rest of an event's code is left out.
#[derive(Debug, Drop, Error)]
pub enum Stop {
    /// It met a trap.
    #[error("trap {0:?}")]
    Trapped(Trap),
    /// Memory was wanting.
    #[error("out of memory")]
    OutOfMemory(OutOfMemory),
    /// It was ended early, with this reply, if any.
    #[error("ended")]
    Ended(Option<Value>),
}

impl From<OutOfMemory> for Stop {
    ghost use Rattle.std.specs.Prelude.{◌≡◌};
    ghost use Rattle.service_eval.specs.declared.stop.Stop.TheVariants.{OutOfMemory};

    ghost from_gives = { λ refused e. e ≡ OutOfMemory refused };

    fn from(refused: OutOfMemory) -> Stop {
        Stop::OutOfMemory(refused)
    }
}
