//! What becomes of a line that is not taken.

ghost use Rattle.std.specs.Prelude.{◌≡◌};
ghost use Rattle.script_reader.specs.inner.Steps.{error_of_refusal};

use crate::error::{Fault, ScriptError, error_at};
use wave_base::OutOfMemory;

/// Why a line is not taken.
#[derive(Clone, Copy, Debug, PartialEq, Eq)]
pub enum Refusal {
    /// What is wrong with the line.
    Fault(Fault),
    /// Memory was wanting, and nothing is said of the line.
    OutOfMemory(OutOfMemory),
}

impl From<Fault> for Refusal {
    ghost use Rattle.std.specs.Prelude.{◌≡◌};
    ghost use Rattle.script_reader.specs.declared.refusal.Refusal.TheVariants as refusal;

    ghost from_gives = { λ f r. r ≡ refusal.Fault f };

    fn from(fault: Fault) -> Refusal {
        Refusal::Fault(fault)
    }
}

impl From<OutOfMemory> for Refusal {
    ghost use Rattle.std.specs.Prelude.{◌≡◌};
    ghost use Rattle.script_reader.specs.declared.refusal.Refusal.TheVariants as refusal;

    ghost from_gives = { λ refused r. r ≡ refusal.OutOfMemory refused };

    fn from(refused: OutOfMemory) -> Refusal {
        Refusal::OutOfMemory(refused)
    }
}

/// The error of a line that is not taken, and has this number.
pub(crate) fn error_of_refusal(refusal: Refusal, line: u32) -> ScriptError
    ensures { result ≡ error_of_refusal refusal line }
{
    match refusal {
        Refusal::Fault(fault) => error_at(fault, line),
        Refusal::OutOfMemory(refused) => ScriptError::OutOfMemory(refused),
    }
}
