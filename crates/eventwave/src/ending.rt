//! How the top call ends.

ghost use Rattle.std.specs.Prelude.{◌≡◌};
ghost use Rattle.eventwave.specs.inner.Parts.{broken_off};

use listing_out::ListError;
use wave_base::{OutOfMemory, Seq};

/// How a call ended.
#[derive(Debug, Drop)]
pub enum Ending {
    /// The words are no command.
    WordsRefused,
    /// The source failed.
    ReadFault,
    /// The sink failed.
    WriteFault,
    /// Memory was wanting.
    NoMemory(OutOfMemory),
    /// An answer was given whole: its status and note.
    Answered(u8, Seq<u8>),
}

impl From<OutOfMemory> for Ending {
    ghost use Rattle.std.specs.Prelude.{◌≡◌};
    ghost use Rattle.eventwave.specs.declared.ending.Ending.TheVariants as ending;

    ghost from_gives = { λ refused e. e ≡ ending.NoMemory refused };

    fn from(refused: OutOfMemory) -> Ending {
        Ending::NoMemory(refused)
    }
}

/// Lines that were not written whole.
pub fn broken_off(error: ListError) -> Ending
    ensures { result ≡ broken_off error }
{
    match error {
        ListError::WriteFault => Ending::WriteFault,
        ListError::OutOfMemory(refused) => Ending::NoMemory(refused),
    }
}
