//! Why no hints are told.

use thiserror::Error;
use wave_base::OutOfMemory;

/// Why no hints are told.
#[derive(Debug, Drop, Error, PartialEq, Eq)]
pub enum HintError {
    /// The words are too many and too long to be tried.
    #[error("words that are too many and too long to be tried")]
    TooLarge,
    /// There was no memory.
    #[error("out of memory")]
    OutOfMemory(OutOfMemory),
}

impl From<OutOfMemory> for HintError {
    ghost use Rattle.std.specs.Prelude.{◌≡◌};
    ghost use Rattle.mace_hints.specs.declared.fault.HintError.TheVariants as error;

    ghost from_gives = { λ refused e. e ≡ error.OutOfMemory refused };

    fn from(refused: OutOfMemory) -> HintError {
        HintError::OutOfMemory(refused)
    }
}
