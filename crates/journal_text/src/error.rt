//! Why a text is no journal of a service.

use thiserror::Error;
use wave_base::OutOfMemory;

/// Why a text is no journal's.
#[derive(Clone, Copy, Debug, PartialEq, Eq, Error)]
pub enum JournalError {
    /// The first line, from 1, that is not as it has to be. The first line of all is refused too where it tells
    /// another number of lines than stand behind it.
    #[error("line {line} is not as a journal has it")]
    Syntax { line: u32 },
    /// Memory was wanting, and nothing is said of the text.
    #[error("out of memory")]
    OutOfMemory(OutOfMemory),
}

impl From<OutOfMemory> for JournalError {
    ghost use Rattle.std.specs.Prelude.{◌≡◌};
    ghost use Rattle.journal_text.specs.declared.error.JournalError.TheVariants as error;

    ghost from_gives = { λ refused e. e ≡ error.OutOfMemory refused };

    fn from(refused: OutOfMemory) -> JournalError {
        JournalError::OutOfMemory(refused)
    }
}
