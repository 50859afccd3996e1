//! Why a text is no snapshot of a service.

ghost use Rattle.std.specs.Prelude.{◌≡◌};
ghost use Rattle.snapshot_text.specs.Refusals.{error_at};

use thiserror::Error;
use wave_base::OutOfMemory;

/// What is wrong with a line of a snapshot.
#[derive(Clone, Copy, Debug, PartialEq, Eq)]
pub enum Fault {
    /// The line has not the form.
    Syntax,
    /// The path is none of the service.
    Class,
    /// The fields are not those of the class, or a value is none of its field's kind or passes a limit.
    Field,
    /// The path does not come next.
    Order,
}

/// The first line of a snapshot that is not as it has to be, from 1, and why.
#[derive(Clone, Copy, Debug, PartialEq, Eq, Error)]
pub enum ShotError {
    /// The line has not the form, or the first line tells another number of lines than stand behind it.
    #[error("line {line} has not the form of a snapshot's")]
    Syntax { line: u32 },
    /// The path is none of the service.
    #[error("line {line}: no path of the service")]
    Class { line: u32 },
    /// The fields are not those of the class, or a value is none of its field's kind or passes a limit.
    #[error("line {line}: other fields than the class has")]
    Field { line: u32 },
    /// The path does not stand behind the one before it, its parent is not among those before, or the first is not the
    /// root's.
    #[error("line {line}: a path that does not come next")]
    Order { line: u32 },
    /// Memory was wanting, and nothing is said of the text.
    #[error("out of memory")]
    OutOfMemory(OutOfMemory),
}

/// The error of a fault on a line.
pub fn error_at(fault: Fault, line: u32) -> ShotError
    ensures { result ≡ error_at fault line }
{
    match fault {
        Fault::Syntax => ShotError::Syntax { line },
        Fault::Class => ShotError::Class { line },
        Fault::Field => ShotError::Field { line },
        Fault::Order => ShotError::Order { line },
    }
}

impl From<OutOfMemory> for ShotError {
    ghost use Rattle.std.specs.Prelude.{◌≡◌};
    ghost use Rattle.snapshot_text.specs.declared.error.ShotError.TheVariants as error;

    ghost from_gives = { λ refused e. e ≡ error.OutOfMemory refused };

    fn from(refused: OutOfMemory) -> ShotError {
        ShotError::OutOfMemory(refused)
    }
}
