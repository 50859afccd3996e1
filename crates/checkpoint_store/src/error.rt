//! Why a text is no checkpoint of a service.

ghost use Rattle.std.specs.Prelude.{◌≡◌};
ghost use Rattle.checkpoint_store.specs.Refusals.{error_at};

use thiserror::Error;
use wave_base::OutOfMemory;

/// What is wrong with a line of a checkpoint.
#[derive(Clone, Copy, Debug, PartialEq, Eq)]
pub enum Fault {
    /// The line has not the form.
    Syntax,
    /// It has, and tells other classes than the service's.
    Service,
    /// It has, and tells what no run of the service leaves.
    Tree,
}

/// The first line of a checkpoint that is not as it has to be, from 1, and why. Where two of these hold of a line, the first is told.
#[derive(Clone, Copy, Debug, PartialEq, Eq, Error)]
pub enum CheckError {
    /// The line has not its form, is missing, has no end or is one too many, or it is the head of the snapshot and tells another number
    /// than lines that begin with `at ` stand right behind it.
    #[error("line {line} has not the form of a checkpoint's")]
    Syntax { line: u32 },
    /// The number of classes, or a class, is not the service's.
    #[error("line {line}: other classes than the service has")]
    Service { line: u32 },
    /// A number is out of its range, a context is none of the service's or does not come next, or a place is not that of the next
    /// context or on a host that is not there.
    #[error("line {line}: no tree of the service")]
    Tree { line: u32 },
    /// Memory was wanting, and nothing is said of the text.
    #[error("out of memory")]
    OutOfMemory(OutOfMemory),
}

/// The error of a fault on a line.
pub(crate) fn error_at(fault: Fault, line: u32) -> CheckError
    ensures { result ≡ error_at fault line }
{
    match fault {
        Fault::Syntax => CheckError::Syntax { line },
        Fault::Service => CheckError::Service { line },
        Fault::Tree => CheckError::Tree { line },
    }
}

impl From<OutOfMemory> for CheckError {
    ghost use Rattle.std.specs.Prelude.{◌≡◌};
    ghost use Rattle.checkpoint_store.specs.declared.error.CheckError.TheVariants as error;

    ghost from_gives = { λ refused e. e ≡ error.OutOfMemory refused };

    fn from(refused: OutOfMemory) -> CheckError {
        CheckError::OutOfMemory(refused)
    }
}
