//! How workers end, and why a plan was not run to its end.

use thiserror::Error;
use wave_base::OutOfMemory;
use wave_board::StopCause;

/// How a worker ended.
#[derive(Clone, Copy, PartialEq, Eq, Debug)]
pub enum WorkerEnd {
    /// All is done.
    Finished,
    /// Another worker stopped the workers.
    Stopped(StopCause),
    /// It could not write, and stopped the others.
    WriteFault,
    /// It wanted memory, and stopped the others.
    OutOfMemory(OutOfMemory),
}

/// Why a plan was not run to its end. A front of its lines was written.
#[derive(Clone, Copy, PartialEq, Eq, Debug, Error)]
pub enum RunError {
    /// The sink failed.
    #[error("a write failed")]
    WriteFault,
    /// There was no memory for the board, its workers, their steps or the lines.
    #[error("out of memory")]
    OutOfMemory(OutOfMemory),
}

impl From<OutOfMemory> for RunError {
    ghost use Rattle.std.specs.Prelude.{◌≡◌};
    ghost use Rattle.host_workers.specs.declared.ending.RunError.TheVariants as error;

    ghost from_gives = { λ refused e. e ≡ error.OutOfMemory refused };

    fn from(refused: OutOfMemory) -> RunError {
        RunError::OutOfMemory(refused)
    }
}
