//! Why a service has no code.

use thiserror::Error;
use wave_base::OutOfMemory;

/// Why a service has no code.
#[derive(Clone, Copy, PartialEq, Eq, Debug, Error)]
pub enum CompileError {
    /// The number of the program's first function that has more than 65,535 instructions, and how many it has: 4,294,967,295 stands for
    /// that many or more.
    #[error("function {function} has {length} instructions")]
    CodeTooLong { function: u16, length: u32 },
    /// Memory was wanting.
    #[error("out of memory")]
    OutOfMemory(OutOfMemory),
}

impl From<OutOfMemory> for CompileError {
    ghost use Rattle.std.specs.Prelude.{◌≡◌};
    ghost use Rattle.service_compiler.specs.declared.error.CompileError.TheVariants.{OutOfMemory};

    ghost from_gives = { λ refused r. r ≡ OutOfMemory refused };

    fn from(refused: OutOfMemory) -> CompileError {
        CompileError::OutOfMemory(refused)
    }
}
