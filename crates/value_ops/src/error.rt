//! Why an operator gives no value.

use thiserror::Error;
use wave_base::{OutOfMemory, TrapKind};

/// Why an operator gives no value.
#[derive(Clone, Copy, Debug, PartialEq, Eq, Error)]
pub enum OpError {
    /// The operands make it trap.
    #[error("trap {0:?}")]
    Trap(TrapKind),
    /// Memory was wanting for the value.
    #[error("out of memory")]
    OutOfMemory(OutOfMemory),
}

impl From<TrapKind> for OpError {
    ghost use Rattle.std.specs.Prelude.{◌≡◌};
    ghost use Rattle.value_ops.specs.declared.error.OpError.TheVariants.{Trap};

    ghost from_gives = { λ trap e. e ≡ Trap trap };

    fn from(trap: TrapKind) -> OpError {
        OpError::Trap(trap)
    }
}

impl From<OutOfMemory> for OpError {
    ghost use Rattle.std.specs.Prelude.{◌≡◌};
    ghost use Rattle.value_ops.specs.declared.error.OpError.TheVariants.{OutOfMemory};

    ghost from_gives = { λ refused e. e ≡ OutOfMemory refused };

    fn from(refused: OutOfMemory) -> OpError {
        OpError::OutOfMemory(refused)
    }
}
