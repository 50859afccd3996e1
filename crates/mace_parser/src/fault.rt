//! Why tokens are no service, and what a reader gives.

use mace_lexer::Token;
use thiserror::Error;
use wave_base::{OutOfMemory, Span};

/// Why a text is no service. `token` counts from 0, and the end of the text counts as a token behind the last one.
#[derive(Debug, Drop, Error, PartialEq, Eq)]
pub enum ParseError {
    /// The tokens before this one begin a service, and with it they do not.
    #[error("the tokens up to here begin a service, and with this one they do not")]
    Expected { token: usize, at: Span },
    /// With this token the nest passes its limit.
    #[error("brackets and operators are nested deeper than 64")]
    TooDeep { token: usize, at: Span },
    /// There was no memory for the tree.
    #[error("out of memory")]
    OutOfMemory(OutOfMemory),
}

/// Why nothing was read: memory, or the tokens at which the reader is stuck.
#[derive(Drop)]
pub enum Fault<'a> {
    /// There was no memory.
    Memory(OutOfMemory),
    /// No further token fits: these are left.
    Stuck(&'a [Token]),
}

/// A value and the tokens behind it.
pub type Read<'a, T> = Result<(T, &'a [Token]), Fault<'a>>;

impl From<OutOfMemory> for Fault<'_> {
    ghost use Rattle.std.specs.Prelude.{◌≡◌};
    ghost use Rattle.mace_parser.specs.declared.fault.Fault.TheVariants.{Memory};

    ghost from_gives = { λ refused e. e ≡ Memory refused };

    fn from(refused: OutOfMemory) -> Self {
        Fault::Memory(refused)
    }
}
