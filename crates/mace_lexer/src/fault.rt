//! What can be wrong with the tokens of a text, and where.

use thiserror::Error;
use wave_base::{OutOfMemory, Span};

/// What is wrong with a piece of text.
#[derive(Clone, Copy, Debug, PartialEq, Eq)]
pub enum LexFault {
    /// A byte that may not stand here.
    BadByte,
    /// A number above 9223372036854775807.
    NumberRange,
    /// A text without its closing quote.
    OpenText,
    /// A name of more than `NAME_BYTES` bytes.
    NameLong,
    /// A text of more than `LITERAL_BYTES` bytes.
    TextLong,
}

/// The first fault of a text, with its place.
#[derive(Debug, Drop, Error, PartialEq, Eq)]
pub enum LexError {
    /// A byte that may not stand here.
    #[error("a byte that may not stand here")]
    BadByte(Span),
    /// A number that does not fit; negative ones are made of `-` and a number.
    #[error("a number above 9223372036854775807")]
    NumberRange(Span),
    /// A text that its line does not close, at its opening quote.
    #[error("a text without its closing quote")]
    OpenText(Span),
    /// A name that is too long.
    #[error("a name of more than 64 bytes")]
    NameLong(Span),
    /// A text that is too long, in bytes that are meant.
    #[error("a text of more than 200 bytes")]
    TextLong(Span),
    /// Memory was wanting, and nothing is said of the text.
    #[error("out of memory")]
    OutOfMemory(OutOfMemory),
}

impl From<OutOfMemory> for LexError {
    ghost use Rattle.std.specs.Prelude.{◌≡◌};
    ghost use Rattle.mace_lexer.specs.declared.fault.LexError.TheVariants as error;

    ghost from_gives = { λ refused e. e ≡ error.OutOfMemory refused };

    fn from(refused: OutOfMemory) -> LexError {
        LexError::OutOfMemory(refused)
    }
}
