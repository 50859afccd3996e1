//! Why a text is no service, from whichever part this comes.

use mace_lexer::LexError;
use mace_parser::ParseError;
use thiserror::Error;
use wave_base::OutOfMemory;

/// Why a text is no service. The parts' own want of memory is never told by them: it is `OutOfMemory` here.
#[derive(Debug, Drop, Error, PartialEq, Eq)]
pub enum TextFault {
    /// The text is longer than a service may be.
    #[error("a text of more than 262,144 bytes")]
    TooLarge,
    /// The first fault of its tokens.
    #[error("a text that can't be cut into tokens")]
    Lex(LexError),
    /// The first fault of the grammar.
    #[error("tokens that are no service")]
    Parse(ParseError),
    /// Memory was wanting, and nothing is said of the text.
    #[error("out of memory")]
    OutOfMemory(OutOfMemory),
}

impl From<LexError> for TextFault {
    ghost use Rattle.std.specs.Prelude.{◌≡◌};
    ghost use Rattle.service_reader.specs.Faults.{of_lexer};

    ghost from_gives = { λ error fault. fault ≡ of_lexer error };

    fn from(error: LexError) -> TextFault {
        match error {
            LexError::OutOfMemory(refused) => TextFault::OutOfMemory(refused),
            error => TextFault::Lex(error),
        }
    }
}

impl From<ParseError> for TextFault {
    ghost use Rattle.std.specs.Prelude.{◌≡◌};
    ghost use Rattle.service_reader.specs.Faults.{of_parser};

    ghost from_gives = { λ error fault. fault ≡ of_parser error };

    fn from(error: ParseError) -> TextFault {
        match error {
            ParseError::OutOfMemory(refused) => TextFault::OutOfMemory(refused),
            error => TextFault::Parse(error),
        }
    }
}
