//! Why a service breaks a rule of types.

use thiserror::Error;
use wave_base::{OutOfMemory, Span};

/// A limit of the language.
#[derive(Clone, Copy, Debug, PartialEq, Eq)]
pub enum Which {
    /// Classes lie at most 8 deep.
    Nesting,
    /// A context has at most 64 fields.
    Fields,
    /// A method or an event has at most 16 parameters.
    Params,
    /// A function has at most 256 locals, three of them for each `for`.
    Locals,
}

/// Why a service isn't typed, with the place of the fault.
#[derive(Clone, Copy, Debug, Error, PartialEq, Eq)]
pub enum TypeError {
    /// A name that stands for nothing at this place.
    #[error("a name that nothing has here")]
    UnknownName(Span),
    /// A name that another declaration at this place has.
    #[error("a name that is taken")]
    Duplicate(Span),
    /// A value of another kind than is wanted.
    #[error("a value of another kind")]
    Mismatch(Span),
    /// More or fewer arguments than parameters.
    #[error("another number of arguments")]
    ArgCount(Span),
    /// A child class that the class where this stands has not.
    #[error("no way to that class from here")]
    NotDownward(Span),
    /// A call of a method that is not earlier in the text.
    #[error("a method that isn't earlier in the text")]
    CalleeLater(Span),
    /// A method or an event that is to give a value and doesn't end with one.
    #[error("no `return` or `reply` where there is a type")]
    MissingReply(Span),
    /// A limit of the language that is passed.
    #[error("more than the language allows")]
    Limit(Which, Span),
    /// A statement behind one that surely ends its function.
    #[error("nothing comes to it")]
    Unreachable(Span),
    /// Memory was wanting, and nothing is said of the service.
    #[error("out of memory")]
    OutOfMemory(OutOfMemory),
}

impl From<OutOfMemory> for TypeError {
    ghost use Rattle.std.specs.Prelude.{◌≡◌};
    ghost use Rattle.type_rules.specs.declared.error.TypeError.TheVariants as error;

    ghost from_gives = { λ refused e. e ≡ error.OutOfMemory refused };

    fn from(refused: OutOfMemory) -> TypeError {
        TypeError::OutOfMemory(refused)
    }
}
