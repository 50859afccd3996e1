//! Traps.

use crate::span::Span;

/// Why an event ended before its end.
#[derive(Clone, Copy, Debug, PartialEq, Eq)]
pub enum TrapKind {
    /// A whole number outside 64 bits with sign.
    Overflow,
    /// A division by zero.
    DivZero,
    /// A key, or a part of a text, that is not there.
    Absent,
    /// A new key in a map that has its greatest number of pairs.
    Full,
    /// A text longer than a text value may be.
    TooLong,
    /// A condition of `require` that is false.
    Require,
    /// A turn of a loop or a call of a method too many.
    Ticks,
    /// A message too many.
    Sends,
    /// A created event too many.
    Spawns,
    /// An event that is created by one of the greatest generation.
    Generation,
    /// A context too many.
    Reach,
}

/// A trap with its place in the service text.
#[derive(Clone, Copy, Debug, PartialEq, Eq)]
pub struct Trap {
    /// Why it came.
    pub kind: TrapKind,
    /// Where in the service text, as the statement or the expression starts there.
    pub at: Span,
}
