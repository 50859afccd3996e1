//! How far an admitted event has come.

use wave_base::Path;

/// How far an event has come.
#[derive(Clone, Copy, Debug, PartialEq, Eq)]
pub enum Status {
    /// A mail brings it to a context.
    Travelling,
    /// It is in the line of a context.
    Waiting(Path),
    /// It may run a segment at a context.
    Ready(Path),
    /// A worker runs it there.
    Running(Path),
    /// It has a result.
    Ended,
}
