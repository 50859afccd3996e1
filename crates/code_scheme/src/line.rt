//! What the scheme gives for a part of a service: instructions with their places in its text.

use service_code::Instr;
use wave_base::Span;

/// An instruction and its place in the service text.
#[derive(Clone, Copy, Debug, PartialEq, Eq)]
pub struct Line {
    /// The instruction.
    pub instr: Instr,
    /// Where in the service text that stands of which it was made.
    pub place: Span,
}
