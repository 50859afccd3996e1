//! The forms of policy lines.

use wave_base::Seq;

/// A policy line as it is written.
#[derive(Debug, Drop)]
pub enum PolicyForm {
    /// The digits of the number of moves.
    Balance(Seq<u8>),
    /// The digits of the host that is drained, and of the one that takes what was on it.
    Drain(Seq<u8>, Seq<u8>),
}
