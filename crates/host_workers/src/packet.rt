//! What a worker brings to its next visit.

use wave_board::Reply;

/// What a worker brings back to the board: a segment that was run.
#[derive(Drop)]
pub(crate) struct Packet {
    /// The segment, with what it made of its actor and its context, and why it paused.
    pub reply: Reply,
    /// The ticks that it took.
    pub ticks: u32,
}
