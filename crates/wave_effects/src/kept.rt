//! What a machine keeps of segments that are out and of tickets that are committed.

use wave_base::{EventResult, Path, Seq, Ticket};

/// The ticket and the context of a segment that is out.
#[derive(Clone, Copy, Debug, PartialEq, Eq)]
pub struct Out {
    /// The ticket.
    pub ticket: Ticket,
    /// The context where the segment runs.
    pub path: Path,
}

/// What is kept of a ticket that is committed: its result, and the tickets of what it created.
#[derive(Drop)]
pub struct Settled {
    /// How its event ended.
    pub result: EventResult,
    /// The tickets of the calls that it created, in their order.
    pub made: Seq<Ticket>,
}
