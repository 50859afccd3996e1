//! What the jobs of a script gave.

use wave_base::{EventResult, Seq, Ticket};

/// What the jobs of a script gave, in the order of their tickets.
#[derive(Drop)]
pub struct Told {
    /// The result of each.
    pub results: Seq<EventResult>,
    /// The tickets of what each created.
    pub made: Seq<Seq<Ticket>>,
    /// The number of each event; a move and a snapshot have none.
    pub names: Seq<Option<u16>>,
}
