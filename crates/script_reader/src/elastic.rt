//! What is read of a script with policies.

use wave_base::{Line, Policy, Seq};

/// A script with policies: the number of hosts, and its parts in order. A policy begins a part, and the first part has none.
#[derive(PartialEq, Eq, Debug, Drop)]
pub struct Elastic {
    /// The number of hosts, 1 to `HOSTS`.
    pub hosts: u8,
    /// The first part, perhaps without batches, and one for each policy; `EVENT_LINES` event lines and policies at most.
    pub parts: Seq<Part>,
}

/// What is run under one policy.
#[derive(PartialEq, Eq, Debug, Drop)]
pub struct Part {
    /// The policy whose moves are run before the batches.
    pub policy: Option<Policy>,
    /// The event lines, batch by batch, in order; no batch is empty.
    pub batches: Seq<Seq<Line>>,
}
