//! A segment that is given to a worker.

use crate::actor::Actor;
use wave_base::{Path, Record, Ticket, Worker};

/// A segment that is out: a worker has the actor of a ticket, with the record of the context where it is.
#[derive(Drop)]
pub struct Lease {
    /// Who has it, from 0.
    pub worker: Worker,
    /// The ticket whose segment it is.
    pub ticket: Ticket,
    /// The context where it runs.
    pub path: Path,
    /// What runs: an event, a mover or a walker.
    pub actor: Actor,
    /// The context's record, which comes back with the lease.
    pub body: Record,
}
