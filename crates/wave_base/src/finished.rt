//! What is left of a run that is over.

use crate::copied::Copied;
use crate::memory::OutOfMemory;
use crate::numbers::{Host, Ticket};
use crate::outcome::EventResult;
use crate::path::Path;
use crate::seq::Seq;
use crate::shot::Shot;
use std::alloc::Global;

/// The host of a context.
#[derive(Clone, Copy, Debug, PartialEq, Eq)]
pub struct Place {
    /// The context.
    pub path: Path,
    /// The host where it is.
    pub host: Host,
}

/// A whole run: per ticket its result, the tickets of what it created and its event's number, where it is
/// one of the service's; and of the last tree, in path order, the hosts, the fields, and how many tickets of this run
/// entered each context.
#[derive(PartialEq, Eq, Debug, Drop)]
pub struct Finished {
    /// What each ticket's job came to, the first ticket's first.
    pub results: Seq<EventResult>,
    /// For each ticket the tickets of what it created.
    pub made: Seq<Seq<Ticket>>,
    /// For each ticket its event's place in the shape; none for a move or a snapshot.
    pub names: Seq<Option<u16>>,
    /// The hosts of all contexts of the last tree, in path order.
    pub places: Seq<Place>,
    /// The fields of all contexts of the last tree, in path order.
    pub shots: Seq<Shot>,
    /// How many tickets of this run entered each of these contexts.
    pub loads: Seq<u64>,
}

impl Copied for Place {
    fn copied(&self, _alloc: Global) -> Result<Place, OutOfMemory> {
        Ok(*self)
    }
}
