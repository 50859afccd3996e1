//! What a listing tells of a committed ticket.

use crate::numbers::Ticket;
use crate::outcome::EventResult;
use crate::seq::Seq;

/// A committed ticket as it is shown while the run goes on: its event's number, where it is one of the service's, its
/// result, and the tickets of what it created.
#[derive(PartialEq, Eq, Debug, Drop)]
pub struct Shown {
    /// Its event's place in the shape; none for a move or a snapshot.
    pub name: Option<u16>,
    /// What its job came to.
    pub result: EventResult,
    /// The tickets of what it created.
    pub made: Seq<Ticket>,
}
