//! The code of a ticket.

ghost use Rattle.std.specs.Prelude.{◌≡◌};

use migration_core::Mover;
use service_vm::EventBox;
use snapshot_events::Walker;

/// The code of a ticket, between its segments. It lies in a box, so that it goes to a worker and back as a pointer.
#[derive(Drop)]
pub enum Actor {
    /// An event of the service.
    Service(Box<EventBox>),
    /// A move.
    Mover(Box<Mover>),
    /// A snapshot.
    Walker(Box<Walker>),
}

impl Actor {
    ghost use Rattle.wave_effects.specs.Actors.{peeks_now, ticks_now};

    /// Whether all that is left of it only looks at the one context where it is, or where it goes next.
    pub fn peeking(&self) -> bool
        ensures { result ≡ peeks_now self.now }
    {
        match self {
            Actor::Service(event) => event.peeking(),
            Actor::Mover(_) | Actor::Walker(_) => false,
        }
    }

    /// The ticks that an event has left; a move and a snapshot have none. What a segment takes of them tells how heavy it was.
    pub fn ticks(&self) -> u32
        ensures { result ≡ ticks_now self.now }
    {
        match self {
            Actor::Service(event) => event.ticks(),
            Actor::Mover(_) | Actor::Walker(_) => 0,
        }
    }
}
