//! Mail of the machine and the ways that it takes: how an Enter finds a context that moves, how a context departs and lands, and
//! the movers that send one.
#![tactic(auto)]

mod mail;
mod mover;
mod moves;
mod ways;

pub use mail::{Letter, Mail, Route};
pub use mover::{Mover, advance};
pub use moves::{depart, land};
pub use ways::{route, route_at};
