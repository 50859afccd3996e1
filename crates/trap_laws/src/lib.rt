//! Where the traps of events stand, and those of a service that was read from a text: at its tokens. And that the meaning of a call never comes to the end of
//! its fuel.
#![tactic(auto)]

mod laws;
mod places;

pub use laws::{no_trap_stands_nowhere, ticks_are_fuel_enough, traps_stand_in_the_text};
pub use places::{no_trap_of_a_text_stands_nowhere, traps_stand_at_tokens};
