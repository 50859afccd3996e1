//! What it is for an instruction to be quiet, and for a function, with no count of how deep its calls go.
#![tactic(auto)]

mod laws;

pub use laws::{quiet_ones_are_harmless, quietness_is_its_equation, verified_quietness};
