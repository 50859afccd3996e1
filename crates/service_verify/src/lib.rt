//! The verifier of a program's code, what its code means, and what makes a program fit.
#![tactic(auto)]

mod asks;
mod error;
mod judge;
mod kinds;
mod laws;
mod links;
mod looks;
mod marks;
mod point;
mod stack;
mod survey;
mod verified;

pub use error::{Rule, VerifyError};
pub use laws::{
    copies_are_kept, events_begin, events_end, instructions_meet_the_rules, kept_fields_are_enough,
    peeking_only_looks, segments_pause,
};
pub use links::Link;
pub use stack::Stack;
pub use verified::{Verified, verify};
