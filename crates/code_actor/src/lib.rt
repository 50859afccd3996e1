//! The events of a program as actors of the machine, and that they owe what the machine asks of its actors.
#![tactic(auto)]

mod laws;

pub use laws::{alone_is_code, events_follow, events_lock, events_owe};
