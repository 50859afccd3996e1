//! An input in its parts: the text of a service, and a script.
#![tactic(auto)]

mod dashes;
mod parts;

pub use parts::parts_of;
