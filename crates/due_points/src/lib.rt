//! Runs that go on from a checkpoint.
#![tactic(auto)]

mod laws;
mod resumed;

pub use laws::{checkpoints_go_on, texts_go_on};
pub use resumed::accept_resumed;
