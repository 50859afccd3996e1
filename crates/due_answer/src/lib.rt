//! What a command and an input come to: the answer that is due, or a script that is to be run and what is to be told of it.
#![tactic(auto)]

mod prepared;
mod preparing;
mod task;

pub use prepared::Prepared;
pub use preparing::prepare;
pub use task::{Engine, Task};
