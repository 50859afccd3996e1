//! What an event sends and creates: it is kept until the event ends, and then handed on or thrown away.
#![tactic(auto)]

mod outputs;

pub use outputs::{Outputs, SendError, SpawnError};
