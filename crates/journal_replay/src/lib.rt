//! A journal, replayed: whether it is a run of its plan, and what the machine is after some of its labels.
#![tactic(auto)]

mod error;
mod replaying;
mod report;
mod walk;

pub use error::ReplayError;
pub use replaying::{Replayed, replay};
pub use report::{refused_text, replayed_text};
