//! Tickets of jobs: the lines of a script, batch by batch, and the calls that their events create.
#![tactic(auto)]

mod head;
mod job;

pub use head::Head;
pub use job::Job;
