//! Results of events that end in any order, committed in the order of their tickets.
#![tactic(auto)]

mod commits;

pub use commits::{Commits, Committed};
