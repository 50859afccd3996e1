//! Calls of events, each run by its code, segment by segment, on a tree of contexts.
#![tactic(auto)]

mod records;
mod run;
mod walk;

pub use run::{CallRan, run_call};
