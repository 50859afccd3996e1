//! Walkers: the code of a snapshot, which goes through all contexts and copies each.
#![tactic(auto)]

mod walker;

pub use walker::{Walker, walk};
