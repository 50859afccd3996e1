//! The tree of contexts: which contexts are there, and the fields of each.
#![tactic(auto)]

mod laws;
mod lends;
mod tree;

pub use laws::{slots_stay, trees_tell_contexts, trees_that_fit};
pub use tree::Tree;
