//! Tables of names: numbers by name, each found by one look-up.
#![tactic(auto)]

mod names;

pub use names::Names;
