//! Generated loads: a service and a script of some 2,300 lines, made from a number; and the summary of a run.
#![tactic(auto)]

mod line;
mod load;
mod summary;

pub use load::generate;
pub use summary::summarize;
