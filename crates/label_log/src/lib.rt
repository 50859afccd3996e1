//! A log of labels that takes sixteen bytes for each: a path is kept once, and named by its number.
#![tactic(auto)]

mod entry;
mod kept;
mod log;
mod numbers;
mod paths;
mod recorder;

pub use log::LabelLog;
pub use paths::path_in;
pub use recorder::Recorder;
