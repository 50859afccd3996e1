//! What an engine gives back of a plan.

use label_log::LabelLog;
use wave_base::Finished;

/// What an engine made of a plan.
#[derive(Drop)]
pub struct Made {
    /// What was done.
    pub done: Finished,
    /// The labels that were taken, where the machine ran it.
    pub journal: Option<LabelLog>,
}
