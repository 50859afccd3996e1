//! Policies: which moves one asks for, and scripts that are run under them.
#![tactic(auto)]

mod live;
mod plan;
mod progress;
mod stages;
mod sums;
mod turn;

pub use live::LiveStages;
pub use plan::plan_moves;
pub use progress::Progress;
pub use stages::Stages;
