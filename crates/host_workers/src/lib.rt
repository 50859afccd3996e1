//! The workers of a plan, each in a thread of its own, round one board under a lock.
#![tactic(auto)]

mod begun;
mod boards;
mod calls;
mod ending;
mod offer;
mod packet;
mod post;
mod run;
mod takes;
mod task;
mod team;
mod told;
mod turns;
mod visits;
mod working;
mod writer;

pub use ending::{RunError, WorkerEnd};
pub use run::{run_plan, run_plan_at};
pub use working::worker;
pub use writer::writing_worker;
