//! The whole fold of a script, by one who runs its calls.
#![tactic(auto)]

mod folding;
mod jobs;
mod laws;
mod live;
mod run;
mod runner;
mod tickets;
mod told;
mod visits;

pub use laws::{moves_change_no_other_result, runs_go_on};
pub use live::LiveStart;
pub use run::{run_script, run_script_at};
pub use runner::Runner;
pub use told::Told;
