//! What events, scripts and plans mean for a service, by its code.
#![tactic(auto)]

mod plans;
mod runner;
mod script;

pub use plans::{
    calls_mean, finished_states_mean, plans_end, plans_mean, scripts_are_cut, scripts_stay_few,
};
pub use runner::CodeRunner;
pub use script::{run_script, run_script_at};
