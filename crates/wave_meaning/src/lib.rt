//! What events and scripts mean for a service, by the plain evaluator.
#![tactic(auto)]

mod evaluator;
mod run;

pub use evaluator::Evaluator;
pub use run::{run_script, run_script_at};
