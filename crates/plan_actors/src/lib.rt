//! The actors of a plan: events, moves and snapshots as one kind of actors of the machine; and that the machine's fold of them is
//! the fold of the script, where calls are run by their code.
#![tactic(auto)]

mod actors;
mod laws;

pub use actors::PlanActors;
pub use laws::{
    actors_owe, code_owes, finished_states_tell, folds_end, folds_meet, jobs_are_lines,
    jobs_have_results, plans_begin, plans_drive, runs_are_short, tickets_fit, work_is,
};
