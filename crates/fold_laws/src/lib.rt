//! How much a run adds to what it begins with, and how a run of several scripts is cut into their runs.
#![tactic(auto)]

mod laws;

pub use laws::{
    calls_enter_few, code_runs_are_cut, cut_runs_stay_few, events_send_few, jobs_send_few,
    lines_are_few, plans_stay_few, runs_are_cut, runs_stay_few, scripts_are_few,
};
