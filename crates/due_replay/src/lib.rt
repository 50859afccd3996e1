//! Journals that are replayed.
#![tactic(auto)]

mod replayed;

pub use replayed::judge_replay;
