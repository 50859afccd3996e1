//! The words of a command line: which command they ask for, and with which options.
#![tactic(auto)]

mod choice;
mod command;
mod reading;
mod values;

pub use command::{Command, Crew, Places, Schedule};
pub use reading::{command_of, words_by_hand_are_kept};
