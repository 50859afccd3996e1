//! The code of a service: its instructions, functions and programs, and the listing that shows them.
#![tactic(auto)]

mod instr;
mod listing;
mod program;

pub use instr::Instr;
pub use listing::code_listing;
pub use program::{Function, Program};
