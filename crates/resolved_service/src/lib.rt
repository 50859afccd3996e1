//! A service with each name resolved, and in `specs/` what its events mean.
#![tactic(auto)]

mod ends;
mod expr;
mod laws;
mod service;
mod stmt;

pub use ends::{is_end, surely_ends};
pub use expr::{Expr, Node};
pub use laws::ticks_end_before_fuel;
pub use service::{Event, Last, Method, Phase, Resolved};
pub use stmt::{Action, Stmt};
