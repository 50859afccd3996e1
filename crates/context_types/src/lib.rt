//! The type checker: a walk through a service that stops at the first fault, and resolves its names on the way.
#![tactic(auto)]

mod calls;
mod exprs;
mod functions;
mod here;
mod locals;
mod params;
mod service;
mod simple;
mod stmts;

pub use service::{Typed, check};
pub use type_rules::{TypeError, Which};
