//! What is asked of a service before it runs, and what its names stand for: the definitions are in `specs/`.
#![tactic(auto)]

mod error;
mod known;
mod meant;

pub use error::{TypeError, Which};
pub use known::{Known, Signature};
pub use meant::{Callee, Local, Variable};
