//! The text of a service, read whole.
#![tactic(auto)]

mod fault;
mod parsing;

pub use fault::TextFault;
pub use parsing::parse_text;
