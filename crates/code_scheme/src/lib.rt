//! The scheme by which a resolved service becomes code: in `specs/` its definitions, and what they give.
#![tactic(auto)]

mod laws;
mod line;

pub use laws::{code_is_accepted, code_means_the_service};
pub use line::Line;
