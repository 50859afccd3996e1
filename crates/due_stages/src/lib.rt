//! Scripts with policies, accepted to be run piece by piece, and what is due for them.
#![tactic(auto)]

mod accepted;
mod laws;
mod work;

pub use accepted::accept_elastic;
pub use laws::{pieces_are_listed, plain_scripts_are_due_the_same};
pub use work::StagedWork;
