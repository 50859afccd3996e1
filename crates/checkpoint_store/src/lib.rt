//! The text of a checkpoint, a point of a run from which another run can go on: how it is written, and how it is read.
#![tactic(auto)]

mod class;
mod error;
mod form;
mod front;
mod laws;
mod numbers;
mod place;
mod point;
mod read;
mod shots;
mod step;
mod tail;
mod write;

pub use error::{CheckError, Fault};
pub use laws::points_have_one_text;
pub use point::Checkpoint;
pub use read::read_checkpoint;
pub use write::write_checkpoint;
