//! The text of a snapshot: how it is written, and how it is read.
#![tactic(auto)]

mod error;
mod fits;
mod form;
mod line;
mod literal;
mod map;
mod number;
mod order;
mod pairs;
mod read;
mod shot;
mod value;
mod write;

pub use error::{Fault, ShotError};
pub use fits::values_fit;
pub use form::are_plain;
pub use number::is_plain_digits;
pub use read::read_snapshot;
pub use write::write_snapshot;
