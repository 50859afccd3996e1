//! Drives: a machine that is run to its end on one thread. A rule (`rules`, `movers`) picks one label after the other from what can be done, and
//! each segment is run as it begins (`drives`).
//!
//! - A machine with the segments that are out, which takes any label that can be taken: `walk`, `ends`; a replay goes by it too.
//! - What is known of the states of drives, and how long drives are: `drivable`, `measured`.
#![tactic(auto)]

mod drivable;
mod drives;
mod ends;
mod measured;
mod movers;
mod rules;
mod walk;

pub use drives::{drive, drive_at, drive_with};
pub use ends::End;
pub use measured::drives_are_measured;
pub use rules::PickRule;
pub use walk::Walk;
