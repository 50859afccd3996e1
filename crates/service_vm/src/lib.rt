//! The machine that runs verified code: an event between its segments, and a segment to its next pause.
#![tactic(auto)]

mod act;
mod ahead;
mod code;
mod control;
mod event;
mod flow;
mod frames;
mod held;
mod outputs;
mod places;
mod plain;
mod run;
mod step;
mod values;

pub use event::{EventBox, segment};
