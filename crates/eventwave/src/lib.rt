//! The top call: does what the words of a command line ask for, over a source and sinks of the caller's own, and answers the status. The program
//! `eventwave_program` makes it over the standard streams.
#![tactic(auto)]

mod alone;
mod ending;
mod engines;
mod giving;
mod light;
mod made;
mod pieces;
mod pouring;
mod reading;
mod response;
mod staged;
mod team;
mod together;
mod top;
mod way;

pub use top::{eventwave, eventwave_alone, start};
