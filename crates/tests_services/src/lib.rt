//! What several crates of tests build: services, scripts and journals as texts; classes, fields, events, paths and contexts of small shapes; labels, words of
//! command lines, and a gate. It has no tests.
#![tactic(auto)]

mod commands;
mod inputs;
mod labels;
mod meeting;
mod paths;
mod scripts;
mod services;
mod shapes;
mod shots;

pub use commands::words;
pub use inputs::input_of;
pub use labels::{ONE_EVENT, label, mail, one_event};
pub use meeting::Meeting;
pub use paths::{hall, stall};
pub use scripts::{MOVES, TO_AND_FRO};
pub use services::{CHAIN, LOOK, MARKET, TICK};
pub use shapes::{class, event, field, number, tick_shape};
pub use shots::shot;
