//! The top call, on worked scripts, wrong words, refused inputs and failing streams, by workers and without.

mod crews;
mod ends;
mod gates;
mod memory;
mod points;
mod replays;
pub(crate) mod rows;
mod scripts;
mod second;
mod services;
mod stages;
mod tables;
