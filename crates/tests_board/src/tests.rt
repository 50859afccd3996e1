//! Boards of plans of texts.

mod crews;
mod ends;
mod halts;
mod shares;
mod turns;
