//! The machine: it stands for a state of the theory, and each of its calls is the label that it names (`machine`).
//!
//! What a label does is told in `wave_effects`. Here is the list of what can be done, which is kept from label to label (`listed`):
//!
//! - what is asked for, label by label: `asking`, and in which order: `order`; an entry of the list: `ready`;
//! - the list in its order, a place of which is found by halves: `index`; what a label changes in it: `renewing`, by what is looked at
//!   before and after it: `looks`, `done`;
//! - what is read off the list: `choosing`, `takeable`, `movers`, and with who takes it `enabled`, `takers`, `adding`;
//! - what is known of states that are listed: `listable`.
#![tactic(auto)]

mod adding;
mod asking;
mod choosing;
mod done;
mod enabled;
mod index;
mod listable;
mod listed;
mod looks;
mod machine;
mod movers;
mod order;
mod ready;
mod renewing;
mod takeable;
mod takers;

pub use machine::{Machine, machine_stands};
pub use ready::Ready;
