//! What an event keeps of the contexts that it left on its way down: of each one a copy of the fields that code below reads.
#![tactic(auto)]

mod level;
mod views;

pub use views::Views;
