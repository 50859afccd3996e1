//! What the grammar could take where a text stops to be a service.
#![tactic(auto)]

mod fault;
mod hint;
mod judging;
mod laws;
mod layout;
mod telling;

pub use fault::HintError;
pub use hint::{HINTS, Hint};
pub use laws::{alike_words_go_on, what_begins_goes_on};
pub use telling::hints;
