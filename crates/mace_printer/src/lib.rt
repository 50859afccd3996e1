//! A service in canonical layout.
#![tactic(auto)]

mod expr;
mod field;
mod laws;
mod member;
mod stmt;
mod whole;
mod word;

pub use laws::{canonical_words_spell, declarations_take_words};
pub use whole::print;
