//! What is told of a fault: its number, its name and its place, in one line.
#![tactic(auto)]

mod notes;

pub use notes::{
    check_note, journal_note, lex_note, parse_note, script_note, text_note, type_note,
};
