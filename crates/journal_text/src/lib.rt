//! The text of a journal: how it is written, and how it is read.
#![tactic(auto)]

mod error;
mod label;
mod line;
mod lines;
mod number;
mod operands;
mod put;
mod read;
mod verb;
mod word;
mod write;

pub use error::JournalError;
pub use lines::{head_line, label_line};
pub use put::put_label;
pub use read::read_journal;
pub use write::write_journal;
