//! Words, numbers, quoted texts, values and lines as bytes: how they are written, and how they are read.
#![tactic(auto)]

mod counted;
mod lines;
mod numbers;
mod put;
mod quotes;
mod split;
mod words;

pub use counted::{behind_head, line_count, put_head};
pub use lines::first_line;
pub use numbers::{byte_of, u32_of, whole_of, written_numbers_are_read};
pub use put::{put_bytes, put_number, put_place, put_quoted, put_value, put_whole};
pub use quotes::read_quoted;
pub use split::{parts_at, split_at};
pub use words::{is_blank, is_digits, is_whole, is_word};
