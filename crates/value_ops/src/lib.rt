//! The operators and builtins of the language: the table of their rows, and what each row gives.
#![tactic(auto)]

mod error;
mod ints;
mod laws;
mod locals;
mod maps;
mod numbers;
mod operands;
mod row;
pub mod rows;
mod scalar;
mod sums;
mod table;
mod takes;
mod texts;
mod values;

pub use error::OpError;
pub use ints::{apply_int, apply_ints, reckon_ints};
pub use laws::{quotient_and_remainder, rows_give_their_kind, rows_of_operators, str_reads_back};
pub use locals::blank;
pub use maps::{put_pair, read_map};
pub use row::OpRow;
pub use scalar::Scalar;
pub use table::{OpTable, find, wave_ops, wave_ops_2};
pub use takes::{Takes, takes_ints, takes_of};
pub use texts::{apply_texts, compare_texts, part};
pub use values::{apply, compare_flags, read_text, sum_up};
