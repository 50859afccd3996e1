//! What a service declares, with tables by which the checker finds names, and the rows of operators that take given kinds.
#![tactic(auto)]

mod gather;
mod kinds;
mod operators;
mod params;
mod tables;

pub use kinds::{rows_before, rows_of_index, rows_of_sign, same_kind};
pub use operators::Operators;
pub use params::kinds_of;
pub use tables::Tables;
