//! Scripts with the code of their service, of texts, for the tests and timings of what runs one. Its own tests run such scripts by the code and by
//! the evaluator.
#![tactic(auto)]

mod coded;
#[cfg(test)]
mod tests;

pub use coded::{Coded, coded_input, coded_texts};
