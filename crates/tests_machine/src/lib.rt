//! Cases, for the tests of what runs one: a service and a script for it, by so many workers. Its own tests run the machine.
#![tactic(auto)]

mod cases;
mod starts;
#[cfg(test)]
mod tests;

pub use cases::{Case, TWO_LOOKS};
pub use starts::start_on;
