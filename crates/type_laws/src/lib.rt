//! What is known of a service that is typed: each law is the contract of a function that does nothing.
#![tactic(auto)]

mod laws;

pub use laws::{names_differ, resolved_services_fit, shapes_are_shapes};
