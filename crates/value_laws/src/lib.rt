//! Values stay within their limits: whatever a service says, and of all that is read from texts.
#![tactic(auto)]

mod laws;

pub use laws::{
    calls_are_bounded, operators_are_bounded, scripts_are_bounded, scripts_leave_shots,
    texts_are_bounded, texts_leave_shots,
};
