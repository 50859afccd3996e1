//! The labels of the machine as programs have them, and the labels of its theory that they stand for.
#![tactic(auto)]

mod label;
mod laws;

pub use label::{Act, Label, MailId};
pub use laws::{equal_is_same, labels_tell};
