//! What a host keeps of a context: its record, the tickets that hold it, and the line of those that wait to get in.
#![tactic(auto)]

mod entry;
mod laws;
mod peeks;
mod waiting;

pub use entry::Entry;
pub use laws::entries_stand;
pub use peeks::Peeks;
pub use waiting::{Claim, Waiting};
