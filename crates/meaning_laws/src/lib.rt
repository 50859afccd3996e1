//! What a call of an event is known to do to any tree, whatever its service says; and that it hangs on what the service says alone.
#![tactic(auto)]

mod laws;

pub use laws::{calls_keep_trees, views_tell_meanings};
