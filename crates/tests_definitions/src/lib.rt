//! Computed examples of definitions that other crates have in their specs, a file a room: a definition of which one word is changed gives one of
//! them another value, and is refused. It has no code of its own.
#![tactic(auto)]
