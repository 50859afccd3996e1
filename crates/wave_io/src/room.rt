//! How much is held back before a sink.

/// How many bytes are held at most.
pub const HELD_BYTES: usize = 65_536;
