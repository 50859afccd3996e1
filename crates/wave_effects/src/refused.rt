//! What a refused Stop gives back.

use crate::lease::Lease;
use wave_base::{OutOfMemory, Pause};

/// A Stop that is refused for want of memory: the lease and its pause come back as they were.
#[derive(Drop)]
pub struct Refused {
    /// What was leased, as it was.
    pub lease: Lease,
    /// How the segment paused, as it was.
    pub pause: Pause,
    /// That memory was wanting.
    pub error: OutOfMemory,
}
