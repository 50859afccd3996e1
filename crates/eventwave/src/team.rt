//! What the workers of a call are run with.

use std::alloc::Global;

/// Where workers are run: what makes their threads, the allocator, and what they come to before each segment.
#[derive(Drop)]
pub struct Team<'a, R, G> {
    /// What makes the threads.
    pub rt: &'a R,
    /// The allocator.
    pub alloc: Global,
    /// What each worker comes to before a segment.
    pub gate: &'a G,
}
