//! What a board does not take back.

use crate::reply::Reply;
use wave_base::OutOfMemory;

/// A segment that is not taken back for want of memory: it comes back as it was.
#[derive(Drop)]
pub struct Returned {
    /// The segment, with its pause, as it was.
    pub reply: Reply,
    /// That memory was wanting.
    pub error: OutOfMemory,
}
