//! A segment that is given back.

use wave_base::Pause;
use wave_effects::Lease;

/// A segment that was run, and is still out: what was leased, and how it paused.
#[derive(Drop)]
pub struct End {
    /// What was leased.
    pub lease: Lease,
    /// How the segment paused.
    pub pause: Pause,
}
