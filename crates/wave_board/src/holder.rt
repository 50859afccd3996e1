//! The box in which a segment goes to a worker and back.

use wave_base::Pause;
use wave_effects::Lease;

/// What lies in the box: the lease, and beside it, once the segment was run, its pause. They go both ways as a pointer.
#[derive(Drop)]
pub(crate) struct Holder {
    pub lease: Option<Lease>,
    pub pause: Option<Pause>,
}
