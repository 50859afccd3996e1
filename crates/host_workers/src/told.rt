//! What a visit tells the worker that made it.

use crate::offer::Offer;
use wave_base::OutOfMemory;

/// What there is for the worker, and for others.
#[derive(Drop)]
pub(crate) struct Told {
    /// What there is for the worker.
    pub(crate) offer: Result<Offer, OutOfMemory>,
    /// Whether there is more than this worker will have done at once.
    pub(crate) more: bool,
}
