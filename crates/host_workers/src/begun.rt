//! Where the worker that writes stands when others come to it.

use crate::offer::Offer;
use wave_base::OutOfMemory;

/// What it was offered last, and has not done, and of how many tickets lines are written.
#[derive(Drop)]
pub(crate) struct Begun {
    /// What it was offered.
    pub(crate) offer: Result<Offer, OutOfMemory>,
    /// Of so many tickets lines are written.
    pub(crate) written: u32,
}
