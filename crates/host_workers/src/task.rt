//! What is to be done next by a worker.

use wave_board::{Parcel, StopCause};

/// What a visit comes to for a worker.
#[derive(Drop)]
pub(crate) enum Task {
    /// This segment is to be run, and given back at the next visit.
    Segment(Parcel),
    /// Labels were taken, and there may be more.
    Again,
    /// There is nothing for this worker now, or others do it: it naps.
    Rest,
    /// All is done.
    Finished,
    /// The workers were stopped.
    Stopped(StopCause),
}
