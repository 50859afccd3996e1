//! What a worker gets from a board.

use crate::parcel::Parcel;
use crate::trail::StopCause;
use wave_labels::Label;

/// What a worker gets from a board.
#[derive(Drop)]
pub enum Turn {
    /// This label was taken, and it is done.
    Stepped(Label),
    /// A segment is out: it is to be run, and given back.
    Segment(Parcel),
    /// There is nothing for this worker now.
    Nothing,
    /// All is done.
    Finished,
    /// The workers were stopped.
    Stopped(StopCause),
}
