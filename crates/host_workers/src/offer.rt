//! What the worker that writes takes from a visit.

use crate::task::Task;
use wave_base::{Seq, Shown};

/// What a visit comes to.
#[derive(Drop)]
pub(crate) enum Offer {
    /// These lines are to be written first: to the worker that writes alone.
    Lines(Seq<Shown>),
    /// There is no line to write, and this is to be done.
    Task(Task),
}
