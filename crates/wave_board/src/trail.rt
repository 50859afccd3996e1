//! The entries of a board's history.

use wave_base::{OutOfMemory, Worker};
use wave_labels::Label;

/// Why the workers are to stop.
#[derive(Clone, Copy, PartialEq, Eq, Debug)]
pub enum StopCause {
    /// A worker wanted memory.
    Memory(OutOfMemory),
    /// A worker could not write.
    SinkFault,
}

/// An entry of a board's history. Its owner is its worker.
#[derive(Clone, Copy)]
pub enum Trail {
    /// A label that was taken.
    Step(Label),
    /// This worker stopped the workers.
    Halt(Worker, StopCause),
}
