//! A gate before each segment, where a test can stop a worker.

use wave_base::{Path, Ticket};

/// What a worker tells before it runs a segment, so that a test can hold it there.
pub trait Gate {
    /// The worker is about to run a segment of the ticket's event at the context. It answers nothing, and changes
    /// nothing that a contract speaks of; it may wait.
    fn reach(&self, ticket: Ticket, path: &Path);

    /// Whether it may hold a worker for long. Workers then count segments as heavy, and begin at once to share them out. No contract speaks of it.
    fn may_hold(&self) -> bool {
        true
    }
}

/// It holds nobody.
#[derive(Clone, Copy, Debug, PartialEq, Eq)]
pub struct OpenGate;

impl Gate for OpenGate {
    fn reach(&self, _ticket: Ticket, _path: &Path) {}

    fn may_hold(&self) -> bool {
        false
    }
}
