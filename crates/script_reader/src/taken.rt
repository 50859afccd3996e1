//! What a line is, once it is taken.

use wave_base::Line;

/// A script line that was taken.
#[derive(Debug, Drop)]
pub enum Taken {
    /// It says nothing.
    Skipped,
    /// The number of hosts.
    Hosts(u8),
    /// An event line.
    Event(Line),
    /// The end of a batch.
    Settle,
}
