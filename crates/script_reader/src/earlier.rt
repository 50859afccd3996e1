//! What a script goes on from, where it is not the first piece of its run.

/// What was said before the text of a script.
#[derive(Clone, Copy, Debug, PartialEq, Eq)]
pub struct Earlier {
    /// The number of hosts.
    pub hosts: u8,
    /// Whether a line stood there that says something.
    pub begun: bool,
    /// The number of event lines.
    pub events: usize,
}
