//! What a checkpoint keeps.

use wave_base::Start;

/// A point of a run from which another run can go on.
#[derive(PartialEq, Eq, Debug, Drop)]
pub struct Checkpoint {
    /// How many hosts there are, 1 to `HOSTS`.
    pub hosts: u8,
    /// How many event lines the script had, at most `EVENT_LINES`.
    pub lines: u32,
    /// What the next run begins with; its ticket is at most `SAVED_TICKET`.
    pub start: Start,
}
