//! Where an actor stops between its segments.

use crate::outcome::EventResult;
use crate::path::Step;

/// Why a segment of an event's run came to its end.
#[derive(PartialEq, Eq, Debug, Drop)]
pub enum Pause {
    /// Into a child for good: what is held outside the child's subtree is given up.
    Go(Step),
    /// Into a child for a call.
    Down(Step),
    /// Back from such a call.
    Back,
    /// The event has ended.
    Over(EventResult),
}
