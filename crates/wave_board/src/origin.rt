//! What a board's run begins with.

use wave_base::Start;
use wave_effects::Plan;

/// What a board stands for: the run of a plan that begins as a Start says. It is the name of the board's lock.
#[derive(Clone, Copy)]
pub struct Origin<'p> {
    /// What is run.
    pub plan: &'p Plan,
    /// How the run begins.
    pub start: &'p Start,
}
