//! Where a worker works.

use kept_lock::KeptLock;
use std::alloc::Global;
use wave_base::Worker;
use wave_board::Board;
use wave_effects::Plan;

/// Where a worker works: the lock of a board, the plan that the board runs, which of the plan's workers it is, and what it comes to
/// before each segment.
#[derive(Drop)]
pub(crate) struct Post<'l, 'p, R, G> {
    /// What a worker waits by.
    pub rt: &'l R,
    /// The allocator.
    pub alloc: Global,
    /// The lock of the board.
    pub lock: &'l KeptLock<Board<'p>>,
    /// The plan that the board runs.
    pub plan: &'p Plan,
    /// Which of the plan's workers it is, from 0.
    pub number: Worker,
    /// What it comes to before each segment.
    pub gate: &'l G,
}
