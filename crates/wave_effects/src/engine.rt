//! What a machine keeps, in parts that labels change.

use crate::actor::Actor;
use crate::kept::Out;
use crate::plan::Plan;
use crate::settlements::Settlements;
use commit_order::Commits;
use event_cells::{Cell, JobKind};
use head_tickets::Head;
use host_map::HostStore;

/// What a machine keeps of a plan's run. Its calls are the labels, each in the file of its kind; they take no memory but where they say so,
/// and ask for the room and the parts that a label needs, which are made beforehand.
#[derive(Drop)]
pub struct Engine<'p> {
    /// The plan that is run.
    pub plan: &'p Plan,
    /// The first ticket of the run.
    pub first: u32,
    /// The jobs that have a ticket, and how many were admitted.
    pub head: Head,
    /// The results that are not committed yet.
    pub commits: Commits,
    /// What the admitted jobs are, in the order of their tickets.
    pub kinds: Vec<JobKind>,
    /// What is kept of the committed tickets, in their order.
    pub settled: Settlements,
    /// The admitted events, in the order of their tickets.
    pub cells: Vec<Cell<Actor>>,
    /// What each host has.
    pub stores: Vec<HostStore>,
    /// The segment that each worker has out.
    pub hands: Vec<Option<Out>>,
}
