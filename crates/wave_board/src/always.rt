//! What holds of every board, whoever comes to it and when: the contracts of functions that do nothing.

ghost use Rattle.wave_theory.specs.Complete.{Complete};
ghost use Rattle.wave_theory.specs.NeverStuck.{NeverStuck};
ghost use Rattle.wave_board.specs.Always.{InBoards, ShortJournals, Waits};

use crate::known::idle_hands_are_empty;
use plan_actors::{PlanActors, runs_are_short};
use wave_theory::{complete, empty_at_end, lists_are_exact, never_stuck};

/// Where some job is not committed and a worker is idle, it can take a label of the first ticket that is not committed or of one before
/// it, or a segment of such a ticket is out. Where a board answers that all is finished, all jobs are committed, nothing is under way, and
/// each context has the fold's last fields, on the fold's host.
pub fn boards_go_on()
    ensures never_stuck { InBoards NeverStuck }
    ensures complete { InBoards Complete }
{
    never_stuck::<PlanActors>();
    complete::<PlanActors>();
}

/// A worker that finds nothing waits for a segment that another worker has out; and where some job is not committed, for one of the
/// first ticket that is not, or of one before it.
pub fn workers_wait_for_segments()
    ensures { Waits }
{
    idle_hands_are_empty();
    lists_are_exact::<PlanActors>();
    empty_at_end::<PlanActors>();
    never_stuck::<PlanActors>();
}

/// A journal has at most 2T + 3S + 2E + E * M labels, and that of a finished run besides its Passes exactly 2T + 3S + 2E.
pub fn journals_are_short()
    ensures { ShortJournals }
{
    runs_are_short();
}
