//! The board that the workers of a plan begin with.

ghost use Rattle.std.specs.Prelude.{◌≡◌, [], IfOk};
ghost use Rattle.plan_actors.specs.Plans.{Fits, FitsStart};
ghost use Rattle.wave_effects.specs.Plans.{plan_of};
ghost use Rattle.wave_board.specs.declared.origin.Origin.{Origin};
ghost use Rattle.wave_board.specs.Boards.{StandsFor, history_of};

use std::alloc::Global;
use wave_base::{OutOfMemory, Start};
use wave_board::{Board, Crew};
use wave_effects::Plan;

/// A board whose machine begins as a Start says. Segments count as heavy at first where they may be: where a gate may hold them, or the service has a loop.
pub(crate) fn board_at<'p>(
    alloc: Global,
    plan: &'p Plan,
    start: &Start,
    may_hold: bool,
) -> Result<Board<'p>, OutOfMemory>
    requires fits { Fits (plan_of plan.now) }
    requires begins { FitsStart (plan_of plan.now) start.now }
    ensures stands { IfOk result (λ b. (o : Origin) → o.plan.now ≡ plan.now → o.start.now ≡ start.now → StandsFor b o) }
    ensures empty { IfOk result (λ b. history_of b ≡ []) }
{
    let mut board = Board::new_at(alloc, plan, start)?;
    board.set_crew(Crew::nobody(may_hold || plan.has_loops()));
    Ok(board)
}
