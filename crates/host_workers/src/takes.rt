// What a worker takes from the board.
ghost use Rattle.std.specs.Prelude.{◌≡◌, Ok};
ghost use Rattle.wave_board.specs.Boards.{IsStanding, StandsStill};
ghost use Rattle.wave_board.specs.Taking.{MayTake};
ghost use Rattle.host_workers.specs.inner.Calls.{IsIdle};
ghost use Rattle.host_workers.specs.inner.Visits.{HasTaken, HasWalked};

use crate::task::Task;
use wave_base::{OutOfMemory, Worker};
use wave_board::{Board, Turn};

/// Takes what there is for a worker. Labels that are done at once are taken one after the other, until a segment comes or nothing is left.
pub(crate) fn take(board: &mut Board, number: Worker) -> Result<Task, OutOfMemory>
    requires stands { IsStanding board.old }
    requires may { MayTake board.old number }
    ensures stands { StandsStill board.old board.new }
    ensures taken { HasTaken board.old number board.new result }
    ensures idle { result ≡ Ok Task.Rest → IsIdle board.new number }
{
    match board.take(number) {
        Ok(Turn::Stepped(_)) => Ok(walk(board, number)),
        Ok(Turn::Segment(parcel)) => Ok(Task::Segment(parcel)),
        Ok(Turn::Nothing) => Ok(Task::Rest),
        Ok(Turn::Finished) => Ok(Task::Finished),
        Ok(Turn::Stopped(why)) => Ok(Task::Stopped(why)),
        Err(refused) => Err(refused),
    }
}

// Takes more labels behind the first one. Where the run is finished then, or was stopped, the next visit finds that.
fn walk(board: &mut Board, number: Worker) -> Task
    requires stands { IsStanding board.old }
    requires may { MayTake board.old number }
    ensures stands { StandsStill board.old board.new }
    ensures walked { HasWalked board.old number board.new result }
    ensures idle { result ≡ Task.Rest → IsIdle board.new number }
{
    for _ in 0..u64::MAX {
        match board.take(number) {
            Ok(Turn::Stepped(_)) => {}
            Ok(Turn::Segment(parcel)) => return Task::Segment(parcel),
            Ok(Turn::Nothing) => return Task::Rest,
            Ok(Turn::Finished) => return Task::Again,
            Ok(Turn::Stopped(_)) => return Task::Again,
            Err(_) => return Task::Again,
        }
    }
    Task::Again
}
