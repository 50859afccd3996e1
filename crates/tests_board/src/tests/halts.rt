//! A board is stopped, and goes to another thread.

ghost use Rattle.std.specs.Prelude.{◌≡◌};
ghost use Rattle.wave_base.specs.Starts.{first_start};
ghost use Rattle.plan_actors.specs.Plans.{Fits};
ghost use Rattle.wave_effects.specs.Plans.{plan_of};
ghost use Rattle.tests_board.specs.inner.Ready.{IsReady};

use super::turns::{first_of, open_run, plan_for, take_step};
use std::alloc::Global;
use std::process::Abort;
use std::test::Fail;
use std::thread::{Threads, join};
use tests_services::TICK;
use wave_base::{OutOfMemory, Start, Worker};
use wave_board::{Board, StopCause, Turn};
use wave_effects::Plan;

fn stop(plan: &Plan, board: &mut Board, worker: Worker, why: StopCause)
    requires ready { IsReady plan.now board.old }
    requires writer { why ≡ StopCause.SinkFault → worker.0 ≡ 0 }
    ensures { IsReady plan.now board.new }
{
    board.stop(worker, why);
}

// The first worker is told that the sink failed.
fn is_stopped(rt: &impl Abort, plan: &Plan, board: &mut Board) -> Result<(), OutOfMemory>
    requires { IsReady plan.now board.old }
{
    let work = board.take(Worker(0))?;
    match work {
        Turn::Stopped(StopCause::SinkFault) => Ok(()),
        Turn::Stopped(StopCause::Memory(_))
        | Turn::Stepped(_)
        | Turn::Segment(_)
        | Turn::Nothing
        | Turn::Finished => panic!(rt; "not stopped"),
    }
}

// A board goes to another thread and comes back.
fn send_all<'p, R: Threads>(rt: &R, board: Board<'p>) -> Board<'p> {
    join(rt, move || board, || ()).0
}

// A refusal: no block is as large as this.
fn refusal(rt: &impl Abort, alloc: Global) -> OutOfMemory {
    match Vec::<u64>::with_capacity(alloc, usize::MAX) {
        Ok(_) => panic!(rt; "so much memory"),
        Err(refused) => OutOfMemory::from(refused),
    }
}

// The first Halt counts.
fn halt(rt: &impl Abort, alloc: Global, plan: &Plan, board: &mut Board) -> Result<(), OutOfMemory>
    requires { IsReady plan.now board.old }
{
    take_step(rt, plan, board, Worker(1))?;
    stop(plan, board, Worker(0), StopCause::SinkFault);
    stop(
        plan,
        board,
        Worker(1),
        StopCause::Memory(refusal(rt, alloc)),
    );
    is_stopped(rt, plan, board)
}

// A board of the plan, stopped so.
fn halt_board<'p>(
    rt: &impl Abort,
    alloc: Global,
    plan: &'p Plan,
    start: &'p Start,
) -> Result<Board<'p>, OutOfMemory>
    requires fits { Fits (plan_of plan.now) }
    requires first { start.now ≡ first_start plan.now.program.shape }
{
    let mut board = open_run(alloc, plan, start)?;
    halt(rt, alloc, plan, &mut board)?;
    Ok(board)
}

#[test]
fn a_halt_stops_it(rt: HostRuntime) -> Result<(), Fail> {
    let alloc = rt.alloc();
    let plan = plan_for(&rt, alloc, TICK, b"request hit()\n", 2);
    let start = first_of(alloc, &plan)?;
    let board = halt_board(&rt, alloc, &plan, &start)?;
    drop(send_all(&rt, board));
    Ok(())
}
