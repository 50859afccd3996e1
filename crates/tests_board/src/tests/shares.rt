//! Two workers share a board.

ghost use Rattle.std.specs.Prelude.{◌≡◌, OnOk, IfOk};
ghost use Rattle.wave_base.specs.Starts.{first_start};
ghost use Rattle.plan_actors.specs.Plans.{Fits};
ghost use Rattle.wave_effects.specs.Plans.{plan_of};
ghost use Rattle.tests_board.specs.inner.Ready.{IsOut, IsReady};

use super::ends::run_end;
use super::turns::{
    find_nothing, first_of, give_back, open_run, plan_for, take_segment, take_step,
};
use label_log::LabelLog;
use std::alloc::Global;
use std::process::Abort;
use std::test::Fail;
use tests_services::TICK;
use wave_base::{OutOfMemory, Start, Worker};
use wave_board::{Board, Parcel};
use wave_effects::Plan;

// The first worker takes the one event as far as its segment.
fn begin(rt: &impl Abort, plan: &Plan, board: &mut Board) -> Result<Parcel, OutOfMemory>
    requires { IsReady plan.now board.old }
    ensures { IfOk result (IsOut plan.now board.new) }
{
    take_step(rt, plan, board, Worker(0))?;
    take_step(rt, plan, board, Worker(0))?;
    take_step(rt, plan, board, Worker(0))?;
    take_segment(rt, plan, board, Worker(0))
}

// The second one takes the Commit and the Free.
fn end(rt: &impl Abort, plan: &Plan, board: &mut Board) -> Result<(), OutOfMemory>
    requires { IsReady plan.now board.old }
    ensures { OnOk result (IsReady plan.now board.new) }
{
    take_step(rt, plan, board, Worker(1))?;
    take_step(rt, plan, board, Worker(1))
}

// While the one segment is out there is nothing for the other worker; then it is given back.
fn share(rt: &impl Abort, alloc: Global, plan: &Plan, board: &mut Board) -> Result<(), OutOfMemory>
    requires { IsReady plan.now board.old }
    ensures { OnOk result (IsReady plan.now board.new) }
{
    let parcel = begin(rt, plan, board)?;
    find_nothing(rt, plan, board, &parcel, Worker(1))?;
    give_back(alloc, plan, board, parcel)?;
    end(rt, plan, board)
}

// The journal of a board that is shared so.
fn share_run(
    rt: &impl Abort,
    alloc: Global,
    plan: &Plan,
    start: &Start,
) -> Result<LabelLog, OutOfMemory>
    requires fits { Fits (plan_of plan.now) }
    requires first { start.now ≡ first_start plan.now.program.shape }
{
    let mut board = open_run(alloc, plan, start)?;
    share(rt, alloc, plan, &mut board)?;
    let (_, journal) = run_end(rt, plan, board)?;
    Ok(journal)
}

#[test]
fn a_worker_has_nothing_to_do(rt: HostRuntime) -> Result<(), Fail> {
    let alloc = rt.alloc();
    let plan = plan_for(&rt, alloc, TICK, b"request hit()\n", 2);
    let start = first_of(alloc, &plan)?;
    let journal = share_run(&rt, alloc, &plan, &start)?;
    assert_eq!(rt; journal.len(), 7);
    Ok(())
}
