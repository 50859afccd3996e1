//! One worker comes to the end of a plan, and the board tells what comes of it.

ghost use Rattle.std.specs.Prelude.{◌≡◌, OnOk};
ghost use Rattle.wave_base.specs.Starts.{first_start};
ghost use Rattle.plan_actors.specs.Plans.{Fits};
ghost use Rattle.wave_effects.specs.Machines.{TheState};
ghost use Rattle.wave_effects.specs.Plans.{plan_of};
ghost use Rattle.wave_board.specs.declared.origin.Origin.{Origin};
ghost use Rattle.wave_board.specs.Boards.{IsAt};
ghost use Rattle.wave_board.specs.Taking.{IsFinished};
ghost use Rattle.tests_board.specs.inner.Ready.{IsReady};

use super::turns::{first_of, give_back, open_run, plan_for};
use label_log::LabelLog;
use std::alloc::Global;
use std::process::Abort;
use std::test::Fail;
use wave_base::{Finished, OutOfMemory, Start, Worker};
use wave_board::{Board, Turn};
use wave_effects::Plan;

// The one worker takes something, and gives back a segment that it got.
fn take_turn(
    rt: &impl Abort,
    alloc: Global,
    plan: &Plan,
    board: &mut Board,
) -> Result<(), OutOfMemory>
    requires { IsReady plan.now board.old }
    ensures { OnOk result (IsReady plan.now board.new) }
{
    let work = board.take(Worker(0))?;
    match work {
        Turn::Stepped(_) => Ok(()),
        Turn::Segment(parcel) => give_back(alloc, plan, board, parcel),
        Turn::Nothing | Turn::Finished | Turn::Stopped(_) => panic!(rt; "no turn"),
    }
}

// It takes so many turns.
fn take_turns(
    rt: &impl Abort,
    alloc: Global,
    plan: &Plan,
    board: &mut Board,
    count: u8,
) -> Result<(), OutOfMemory>
    requires { IsReady plan.now board.old }
    ensures { OnOk result (IsReady plan.now board.new) }
{
    for turn in 0..count {
        take_turn(rt, alloc, plan, board)?;
    }
    Ok(())
}

// So many lines are new to who has written none; None where nothing is to be written yet.
fn new_lines(
    rt: &impl Abort,
    plan: &Plan,
    board: &Board,
    want: Option<usize>,
) -> Result<(), OutOfMemory>
    requires { IsReady plan.now board.now }
{
    let lines = board.fresh(0)?;
    assert!(rt; lines.map(|lines| lines.len()) == want);
    Ok(())
}

// All is done: what the run gives, and its journal.
pub(super) fn run_end(
    rt: &impl Abort,
    plan: &Plan,
    board: Board,
) -> Result<(Finished, LabelLog), OutOfMemory>
    requires { IsReady plan.now board }
{
    let mut board = board;
    let work = board.take(Worker(0))?;
    match work {
        Turn::Finished => parts(board),
        Turn::Stepped(_) | Turn::Segment(_) | Turn::Nothing | Turn::Stopped(_) => {
            panic!(rt; "not finished")
        }
    }
}

fn parts(board: Board) -> Result<(Finished, LabelLog), OutOfMemory>
    requires { (o : Origin) × (s : TheState) × IsAt board o s × IsFinished board s }
{
    match board.into_parts() {
        Ok(parts) => Ok(parts),
        Err((_, error)) => Err(error),
    }
}

const STILL: &[u8] = b"service Still { }";

const TWO_SNAPSHOTS: &[u8] = b"snapshot
snapshot
";

// No line is new before the turns of the one worker, and two are behind them.
fn finish(rt: &impl Abort, alloc: Global, plan: &Plan, board: &mut Board) -> Result<(), OutOfMemory>
    requires { IsReady plan.now board.old }
    ensures { OnOk result (IsReady plan.now board.new) }
{
    new_lines(rt, plan, board, None)?;
    take_turns(rt, alloc, plan, board, 12)?;
    new_lines(rt, plan, board, Some(2))
}

// What a board of the plan comes to.
fn finished_run(
    rt: &impl Abort,
    alloc: Global,
    plan: &Plan,
    start: &Start,
) -> Result<(Finished, LabelLog), OutOfMemory>
    requires fits { Fits (plan_of plan.now) }
    requires first { start.now ≡ first_start plan.now.program.shape }
{
    let mut board = open_run(alloc, plan, start)?;
    finish(rt, alloc, plan, &mut board)?;
    run_end(rt, plan, board)
}

// Of a snapshot there are six labels besides the Stop.
#[test]
fn one_worker_finishes(rt: HostRuntime) -> Result<(), Fail> {
    let alloc = rt.alloc();
    let plan = plan_for(&rt, alloc, STILL, TWO_SNAPSHOTS, 1);
    let start = first_of(alloc, &plan)?;
    let (finished, journal) = finished_run(&rt, alloc, &plan, &start)?;
    assert_eq!(rt; finished.results.len(), 2);
    assert_eq!(rt; journal.len(), 14);
    Ok(())
}
