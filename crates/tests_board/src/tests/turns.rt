//! What a worker does with a board between two calls.

ghost use Rattle.std.specs.Prelude.{◌≡◌, IfErr, IfOk, OnOk};
ghost use Rattle.wave_base.specs.Starts.{first_start};
ghost use Rattle.plan_actors.specs.Plans.{Fits};
ghost use Rattle.wave_effects.specs.Plans.{plan_of};
ghost use Rattle.tests_board.specs.inner.Ready.{HasRun, IsOut, IsReady};

use plan_actors::PlanActors;
use std::alloc::Global;
use std::process::Abort;
use tests_machine::Case;
use wave_base::{OutOfMemory, Start, Worker};
use wave_board::{Board, Parcel, Reply, Returned, Turn};
use wave_effects::Plan;
use wave_theory::hands_stay_over;

// The plan of a service's text and a script's, which are right.
pub(super) fn plan_for(
    rt: &impl Abort,
    alloc: Global,
    service: &[u8],
    script: &[u8],
    workers: u8,
) -> Plan
    ensures { Fits (plan_of result) }
{
    let case = Case {
        service,
        script,
        workers,
    };
    match case.plan(alloc) {
        Some(plan) => plan,
        None => panic!(rt; "no plan"),
    }
}

// The Start with which a plan begins.
pub(super) fn first_of(alloc: Global, plan: &Plan) -> Result<Start, OutOfMemory>
    requires { Fits (plan_of plan.now) }
    ensures { IfOk result (λ s. s ≡ first_start plan.now.program.shape) }
{
    Start::first(alloc, &plan.program.program().shape)
}

// A board of a plan. The Start is that of its name.
pub(super) fn open_run<'p>(
    alloc: Global,
    plan: &'p Plan,
    _start: &'p Start,
) -> Result<Board<'p>, OutOfMemory>
    requires fits { Fits (plan_of plan.now) }
    requires first { _start.now ≡ first_start plan.now.program.shape }
    ensures { IfOk result (IsReady plan.now) }
{
    Board::new(alloc, plan)
}

// The worker takes a label that is no Start.
pub(super) fn take_step(
    rt: &impl Abort,
    plan: &Plan,
    board: &mut Board,
    worker: Worker,
) -> Result<(), OutOfMemory>
    requires { IsReady plan.now board.old }
    ensures { OnOk result (IsReady plan.now board.new) }
{
    if worker.0 >= plan.workers {
        panic!(rt; "no worker");
    }
    let work = board.take(worker)?;
    match work {
        Turn::Stepped(_) => Ok(()),
        Turn::Segment(_) | Turn::Nothing | Turn::Finished | Turn::Stopped(_) => {
            panic!(rt; "no step")
        }
    }
}

// The worker takes a Start.
pub(super) fn take_segment(
    rt: &impl Abort,
    plan: &Plan,
    board: &mut Board,
    worker: Worker,
) -> Result<Parcel, OutOfMemory>
    requires { IsReady plan.now board.old }
    ensures { IfOk result (IsOut plan.now board.new) }
{
    if worker.0 >= plan.workers {
        panic!(rt; "no worker");
    }
    let work = board.take(worker)?;
    match work {
        Turn::Segment(parcel) => Ok(parcel),
        Turn::Stepped(_) | Turn::Nothing | Turn::Finished | Turn::Stopped(_) => {
            panic!(rt; "no segment")
        }
    }
}

// Another worker than the lease's finds nothing to do.
pub(super) fn find_nothing(
    rt: &impl Abort,
    plan: &Plan,
    board: &mut Board,
    parcel: &Parcel,
    worker: Worker,
) -> Result<(), OutOfMemory>
    requires { IsOut plan.now board.old parcel.now }
    ensures { OnOk result (IsOut plan.now board.new parcel.now) }
{
    hands_stay_over::<PlanActors>();
    if worker.0 >= plan.workers {
        panic!(rt; "no worker");
    }
    if parcel.lease().worker.0 == worker.0 {
        panic!(rt; "no other worker");
    }
    let work = board.take(worker)?;
    match work {
        Turn::Nothing => Ok(()),
        Turn::Stepped(_) | Turn::Segment(_) | Turn::Finished | Turn::Stopped(_) => {
            panic!(rt; "not nothing")
        }
    }
}

// Runs a segment that is out, and gives it back.
pub(super) fn give_back(
    alloc: Global,
    plan: &Plan,
    board: &mut Board,
    parcel: Parcel,
) -> Result<(), OutOfMemory>
    requires { IsOut plan.now board.old parcel }
    ensures { OnOk result (IsReady plan.now board.new) }
{
    let reply = parcel.run(alloc, &plan.program)?;
    match give(plan, board, reply) {
        Ok(()) => Ok(()),
        Err(returned) => give_again(plan, board, returned),
    }
}

// Gives a segment back that was run. After want of memory it comes back.
fn give(plan: &Plan, board: &mut Board, reply: Reply) -> Result<(), Returned>
    requires { HasRun plan.now board.old reply.lease reply.pause }
    ensures ready { OnOk result (IsReady plan.now board.new) }
    ensures again { IfErr result (λ r. HasRun plan.now board.new r.reply.lease r.reply.pause) }
{
    hands_stay_over::<PlanActors>();
    board.give(reply)
}

// Once more, after want of memory.
fn give_again(plan: &Plan, board: &mut Board, returned: Returned) -> Result<(), OutOfMemory>
    requires { HasRun plan.now board.old returned.reply.lease returned.reply.pause }
    ensures { OnOk result (IsReady plan.now board.new) }
{
    match give(plan, board, returned.reply) {
        Ok(()) => Ok(()),
        Err(returned) => Err(returned.error),
    }
}
