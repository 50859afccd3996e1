//! A plan run by its workers, from a Start to the end.

ghost use Rattle.std.specs.Prelude.{◌≡◌, ◌≤◌, IfOk, OnErr, OnOk, IsErrOf};
ghost use Rattle.std.specs.Io.KnownBytes.{Appends};
ghost use Rattle.wave_base.specs.Starts.{first_start};
ghost use Rattle.wave_io.specs.Causes.{Rose};
ghost use Rattle.wave_io.specs.Streams.{AppendsFront};
ghost use Rattle.plan_actors.specs.Plans.{Fits, FitsStart};
ghost use Rattle.wave_effects.specs.Plans.{plan_of};
ghost use Rattle.kept_lock.specs.Locks.{name_of, knowledge, IsPassOf};
ghost use Rattle.wave_board.specs.Boards.{labels_in};
ghost use Rattle.wave_effects.specs.Machines.{IsFinishedRun};
ghost use Rattle.host_workers.specs.Passes.{IsReady};
ghost use Rattle.host_workers.specs.Lines.{event_lines};
ghost use Rattle.host_workers.specs.Runs.{IsWholeRun};

use crate::boards::board_at;
use crate::ending::{RunError, WorkerEnd};
use crate::post::Post;
use crate::team::{helpers_of, run_team};
use context_tree::trees_that_fit;
use kept_lock::{KeptLock, Pass};
use label_log::LabelLog;
use plan_actors::finished_states_tell;
use serial_runs::{plans_are_serial, plans_have_owners};
use std::alloc::Global;
use std::sync::Wait;
use std::thread::Threads;
use wave_base::{Finished, OutOfMemory, Start, Ticket, Worker};
use wave_board::{Board, Origin, StopCause};
use wave_effects::{Plan, runs_are_measured};
use wave_io::{Gate, Sink};

/// Runs a plan from a Start by its workers, each in a thread of its own where one can be made. It gives what the script gives, and the journal of
/// the labels that the workers took. That is a run of the machine from the Start to its end, each label taken by an owner of its context; what the
/// end tells is what is given, and a serial run ends there too. The lines of the events are written while the workers run; those behind them are
/// left to the caller.
pub fn run_plan_at<R: Threads + Wait + Sync, G: Gate + Sync, K: Sink + Send>(
    rt: &R,
    alloc: Global,
    plan: &Plan,
    start: &Start,
    gate: &G,
    out: &mut K,
) -> Result<(Finished, LabelLog), RunError>
    requires fits { Fits (plan_of plan.now) }
    requires begins { FitsStart (plan_of plan.now) start.now }
    ensures run { IfOk result (λ r. IsWholeRun plan.now start.now r) }
    ensures lines { OnOk result (Appends (K.written out.old) (K.written out.new) (event_lines plan.now start.now)) }
    ensures front { OnErr result (AppendsFront (K.written out.old) (K.written out.new) (event_lines plan.now start.now)) }
    ensures fault { IsErrOf result RunError.WriteFault → Rose (K.faults out.old) (K.faults out.new) }
    ensures later { K.faults out.old ≤ K.faults out.new }
{
    let board = board_at(alloc, plan, start, gate.may_hold())?;
    let (lock, mut first) = match KeptLock::new(alloc, Origin { plan, start }, board) {
        Ok(made) => made,
        Err((_, refused)) => return Err(RunError::OutOfMemory(refused)),
    };
    let post = Post {
        rt,
        alloc,
        lock: &lock,
        plan,
        number: Worker(0),
        gate,
    };
    run_workers(&post, &mut first, start.next, out)?;
    match parts_of(rt, lock, first) {
        Ok(parts) => Ok(parts),
        Err(refused) => Err(RunError::OutOfMemory(refused)),
    }
}

/// The same from the first Start: the root alone, on host 0, and ticket 1.
pub fn run_plan<R: Threads + Wait + Sync, G: Gate + Sync, K: Sink + Send>(
    rt: &R,
    alloc: Global,
    plan: &Plan,
    gate: &G,
    out: &mut K,
) -> Result<(Finished, LabelLog), RunError>
    requires { Fits (plan_of plan.now) }
    ensures run { IfOk result (λ r. IsWholeRun plan.now (first_start plan.now.program.shape) r) }
    ensures lines { OnOk result (Appends (K.written out.old) (K.written out.new) (event_lines plan.now (first_start plan.now.program.shape))) }
    ensures front { OnErr result (AppendsFront (K.written out.old) (K.written out.new) (event_lines plan.now (first_start plan.now.program.shape))) }
    ensures fault { IsErrOf result RunError.WriteFault → Rose (K.faults out.old) (K.faults out.new) }
    ensures later { K.faults out.old ≤ K.faults out.new }
{
    trees_that_fit();
    let start = Start::first(alloc, &plan.program.program().shape)?;
    run_plan_at(rt, alloc, plan, &start, gate, out)
}

// Runs all workers of the plan round a new lock, at which the post of worker 0 is.
fn run_workers<'l, 'p, R: Threads + Wait + Sync, G: Gate + Sync, K: Sink + Send>(
    post: &Post<'l, 'p, R, G>,
    first: &mut Pass<Board<'p>>,
    from: Ticket,
    out: &mut K,
) -> Result<(), RunError>
    requires of_lock { IsPassOf post.now.lock.now first.old }
    requires plan { (name_of post.now.lock.now).plan.now ≡ post.now.plan.now }
    requires from { (name_of post.now.lock.now).start.now.next ≡ from }
    requires writer { post.now.number ≡ record { 0 = 0 } }
    requires ready { IsReady (name_of post.now.lock.now) (knowledge first.old) (record { 0 = 0 }) }
    requires one { (knowledge first.old).passes ≡ 1 }
    ensures of_lock { IsPassOf post.now.lock.now first.new }
    ensures finished { OnOk result (IsFinishedRun (plan_of (name_of post.now.lock.now).plan.now) (name_of post.now.lock.now).start.now (labels_in (knowledge first.new).seen)) }
    ensures lines { OnOk result (Appends (K.written out.old) (K.written out.new) (event_lines post.now.plan.now (name_of post.now.lock.now).start.now)) }
    ensures front { OnErr result (AppendsFront (K.written out.old) (K.written out.new) (event_lines post.now.plan.now (name_of post.now.lock.now).start.now)) }
    ensures fault { IsErrOf result RunError.WriteFault → Rose (K.faults out.old) (K.faults out.new) }
    ensures later { K.faults out.old ≤ K.faults out.new }
{
    let helpers = helpers_of(post, first)?;
    match run_team(post, first, helpers, from, out) {
        WorkerEnd::Finished => Ok(()),
        WorkerEnd::WriteFault => Err(RunError::WriteFault),
        WorkerEnd::Stopped(StopCause::Memory(refused)) => Err(RunError::OutOfMemory(refused)),
        WorkerEnd::Stopped(StopCause::SinkFault) => unreachable!(),
        WorkerEnd::OutOfMemory(refused) => Err(RunError::OutOfMemory(refused)),
    }
}

// What a finished run gives, from the lock that its workers left.
fn parts_of<'p, R: Wait>(
    rt: &R,
    lock: KeptLock<Board<'p>>,
    first: Pass<Board<'p>>,
) -> Result<(Finished, LabelLog), OutOfMemory>
    requires of_lock { IsPassOf lock first }
    requires finished { IsFinishedRun (plan_of (name_of lock).plan.now) (name_of lock).start.now (labels_in (knowledge first).seen) }
    ensures { IfOk result (λ r. IsWholeRun (name_of lock.entry).plan.now (name_of lock.entry).start.now r) }
{
    finished_states_tell();
    plans_have_owners();
    plans_are_serial();
    runs_are_measured();
    match lock.close(rt, first).into_parts() {
        Ok(parts) => Ok(parts),
        Err((_, refused)) => Err(refused),
    }
}
