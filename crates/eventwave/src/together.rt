//! A command that workers run, each in a thread of its own.

ghost use Rattle.std.specs.Prelude.{◌≡◌, List, ℕ, true, false, Some};
ghost use Rattle.wave_io.specs.Causes.{Rose};
ghost use Rattle.command_words.specs.Inputs.{runs_workers};
ghost use Rattle.command_words.specs.Reading.{command_of};
ghost use Rattle.due_answer.specs.Prepared.{Tells};
ghost use Rattle.eventwave.specs.Ends.{change};
ghost use Rattle.eventwave.specs.inner.Parts.{Did, SomeGave};
ghost use Rattle.eventwave.specs.inner.Tasks.{IsDone, has_lines};

use crate::ending::{Ending, broken_off};
use crate::engines::run_together;
use crate::giving::give;
use crate::pouring::{pour, told_at_once};
use crate::reading::prepare_input;
use crate::staged::stage_together;
use crate::team::Team;
use command_words::Command;
use due_answer::{Prepared, Task};
use due_parts::{Report, Runnable, Telling};
use listing_out::ListError;
use std::sync::Wait;
use std::thread::Threads;
use wave_io::{Gate, Sink, Source, SureSink};

/// Does what a command asks for, by workers.
pub fn perform_together<R: Threads + Wait + Sync, S: Source, K: Sink + Send, G: Gate + Sync>(
    team: &Team<R, G>,
    command: Command,
    input: &mut S,
    out: &mut K,
) -> Ending
    requires { runs_workers command ≡ true }
    ensures { (words : List (List ℕ)) → command_of words ≡ Some command → Did words (change (S.faults input.old) (S.faults input.new) (S.left input.old) (S.left input.new)) (change (K.faults out.old) (K.faults out.new) (K.written out.old) (K.written out.new)) result }
{
    match prepare_input(team.alloc, command, input) {
        Ok(Prepared::Given(answer)) => give(out, answer),
        Ok(Prepared::Run(task, work)) => run_task(team, task, work, out),
        Ok(Prepared::Stages(places, engine, work)) => {
            stage_together(team, engine, places, work, out)
        }
        Err(ending) => ending,
    }
}

// Runs work by workers, and tells what the task asks for.
fn run_task<R: Threads + Wait + Sync, K: Sink + Send, G: Gate + Sync>(
    team: &Team<R, G>,
    task: Task,
    work: Runnable,
    out: &mut K,
) -> Ending
    requires done { IsDone true task work }
    ensures gave { SomeGave (Tells task.telling work) (K.written out.old) (K.written out.new) result }
    ensures fault { result ≡ Ending.WriteFault → Rose (K.faults out.old) (K.faults out.new) }
{
    match task.telling {
        Telling::Reports(Report::Listing(_)) | Telling::Traces(_, _) => {
            run_listed(team, task, work, out)
        }
        Telling::Reports(report) => run_quietly(team, task, report, work, out),
    }
}

// Runs work whose lines are written while it runs.
fn run_listed<R: Threads + Wait + Sync, K: Sink + Send, G: Gate + Sync>(
    team: &Team<R, G>,
    task: Task,
    work: Runnable,
    out: &mut K,
) -> Ending
    requires done { IsDone true task work }
    requires lines { has_lines task.telling ≡ true }
    ensures gave { SomeGave (Tells task.telling work) (K.written out.old) (K.written out.new) result }
    ensures fault { result ≡ Ending.WriteFault → Rose (K.faults out.old) (K.faults out.new) }
{
    let (_, plan, start) = work.into_plan(task.engine.workers());
    match run_together(team, &plan, &start, out) {
        Ok(made) => pour(team.alloc, task.telling, &plan, &start, &made, out),
        Err(error) => broken_off(error),
    }
}

// Runs work whose lines go nowhere, and tells the report at once.
fn run_quietly<R: Threads + Wait + Sync, K: Sink, G: Gate + Sync>(
    team: &Team<R, G>,
    task: Task,
    report: Report,
    work: Runnable,
    out: &mut K,
) -> Ending
    requires done { IsDone true task work }
    requires telling { task.telling ≡ Telling.Reports report }
    requires quiet { has_lines task.telling ≡ false }
    ensures gave { SomeGave (Tells task.telling work) (K.written out.old) (K.written out.new) result }
    ensures fault { result ≡ Ending.WriteFault → Rose (K.faults out.old) (K.faults out.new) }
{
    let (_, plan, start) = work.into_plan(task.engine.workers());
    match run_together(team, &plan, &start, &mut SureSink::new()) {
        Ok(made) => match told_at_once(team.alloc, report, &plan, &start, made.done) {
            Ok(answer) => give(out, answer),
            Err(refused) => Ending::NoMemory(refused),
        },
        Err(ListError::WriteFault) => unreachable!(),
        Err(ListError::OutOfMemory(refused)) => Ending::NoMemory(refused),
    }
}
