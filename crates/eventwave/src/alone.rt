//! A command that is done on one thread.

ghost use Rattle.std.specs.Prelude.{◌≡◌, List, ℕ, false, Some};
ghost use Rattle.wave_io.specs.Causes.{Rose};
ghost use Rattle.command_words.specs.Inputs.{runs_workers};
ghost use Rattle.command_words.specs.Reading.{command_of};
ghost use Rattle.due_answer.specs.Prepared.{Tells};
ghost use Rattle.eventwave.specs.Ends.{change};
ghost use Rattle.eventwave.specs.inner.Parts.{Did, SomeGave};
ghost use Rattle.eventwave.specs.inner.Tasks.{IsDone};

use crate::ending::{Ending, broken_off};
use crate::engines::run_alone;
use crate::giving::give;
use crate::pouring::pour;
use crate::reading::prepare_input;
use crate::staged::stage_alone;
use command_words::Command;
use due_answer::{Prepared, Task};
use due_parts::Runnable;
use std::alloc::Global;
use wave_io::{Sink, Source};

/// Does what a command asks for.
pub fn perform<S: Source, K: Sink>(
    alloc: Global,
    command: Command,
    input: &mut S,
    out: &mut K,
) -> Ending
    requires { runs_workers command ≡ false }
    ensures { (words : List (List ℕ)) → command_of words ≡ Some command → Did words (change (S.faults input.old) (S.faults input.new) (S.left input.old) (S.left input.new)) (change (K.faults out.old) (K.faults out.new) (K.written out.old) (K.written out.new)) result }
{
    match prepare_input(alloc, command, input) {
        Ok(Prepared::Given(answer)) => give(out, answer),
        Ok(Prepared::Run(task, work)) => run_task(alloc, task, work, out),
        Ok(Prepared::Stages(places, engine, work)) => {
            stage_alone(alloc, engine, places, work, out)
        }
        Err(ending) => ending,
    }
}

// Runs work on this thread, and tells what the task asks for.
fn run_task<K: Sink>(alloc: Global, task: Task, work: Runnable, out: &mut K) -> Ending
    requires { IsDone false task work }
    ensures gave { SomeGave (Tells task.telling work) (K.written out.old) (K.written out.new) result }
    ensures fault { result ≡ Ending.WriteFault → Rose (K.faults out.old) (K.faults out.new) }
{
    let (service, plan, start) = work.into_plan(task.engine.workers());
    match run_alone(alloc, task.engine, &service, &plan, &start, out) {
        Ok(made) => pour(alloc, task.telling, &plan, &start, &made, out),
        Err(error) => broken_off(error),
    }
}
