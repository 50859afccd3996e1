//! What is told of all that was done, where it is told as one text.

ghost use Rattle.std.specs.Prelude.{◌≡◌, ◌≤◌, ◌+◌, if◌then◌else◌, length, sum_by, IfOk};
ghost use Rattle.wave_base.specs.declared.limits.TheConstants.{EVENT_LINES, SAVED_TICKET};
ghost use Rattle.checkpoint_store.specs.Points.{IsPoint};
ghost use Rattle.due_parts.specs.Told.{any_trap, point_behind, report_answer};
ghost use Rattle.due_parts.specs.declared.report.Report.{Report};
ghost use Rattle.wave_base.specs.declared.script.Script.{Script};
ghost use Rattle.wave_base.specs.declared.shape.Shape.{Shape};
ghost use Rattle.wave_base.specs.declared.start.Start.{Start};

use crate::answer::Answer;
use checkpoint_store::{Checkpoint, write_checkpoint};
use std::alloc::Global;
use wave_base::{EventResult, Finished, OutOfMemory, Outcome, Script, Seq, Shape, Start, Ticket};
use wave_gen::summarize;

// Whether one of the results is a trap.
fn any_trap(results: &[EventResult]) -> bool
    ensures { result ≡ any_trap results.now }
{
    results
        .iter()
        .any(|result_| matches!(result_.outcome, Outcome::Trapped(_)))
}

/// The status of a run: 1 where something trapped.
pub fn status_of(results: &[EventResult]) -> u8
    ensures { result ≡ (if any_trap results.now then 1 else 0) }
{
    if any_trap(results) { 1 } else { 0 }
}

/// All that was done is summed up.
pub fn summary_answer(alloc: Global, done: &Finished) -> Result<Answer, OutOfMemory>
    ensures { (shape : Shape) (start : Start) (script : Script) → IfOk result (λ a. a ≡ report_answer shape start script Report.Summary done.now) }
{
    let text = summarize(alloc, done.results.as_slice())?;
    Ok(Answer {
        status: status_of(done.results.as_slice()),
        note: Seq::new(alloc),
        text,
    })
}

// How many event lines a script has.
fn lines_in(script: &Script) -> u32
    requires { sum_by length script.now.batches ≤ EVENT_LINES }
    ensures { result ≡ sum_by length script.now.batches }
{
    let mut lines = 0;
    for batch in script.batches.as_slice() {
        lines += batch.len() as u32;
    }
    lines
}

// Where a script has come to.
fn point_behind(start: &Start, script: &Script, done: Finished) -> Checkpoint
    requires lines { sum_by length script.now.batches ≤ EVENT_LINES }
    requires tickets { start.now.next.0 + length done.results ≤ SAVED_TICKET }
    ensures { result ≡ point_behind start.now script.now done }
{
    let lines = lines_in(script);
    let next = Ticket(start.next.0 + done.results.len() as u32);
    Checkpoint {
        hosts: script.hosts,
        lines,
        start: Start {
            shots: done.shots,
            places: done.places,
            next,
        },
    }
}

/// The point that a script leaves is written as a checkpoint.
pub fn point_answer(
    alloc: Global,
    shape: &Shape,
    start: &Start,
    script: &Script,
    done: Finished,
) -> Result<Answer, OutOfMemory>
    requires { IsPoint shape.now (point_behind start.now script.now done) }
    ensures { IfOk result (λ a. a ≡ report_answer shape.now start.now script.now Report.Point done) }
{
    let status = status_of(done.results.as_slice());
    let point = point_behind(start, script, done);
    let text = write_checkpoint(alloc, shape, &point)?;
    Ok(Answer {
        status,
        note: Seq::new(alloc),
        text,
    })
}
