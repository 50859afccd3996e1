//! What is told of a run behind the lines of its events, written part by part; or all of it at once, where it has no such lines.

ghost use Rattle.std.specs.Prelude.{◌≡◌, ◌≤◌, ◌+◌, ◌^◌, length, option_copied, All, IfOk, IsErrOf, OnErr, OnOk};
ghost use Rattle.std.specs.Io.KnownBytes.{Appends};
ghost use Rattle.due_parts.specs.Told.{is_listed, point_behind, report_answer};
ghost use Rattle.journal_text.specs.Fits.{HasPath};
ghost use Rattle.journal_text.specs.JournalTexts.{journal_text};
ghost use Rattle.wave_labels.specs.declared.label.Label.{Label};
ghost use Rattle.listing_out.specs.Listing.{last_ticket, places_of};
ghost use Rattle.wave_io.specs.Causes.{Rose};
ghost use Rattle.wave_io.specs.Streams.{AppendsFront};
ghost use Rattle.eventwave.specs.inner.Pouring.{IsPoured, IsTellable, end_text, rest_of, rest_text};
ghost use Rattle.eventwave.specs.inner.Parts.{Gave};
ghost use Rattle.wave_effects.specs.Plans.{plan_of};

use crate::ending::{Ending, broken_off};
use crate::made::Made;
use command_words::Places;
use due_parts::{
    Answer, Report, Telling, point_answer, runs_have_paths, status_of, summary_answer,
};
use journal_text::{head_line, label_line};
use label_log::LabelLog;
use listing_out::{ListError, write_end};
use std::alloc::Global;
use wave_base::{Finished, OutOfMemory, Place, Seq, Shape, Start, Ticket};
use wave_effects::Plan;
use wave_io::{HeldBytes, Sink};

/// Writes what is told of a run behind the lines of its events, which are written.
pub fn pour<K: Sink>(
    alloc: Global,
    telling: Telling,
    plan: &Plan,
    start: &Start,
    made: &Made,
    out: &mut K,
) -> Ending
    requires { IsPoured telling (plan_of plan.now) start.now made.now }
    ensures gave { Gave (rest_of telling plan.now.program.shape start.now.next.0 made.now) (K.written out.old) (K.written out.new) result }
    ensures fault { result ≡ Ending.WriteFault → Rose (K.faults out.old) (K.faults out.new) }
{
    match write_rest(alloc, telling, plan, start, made, out) {
        Ok(()) => Ending::Answered(status_of(made.done.results.as_slice()), Seq::new(alloc)),
        Err(error) => broken_off(error),
    }
}

fn write_rest<K: Sink>(
    alloc: Global,
    telling: Telling,
    plan: &Plan,
    start: &Start,
    made: &Made,
    out: &mut K,
) -> Result<(), ListError>
    requires { IsPoured telling (plan_of plan.now) start.now made.now }
    ensures ok { OnOk result (Appends (K.written out.old) (K.written out.new) (rest_text telling plan.now.program.shape start.now.next.0 made.now)) }
    ensures err { OnErr result (AppendsFront (K.written out.old) (K.written out.new) (rest_text telling plan.now.program.shape start.now.next.0 made.now)) }
    ensures fault { IsErrOf result ListError.WriteFault → Rose (K.faults out.old) (K.faults out.new) }
{
    let shape = &plan.program.program().shape;
    match telling {
        Telling::Reports(Report::Listing(places)) => {
            write_places(alloc, places, shape, start.next, &made.done, out)
        }
        Telling::Traces(places, _) => {
            write_places(alloc, places, shape, start.next, &made.done, out)?;
            runs_have_paths();
            match &made.journal {
                Some(journal) => write_journal(alloc, shape, journal, out),
                None => unreachable!(),
            }
        }
        Telling::Reports(Report::Summary | Report::Point) => unreachable!(),
    }
}

// Writes the end of a listing.
fn write_places<K: Sink>(
    alloc: Global,
    places: Places,
    shape: &Shape,
    first: Ticket,
    done: &Finished,
    out: &mut K,
) -> Result<(), ListError>
    requires some { 1 ≤ first.0 }
    requires few { first.0 + length done.now.results ≤ 2 ^ 32 }
    ensures ok { OnOk result (Appends (K.written out.old) (K.written out.new) (end_text places shape.now first.0 done.now)) }
    ensures err { OnErr result (AppendsFront (K.written out.old) (K.written out.new) (end_text places shape.now first.0 done.now)) }
    ensures fault { IsErrOf result ListError.WriteFault → Rose (K.faults out.old) (K.faults out.new) }
    ensures later { K.faults out.old ≤ K.faults out.new }
{
    let last = last_ticket(first, done);
    write_end(alloc, out, shape, places_of(done, places), last)
}

// The last ticket of a run; without tickets, the one before the first.
fn last_ticket(first: Ticket, done: &Finished) -> u32
    requires some { 1 ≤ first.0 }
    requires few { first.0 + length done.now.results ≤ 2 ^ 32 }
    ensures { result ≡ last_ticket first.0 done.now }
{
    first.0 - 1 + done.results.len() as u32
}

// The places, where they are asked for.
fn places_of(done: &Finished, places: Places) -> Option<&Seq<Place>>
    ensures { option_copied result ≡ places_of done.now (is_listed places) }
{
    match places {
        Places::Listed => Some(&done.places),
        Places::Unlisted => None,
    }
}

// Writes the journal of a run, many lines at a time.
fn write_journal<K: Sink>(
    alloc: Global,
    shape: &Shape,
    journal: &LabelLog,
    out: &mut K,
) -> Result<(), ListError>
    requires { All (λ (l : Label). HasPath shape.now l.act) journal.now }
    ensures ok { OnOk result (Appends (K.written out.old) (K.written out.new) (journal_text shape.now journal.now)) }
    ensures err { OnErr result (AppendsFront (K.written out.old) (K.written out.new) (journal_text shape.now journal.now)) }
    ensures fault { IsErrOf result ListError.WriteFault → Rose (K.faults out.old) (K.faults out.new) }
    ensures later { K.faults out.old ≤ K.faults out.new }
{
    let mut held = HeldBytes::new(alloc)?;
    let count = journal.len();
    let head = head_line(alloc, count)?;
    held.write_all(out, head.as_slice())?;
    for i in 0..count {
        let label = journal.label_at(i);
        let line = label_line(alloc, shape, i as u64 + 1, &label)?;
        held.write_all(out, line.as_slice())?;
    }
    held.flush(out)?;
    Ok(())
}

/// What is told of a run at once: its sum, or the point that it leaves.
pub fn told_at_once(
    alloc: Global,
    report: Report,
    plan: &Plan,
    start: &Start,
    done: Finished,
) -> Result<Answer, OutOfMemory>
    requires { IsTellable report plan.now.program.shape (point_behind start.now plan.now.script done) }
    ensures { IfOk result (λ a. a ≡ report_answer plan.now.program.shape start.now plan.now.script report done) }
{
    let shape = &plan.program.program().shape;
    match report {
        Report::Summary => summary_answer(alloc, &done),
        Report::Point => point_answer(alloc, shape, start, &plan.script, done),
        Report::Listing(_) => unreachable!(),
    }
}
