//! Scripts with policies, run piece by piece and listed: the lines of each piece are written before the next one is known, and behind the last what
//! ends a listing.

ghost use Rattle.std.specs.Prelude.{◌≡◌, ◌≤◌, option_copied, true, false, IfOk, IsErrOf, OnErr, OnOk};
ghost use Rattle.std.specs.Io.KnownBytes.{Appends};
ghost use Rattle.wave_io.specs.Causes.{Rose};
ghost use Rattle.wave_io.specs.Streams.{AppendsFront};
ghost use Rattle.due_stages.specs.Listed.{end_from, listed_places};
ghost use Rattle.eventwave.specs.inner.Parts.{SomeGave};
ghost use Rattle.eventwave.specs.inner.Stages.{IsStagedBy, listing_of};

use crate::ending::{Ending, broken_off};
use crate::pieces::piece_plan;
use crate::team::Team;
use crate::way::{run_piece_alone, run_piece_together};
use command_words::Places;
use due_answer::Engine;
use due_stages::{StagedWork, pieces_are_listed};
use elastic_policy::Progress;
use listing_out::{ListError, write_end};
use std::alloc::Global;
use std::sync::Wait;
use std::thread::Threads;
use wave_base::{Place, Seq, Shape, Start};
use wave_io::{Gate, Sink};

/// Runs a script with policies on this thread, and lists it.
pub fn stage_alone<K: Sink>(
    alloc: Global,
    engine: Engine,
    places: Places,
    work: StagedWork,
    out: &mut K,
) -> Ending
    requires { IsStagedBy false places engine work }
    ensures gave { SomeGave (λ a. a ≡ listing_of work places) (K.written out.old) (K.written out.new) result }
    ensures fault { result ≡ Ending.WriteFault → Rose (K.faults out.old) (K.faults out.new) }
{
    match list_alone(alloc, engine, places, work, out) {
        Ok(status) => Ending::Answered(status, Seq::new(alloc)),
        Err(error) => broken_off(error),
    }
}

/// Runs a script with policies by workers, and lists it. The lines of a piece are written before the next one is known, and while workers run it.
pub fn stage_together<R: Threads + Wait + Sync, K: Sink + Send, G: Gate + Sync>(
    team: &Team<R, G>,
    engine: Engine,
    places: Places,
    work: StagedWork,
    out: &mut K,
) -> Ending
    requires staged { IsStagedBy true places engine work }
    ensures gave { SomeGave (λ a. a ≡ listing_of work places) (K.written out.old) (K.written out.new) result }
    ensures fault { result ≡ Ending.WriteFault → Rose (K.faults out.old) (K.faults out.new) }
{
    match list_together(team, engine, places, work, out) {
        Ok(status) => Ending::Answered(status, Seq::new(team.alloc)),
        Err(error) => broken_off(error),
    }
}

// The pieces, one after the other, on this thread, and what ends the listing. It gives the status.
fn list_alone<K: Sink>(
    alloc: Global,
    engine: Engine,
    places: Places,
    work: StagedWork,
    out: &mut K,
) -> Result<u8, ListError>
    requires { IsStagedBy false places engine work }
    ensures status { IfOk result (λ status. status ≡ (listing_of work places).status) }
    ensures lines { OnOk result (Appends (K.written out.old) (K.written out.new) (listing_of work places).text) }
    ensures front { OnErr result (AppendsFront (K.written out.old) (K.written out.new) (listing_of work places).text) }
    ensures fault { IsErrOf result ListError.WriteFault → Rose (K.faults out.old) (K.faults out.new) }
{
    pieces_are_listed();
    let StagedWork {
        service,
        program: mut code,
        stages,
    } = work;
    let mut stages = Progress::Kept(stages);
    let mut trapped = false;
    while let Some(script) = stages.next(alloc)? {
        let plan = piece_plan(code, script, engine);
        let behind = run_piece_alone(alloc, engine, &service, plan, stages, out)?;
        trapped |= behind.trapped;
        code = behind.program;
        stages = behind.stages;
    }
    let stages = stages.into_stages(alloc)?;
    write_behind(alloc, places, &code.program().shape, stages.start(), out)?;
    Ok(u8::from(trapped))
}

// The same by workers.
fn list_together<R: Threads + Wait + Sync, K: Sink + Send, G: Gate + Sync>(
    team: &Team<R, G>,
    engine: Engine,
    places: Places,
    work: StagedWork,
    out: &mut K,
) -> Result<u8, ListError>
    requires { IsStagedBy true places engine work }
    ensures status { IfOk result (λ status. status ≡ (listing_of work places).status) }
    ensures lines { OnOk result (Appends (K.written out.old) (K.written out.new) (listing_of work places).text) }
    ensures front { OnErr result (AppendsFront (K.written out.old) (K.written out.new) (listing_of work places).text) }
    ensures fault { IsErrOf result ListError.WriteFault → Rose (K.faults out.old) (K.faults out.new) }
{
    pieces_are_listed();
    let StagedWork {
        service,
        program: mut code,
        stages,
    } = work;
    let mut stages = Progress::Kept(stages);
    let mut trapped = false;
    while let Some(script) = stages.next(team.alloc)? {
        let plan = piece_plan(code, script, engine);
        let behind = run_piece_together(team, engine, &service, plan, stages, out)?;
        trapped |= behind.trapped;
        code = behind.program;
        stages = behind.stages;
    }
    let stages = stages.into_stages(team.alloc)?;
    write_behind(
        team.alloc,
        places,
        &code.program().shape,
        stages.start(),
        out,
    )?;
    Ok(u8::from(trapped))
}

// Writes what ends a listing: the places, where they are asked for, and the last ticket.
fn write_behind<K: Sink>(
    alloc: Global,
    places: Places,
    shape: &Shape,
    start: &Start,
    out: &mut K,
) -> Result<(), ListError>
    requires { 1 ≤ start.now.next.0 }
    ensures ok { OnOk result (Appends (K.written out.old) (K.written out.new) (end_from shape.now places start.now)) }
    ensures err { OnErr result (AppendsFront (K.written out.old) (K.written out.new) (end_from shape.now places start.now)) }
    ensures fault { IsErrOf result ListError.WriteFault → Rose (K.faults out.old) (K.faults out.new) }
    ensures later { K.faults out.old ≤ K.faults out.new }
{
    write_end(
        alloc,
        out,
        shape,
        listed_places(places, start),
        start.next.0 - 1,
    )
}

// The places, where they are asked for.
fn listed_places(places: Places, start: &Start) -> Option<&Seq<Place>>
    ensures { option_copied result ≡ listed_places places start.now }
{
    match places {
        Places::Listed => Some(&start.places),
        Places::Unlisted => None,
    }
}
