//! The worker that writes lines while it works.

ghost use Rattle.std.specs.Prelude.{◌≡◌, ◌≤◌, ℕ, IfErr, IfOk, List, Option, Some};
ghost use Rattle.std.specs.Io.KnownBytes.{Appends};
ghost use Rattle.wave_io.specs.Causes.{Rose};
ghost use Rattle.wave_io.specs.Streams.{AppendsFront};
ghost use Rattle.kept_lock.specs.Locks.{name_of, knowledge, IsPassOf};
ghost use Rattle.host_workers.specs.Endings.{Ended};
ghost use Rattle.host_workers.specs.Lines.{event_lines};
ghost use Rattle.host_workers.specs.Passes.{IsReady};
ghost use Rattle.host_workers.specs.inner.Teams.{HasEnded, IsAtPost};
ghost use Rattle.host_workers.specs.inner.Writing.{AreCommitted, AreNext, AreWritten, HasBegun, HasWritten, Offered, Stands};

use crate::begun::Begun;
use crate::ending::WorkerEnd;
use crate::offer::Offer;
use crate::packet::Packet;
use crate::post::Post;
use crate::told::Told;
use crate::visits::{halt, visit};
use crate::working::{carry_out, give_up};
use kept_lock::{KeptLock, Pass};
use listing_out::{ListError, parts_make_a_listing, write_lines};
use std::alloc::Global;
use std::sync::Wait;
use wave_base::{OutOfMemory, Seq, Shown, Ticket, Worker};
use wave_board::{Board, StopCause};
use wave_effects::Plan;
use wave_io::{Gate, Sink};

/// Worker 0, which writes the lines of the events that are committed, between its steps and outside the lock.
pub fn writing_worker<'p, R: Wait, G: Gate, K: Sink>(
    rt: &R,
    alloc: Global,
    lock: &KeptLock<Board<'p>>,
    pass: &mut Pass<Board<'p>>,
    plan: &'p Plan,
    gate: &G,
    from: Ticket,
    out: &mut K,
) -> WorkerEnd
    requires of_lock { IsPassOf lock.now pass.old }
    requires plan { (name_of lock.now).plan.now ≡ plan.now }
    requires from { (name_of lock.now).start.now.next ≡ from }
    requires ready { IsReady (name_of lock.now) (knowledge pass.old) (record { 0 = 0 }) }
    ensures of_lock { IsPassOf lock.now pass.new }
    ensures number { (knowledge pass.new).number ≡ 0 }
    ensures ended { Ended (name_of lock.now) (knowledge pass.new) result }
    ensures whole { result ≡ WorkerEnd.Finished → Appends (K.written out.old) (K.written out.new) (event_lines plan.now (name_of lock.now).start.now) }
    ensures front { AppendsFront (K.written out.old) (K.written out.new) (event_lines plan.now (name_of lock.now).start.now) }
    ensures fault { result ≡ WorkerEnd.WriteFault → Rose (K.faults out.old) (K.faults out.new) }
    ensures later { K.faults out.old ≤ K.faults out.new }
{
    let post = Post {
        rt,
        alloc,
        lock,
        plan,
        number: Worker(0),
        gate,
    };
    write_at(&post, pass, from, out)
}

/// The same at its post.
pub(crate) fn write_at<'l, 'p, R: Wait, G: Gate, K: Sink>(
    post: &Post<'l, 'p, R, G>,
    pass: &mut Pass<Board<'p>>,
    from: Ticket,
    out: &mut K,
) -> WorkerEnd
    requires of_lock { IsPassOf post.now.lock.now pass.old }
    requires post { IsAtPost (name_of post.now.lock.now) post.now.plan.now post.now.number from }
    requires ready { IsReady (name_of post.now.lock.now) (knowledge pass.old) post.now.number }
    ensures of_lock { IsPassOf post.now.lock.now pass.new }
    ensures ended { HasEnded (name_of post.now.lock.now) post.now.plan.now (knowledge pass.new) (K.written out.old) (K.written out.new) (K.faults out.old) (K.faults out.new) result }
{
    match write_alone(post, pass, from, out) {
        Ok(begun) => write_on(post, pass, from, begun, out),
        Err(ending) => ending,
    }
}

/// Works alone, until there is more than this worker will have done at once.
pub(crate) fn write_alone<'l, 'p, R: Wait, G: Gate, K: Sink>(
    post: &Post<'l, 'p, R, G>,
    pass: &mut Pass<Board<'p>>,
    from: Ticket,
    out: &mut K,
) -> Result<Begun, WorkerEnd>
    requires of_lock { IsPassOf post.now.lock.now pass.old }
    requires post { IsAtPost (name_of post.now.lock.now) post.now.plan.now post.now.number from }
    requires ready { IsReady (name_of post.now.lock.now) (knowledge pass.old) post.now.number }
    ensures of_lock { IsPassOf post.now.lock.now pass.new }
    ensures begun { IfOk result (λ b. HasBegun (name_of post.now.lock.now) (knowledge pass.new) post.now.number b (K.written out.old) (K.written out.new)) }
    ensures ended { IfErr result (HasEnded (name_of post.now.lock.now) post.now.plan.now (knowledge pass.new) (K.written out.old) (K.written out.new) (K.faults out.old) (K.faults out.new)) }
    ensures later { K.faults out.old ≤ K.faults out.new }
{
    let mut packet = None;
    let mut written = 0;
    for _ in post.rt.forever() {
        let Told { offer, more } = visit(post, pass, packet, Some(written));
        if more {
            return Ok(Begun { offer, written });
        }
        match follow(post, pass, from, offer, written, out) {
            Ok((next, count)) => {
                packet = next;
                written = count;
            }
            Err(ending) => return Err(ending),
        }
    }
    unreachable!()
}

/// Goes on from there to the end, whoever works beside it.
pub(crate) fn write_on<'l, 'p, R: Wait, G: Gate, K: Sink>(
    post: &Post<'l, 'p, R, G>,
    pass: &mut Pass<Board<'p>>,
    from: Ticket,
    begun: Begun,
    out: &mut K,
) -> WorkerEnd
    requires of_lock { IsPassOf post.now.lock.now pass.old }
    requires post { IsAtPost (name_of post.now.lock.now) post.now.plan.now post.now.number from }
    requires stands { Stands (name_of post.now.lock.now) (knowledge pass.old) post.now.number begun }
    ensures of_lock { IsPassOf post.now.lock.now pass.new }
    ensures ended { (first : Option (List ℕ)) → AreWritten (name_of post.now.lock.now) begun.written first (K.written out.old)
        → HasEnded (name_of post.now.lock.now) post.now.plan.now (knowledge pass.new) first (K.written out.new) (K.faults out.old) (K.faults out.new) result }
{
    let Begun { offer, written } = begun;
    let (mut packet, mut written) = match follow(post, pass, from, offer, written, out) {
        Ok(next) => next,
        Err(ending) => return ending,
    };
    for _ in post.rt.forever() {
        let told = visit(post, pass, packet, Some(written));
        match follow(post, pass, from, told.offer, written, out) {
            Ok((next, count)) => {
                packet = next;
                written = count;
            }
            Err(ending) => return ending,
        }
    }
    unreachable!()
}

// Does what the worker that writes was offered: new lines, or else some work. It gives what it brings to its next visit, and of how many tickets
// lines are written then.
fn follow<'l, 'p, R: Wait, G: Gate, K: Sink>(
    post: &Post<'l, 'p, R, G>,
    pass: &mut Pass<Board<'p>>,
    from: Ticket,
    offer: Result<Offer, OutOfMemory>,
    written: u32,
    out: &mut K,
) -> Result<(Option<Packet>, u32), WorkerEnd>
    requires of_lock { IsPassOf post.now.lock.now pass.old }
    requires post { IsAtPost (name_of post.now.lock.now) post.now.plan.now post.now.number from }
    requires offered { Offered (name_of post.now.lock.now) (knowledge pass.old) post.now.number (Some written) offer }
    requires committed { AreCommitted (name_of post.now.lock.now) (knowledge pass.old) written }
    ensures of_lock { IsPassOf post.now.lock.now pass.new }
    ensures written { HasWritten (name_of post.now.lock.now) (knowledge pass.new) post.now.number written (K.written out.old) (K.written out.new) (K.faults out.old) (K.faults out.new) result }
    ensures later { K.faults out.old ≤ K.faults out.new }
{
    match offer {
        Ok(Offer::Lines(lines)) => write_part(post, pass, from, written, &lines, out),
        Ok(Offer::Task(task)) => match carry_out(post, pass, task) {
            Ok(next) => Ok((next, written)),
            Err(ending) => Err(ending),
        },
        Err(refused) => Err(give_up(post, pass, refused)),
    }
}

// Writes the lines of the next tickets.
fn write_part<'l, 'p, R: Wait, G, K: Sink>(
    post: &Post<'l, 'p, R, G>,
    pass: &mut Pass<Board<'p>>,
    from: Ticket,
    written: u32,
    lines: &Seq<Shown>,
    out: &mut K,
) -> Result<(Option<Packet>, u32), WorkerEnd>
    requires of_lock { IsPassOf post.now.lock.now pass.old }
    requires post { IsAtPost (name_of post.now.lock.now) post.now.plan.now post.now.number from }
    requires ready { IsReady (name_of post.now.lock.now) (knowledge pass.old) post.now.number }
    requires next { AreNext (name_of post.now.lock.now) (knowledge pass.old) written lines.now }
    ensures of_lock { IsPassOf post.now.lock.now pass.new }
    ensures written { HasWritten (name_of post.now.lock.now) (knowledge pass.new) post.now.number written (K.written out.old) (K.written out.new) (K.faults out.old) (K.faults out.new) result }
    ensures later { K.faults out.old ≤ K.faults out.new }
{
    parts_make_a_listing();
    let shape = &post.plan.program.program().shape;
    let next = Ticket(from.0 + written);
    match write_lines(post.alloc, out, shape, next, lines) {
        Ok(()) => Ok((None, written + lines.len() as u32)),
        Err(ListError::WriteFault) => {
            halt(post, pass, StopCause::SinkFault);
            Err(WorkerEnd::WriteFault)
        }
        Err(ListError::OutOfMemory(refused)) => Err(give_up(post, pass, refused)),
    }
}
