//! A worker, from its first visit to its last.

ghost use Rattle.std.specs.Prelude.{◌≡◌, ◌≢◌, Err, IfOk, Ok};
ghost use Rattle.kept_lock.specs.Locks.{name_of, knowledge, IsPassOf};
ghost use Rattle.host_workers.specs.Endings.{Ended};
ghost use Rattle.host_workers.specs.Passes.{GoesOn, IsReady};
ghost use Rattle.host_workers.specs.inner.Rounds.{Asked, Brings, HasLease, HasPaused, IsCalm, Rounded};
ghost use Rattle.wave_base.specs.Memory.{the_refusal};

use crate::ending::WorkerEnd;
use crate::offer::Offer;
use crate::packet::Packet;
use crate::post::Post;
use crate::task::Task;
use crate::visits::{halt, visit};
use kept_lock::{KeptLock, Pass};
use std::alloc::Global;
use std::sync::Wait;
use wave_base::{OutOfMemory, Worker};
use wave_board::{Board, Parcel, StopCause};
use wave_effects::Plan;
use wave_io::Gate;

/// Takes what can be done and runs segments until all is done, or somebody stops the workers. A segment is run outside the lock, and given
/// back at the visit that asks for the next. Where there is nothing to do, or others do it, the worker naps.
pub fn worker<'p, R: Wait, G: Gate>(
    rt: &R,
    alloc: Global,
    lock: &KeptLock<Board<'p>>,
    pass: &mut Pass<Board<'p>>,
    plan: &'p Plan,
    number: Worker,
    gate: &G,
) -> WorkerEnd
    requires of_lock { IsPassOf lock.now pass.old }
    requires plan { (name_of lock.now).plan.now ≡ plan.now }
    requires ready { IsReady (name_of lock.now) (knowledge pass.old) number }
    ensures of_lock { IsPassOf lock.now pass.new }
    ensures number { (knowledge pass.new).number ≡ number.0 }
    ensures ended { Ended (name_of lock.now) (knowledge pass.new) result }
    ensures no_sink { result ≢ WorkerEnd.WriteFault }
{
    let post = Post {
        rt,
        alloc,
        lock,
        plan,
        number,
        gate,
    };
    work_at(&post, pass)
}

/// The same at its post.
pub(crate) fn work_at<'l, 'p, R: Wait, G: Gate>(
    post: &Post<'l, 'p, R, G>,
    pass: &mut Pass<Board<'p>>,
) -> WorkerEnd
    requires of_lock { IsPassOf post.now.lock.now pass.old }
    requires plan { (name_of post.now.lock.now).plan.now ≡ post.now.plan.now }
    requires ready { IsReady (name_of post.now.lock.now) (knowledge pass.old) post.now.number }
    ensures of_lock { IsPassOf post.now.lock.now pass.new }
    ensures number { (knowledge pass.new).number ≡ post.now.number.0 }
    ensures ended { Ended (name_of post.now.lock.now) (knowledge pass.new) result }
    ensures no_sink { result ≢ WorkerEnd.WriteFault }
{
    let mut packet = None;
    for _ in post.rt.forever() {
        match round(post, pass, packet) {
            Ok(next) => packet = next,
            Err(ending) => return ending,
        }
    }
    unreachable!()
}

// One round of a worker: it gives back what it brings, asks for work, and does it.
fn round<'l, 'p, R: Wait, G: Gate>(
    post: &Post<'l, 'p, R, G>,
    pass: &mut Pass<Board<'p>>,
    packet: Option<Packet>,
) -> Result<Option<Packet>, WorkerEnd>
    requires of_lock { IsPassOf post.now.lock.now pass.old }
    requires plan { (name_of post.now.lock.now).plan.now ≡ post.now.plan.now }
    requires brings { Brings (name_of post.now.lock.now) (knowledge pass.old) post.now.number packet }
    ensures of_lock { IsPassOf post.now.lock.now pass.new }
    ensures rounded { Rounded (name_of post.now.lock.now) (knowledge pass.new) post.now.number result }
{
    match visit(post, pass, packet, None).offer {
        Ok(Offer::Task(task)) => carry_out(post, pass, task),
        Ok(Offer::Lines(_)) => unreachable!(),
        Err(refused) => Err(give_up(post, pass, refused)),
    }
}

/// Does what a worker got, and tells what it brings to its next visit.
pub(crate) fn carry_out<'l, 'p, R: Wait, G: Gate>(
    post: &Post<'l, 'p, R, G>,
    pass: &mut Pass<Board<'p>>,
    task: Task,
) -> Result<Option<Packet>, WorkerEnd>
    requires of_lock { IsPassOf post.now.lock.now pass.old }
    requires plan { (name_of post.now.lock.now).plan.now ≡ post.now.plan.now }
    requires asked { Asked (name_of post.now.lock.now) (knowledge pass.old) post.now.number (Ok task) }
    ensures of_lock { IsPassOf post.now.lock.now pass.new }
    ensures on { GoesOn (knowledge pass.old) (knowledge pass.new) }
    ensures rounded { Rounded (name_of post.now.lock.now) (knowledge pass.new) post.now.number result }
    ensures finished { result ≡ Err WorkerEnd.Finished → task ≡ Task.Finished }
{
    match task {
        Task::Again => Ok(None),
        Task::Segment(parcel) => match run_out(post, &*pass, parcel) {
            Ok(packet) => Ok(Some(packet)),
            Err(refused) => Err(give_up(post, pass, refused)),
        },
        Task::Rest => {
            post.lock.nap(post.rt, pass);
            Ok(None)
        }
        Task::Finished => Err(WorkerEnd::Finished),
        Task::Stopped(why) => Err(WorkerEnd::Stopped(why)),
    }
}

// Runs a segment outside the lock, once the gate lets it through.
fn run_out<'l, 'p, R: Wait, G: Gate>(
    post: &Post<'l, 'p, R, G>,
    pass: &Pass<Board<'p>>,
    parcel: Parcel,
) -> Result<Packet, OutOfMemory>
    requires plan { (name_of post.now.lock.now).plan.now ≡ post.now.plan.now }
    requires leased { HasLease (name_of post.now.lock.now) (knowledge pass.now) post.now.number parcel }
    ensures { IfOk result (λ p. HasPaused (name_of post.now.lock.now) (knowledge pass.now) post.now.number p.reply.lease p.reply.pause) }
{
    let lease = parcel.lease();
    post.gate.reach(lease.ticket, &lease.path);
    let before = lease.actor.ticks();
    let reply = parcel.run(post.alloc, &post.plan.program)?;
    let ticks = before.saturating_sub(reply.lease().actor.ticks());
    Ok(Packet { reply, ticks })
}

/// Stops the workers for want of memory.
pub(crate) fn give_up<'l, 'p, R: Wait, G>(
    post: &Post<'l, 'p, R, G>,
    pass: &mut Pass<Board<'p>>,
    refused: OutOfMemory,
) -> WorkerEnd
    requires of_lock { IsPassOf post.now.lock.now pass.old }
    requires calm { IsCalm (name_of post.now.lock.now) (knowledge pass.old) post.now.number }
    ensures of_lock { IsPassOf post.now.lock.now pass.new }
    ensures on { GoesOn (knowledge pass.old) (knowledge pass.new) }
    ensures ended { Ended (name_of post.now.lock.now) (knowledge pass.new) result }
    ensures memory { result ≡ WorkerEnd.OutOfMemory the_refusal }
{
    halt(post, pass, StopCause::Memory(refused));
    WorkerEnd::OutOfMemory(refused)
}
