// The workers of a plan, each in a thread of its own where one can be made.
ghost use Rattle.std.specs.Prelude.{◌≡◌, ◌≢◌, ℕ, IfSome, IsSome, List, Option};
ghost use Rattle.std.specs.Thread.{IsSync};
ghost use Rattle.kept_lock.specs.Locks.{name_of, knowledge, IsPassOf};
ghost use Rattle.host_workers.specs.Passes.{IsReady};
ghost use Rattle.host_workers.specs.inner.Teams.{HasEnded, IsAtPost, IsSeated};
ghost use Rattle.host_workers.specs.inner.Writing.{AreWritten, Stands};

use crate::begun::Begun;
use crate::ending::WorkerEnd;
use crate::post::Post;
use crate::working::work_at;
use crate::writer::{write_alone, write_at, write_on};
use kept_lock::Pass;
use std::sync::Wait;
use std::thread::{Threads, join_mut, map_vec};
use wave_base::{OutOfMemory, Ticket, Worker};
use wave_board::Board;
use wave_io::{Gate, Sink};

/// A worker that has a pass of its own.
#[derive(Drop)]
pub(crate) struct Helper<'l, 'p, R, G> {
    post: Post<'l, 'p, R, G>,
    pass: Pass<Board<'p>>,
    ghost seated: { IsSeated post.lock.now pass post.plan.now post.number },
}

/// All workers of the plan but the first, each with a new pass.
pub(crate) fn helpers_of<'l, 'p, R, G>(
    post: &Post<'l, 'p, R, G>,
    first: &mut Pass<Board<'p>>,
) -> Result<Vec<Helper<'l, 'p, R, G>>, OutOfMemory>
    requires of_lock { IsPassOf post.now.lock.now first.old }
    requires plan { (name_of post.now.lock.now).plan.now ≡ post.now.plan.now }
    requires ready { IsReady (name_of post.now.lock.now) (knowledge first.old) (record { 0 = 0 }) }
    requires one { (knowledge first.old).passes ≡ 1 }
    ensures of_lock { IsPassOf post.now.lock.now first.new }
    ensures ready { IsReady (name_of post.now.lock.now) (knowledge first.new) (record { 0 = 0 }) }
{
    let mut helpers = Vec::new(post.alloc);
    for number in 1..post.plan.workers {
        let pass = post.lock.split(first);
        helpers.push(helper_of(post, pass, Worker(number)))?;
    }
    Ok(helpers)
}

fn helper_of<'l, 'p, R, G>(
    post: &Post<'l, 'p, R, G>,
    pass: Pass<Board<'p>>,
    number: Worker,
) -> Helper<'l, 'p, R, G>
    requires { IsSeated post.now.lock.now pass post.now.plan.now number }
{
    let post = Post { number, ..*post };
    Helper { post, pass }
}

/// Runs worker 0, which writes. The others begin once there is more than it will have done at once; where there are none, or no thread can be made, it does all.
pub(crate) fn run_team<'l, 'p, R: Threads + Wait + Sync, G: Gate + Sync, K: Sink + Send>(
    post: &Post<'l, 'p, R, G>,
    first: &mut Pass<Board<'p>>,
    helpers: Vec<Helper<'l, 'p, R, G>>,
    from: Ticket,
    out: &mut K,
) -> WorkerEnd
    requires of_lock { IsPassOf post.now.lock.now first.old }
    requires post { IsAtPost (name_of post.now.lock.now) post.now.plan.now post.now.number from }
    requires ready { IsReady (name_of post.now.lock.now) (knowledge first.old) post.now.number }
    ensures of_lock { IsPassOf post.now.lock.now first.new }
    ensures ended { HasEnded (name_of post.now.lock.now) post.now.plan.now (knowledge first.new) (K.written out.old) (K.written out.new) (K.faults out.old) (K.faults out.new) result }
{
    if helpers.is_empty() {
        return write_at(post, first, from, out);
    }
    match write_alone(post, first, from, out) {
        Ok(begun) => write_beside(post, first, helpers, from, begun, out),
        Err(ending) => ending,
    }
}

// Worker 0 goes on, and the others begin, each in a thread of its own where one can be made.
fn write_beside<'l, 'p, R: Threads + Wait + Sync, G: Gate + Sync, K: Sink + Send>(
    post: &Post<'l, 'p, R, G>,
    first: &mut Pass<Board<'p>>,
    helpers: Vec<Helper<'l, 'p, R, G>>,
    from: Ticket,
    begun: Begun,
    out: &mut K,
) -> WorkerEnd
    requires of_lock { IsPassOf post.now.lock.now first.old }
    requires post { IsAtPost (name_of post.now.lock.now) post.now.plan.now post.now.number from }
    requires stands { Stands (name_of post.now.lock.now) (knowledge first.old) post.now.number begun }
    ensures of_lock { IsPassOf post.now.lock.now first.new }
    ensures ended { (before : Option (List ℕ)) → AreWritten (name_of post.now.lock.now) begun.written before (K.written out.old)
        → HasEnded (name_of post.now.lock.now) post.now.plan.now (knowledge first.new) before (K.written out.new) (K.faults out.old) (K.faults out.new) result }
{
    let mut helpers = Some(helpers);
    let mut begun = Some(begun);
    let ((), ending) = join_mut(
        post.rt,
        &mut ||
            requires { IsSync R.row × IsSync G.row }
        { help(post.rt, helpers.take()) },
        &mut || write_begun(post, first, from, &mut begun, out),
    );
    ending
}

// Worker 0 goes on from where it stands.
fn write_begun<'l, 'p, R: Wait, G: Gate, K: Sink>(
    post: &Post<'l, 'p, R, G>,
    first: &mut Pass<Board<'p>>,
    from: Ticket,
    begun: &mut Option<Begun>,
    out: &mut K,
) -> WorkerEnd
    requires of_lock { IsPassOf post.now.lock.now first.old }
    requires post { IsAtPost (name_of post.now.lock.now) post.now.plan.now post.now.number from }
    requires some { IsSome begun.old }
    requires stands { IfSome begun.old (Stands (name_of post.now.lock.now) (knowledge first.old) post.now.number) }
    ensures of_lock { IsPassOf post.now.lock.now first.new }
    ensures ended { IfSome begun.old (λ b. (before : Option (List ℕ)) → AreWritten (name_of post.now.lock.now) b.written before (K.written out.old)
        → HasEnded (name_of post.now.lock.now) post.now.plan.now (knowledge first.new) before (K.written out.new) (K.faults out.old) (K.faults out.new) result) }
{
    let Some(begun) = begun.take() else {
        unreachable!()
    };
    write_on(post, first, from, begun, out)
}

// Runs these workers. Where there is no memory for them the first does all.
fn help<'l, 'p, R: Threads + Wait + Sync, G: Gate + Sync>(
    rt: &R,
    helpers: Option<Vec<Helper<'l, 'p, R, G>>>,
) {
    if let Some(helpers) = helpers {
        let _ = map_vec(
            rt,
            helpers,
            &|helper: Helper<R, G>| -> WorkerEnd
                ensures { result ≢ WorkerEnd.WriteFault }
            { run(helper) },
        );
    }
}

// One of them, which writes nothing.
fn run<'l, 'p, R: Wait, G: Gate>(helper: Helper<'l, 'p, R, G>) -> WorkerEnd
    ensures { result ≢ WorkerEnd.WriteFault }
{
    let Helper { post, mut pass } = helper;
    work_at(&post, &mut pass)
}
