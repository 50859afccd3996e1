//! The next job, and the tickets of what it creates.

ghost use Rattle.std.specs.Prelude.{◌≡◌, ◌≤◌, ◌+◌, ◌^◌, ◌∷◌, ◌++◌, [], ℕ, List, length, map, false, None, IsNone, IsTrue, IfSome, IfOk, OnOk};
ghost use Rattle.head_tickets.specs.Heads.{line_of, line_count, requests};
ghost use Rattle.wave_base.specs.declared.script.Line.{Line};
ghost use Rattle.wave_base.specs.Fold as fold;
ghost use Rattle.script_fold.specs.inner.Standing.{IsWaiting, IsReady, IsAdmitted};

use head_tickets::{Head, Job};
use std::alloc::Global;
use wave_base::{Call, OutOfMemory, Seq, Ticket};

// Whether a job is left. Where no known one waits, the next batch begins.
fn is_left(head: &mut Head) -> bool
    requires { (first : ℕ) × (done : List Line) × (w : fold.Head Line) × IsWaiting first done w head.old }
    ensures left { (first : ℕ) (done : List Line) (w : fold.Head Line) → IsWaiting first done w head.old → IsTrue result → IsReady first done w head.new }
    ensures over { (first : ℕ) (done : List Line) (w : fold.Head Line) → IsWaiting first done w head.old → result ≡ false → (w.known ≡ done) × (fold.next_job w ≡ None) }
{
    if head.next().is_some() {
        return true;
    }
    head.batch_done()
}

/// The next job; none where none is left.
pub fn next_job(head: &mut Head) -> Option<Job>
    requires { (first : ℕ) × (done : List Line) × (w : fold.Head Line) × IsWaiting first done w head.old }
    ensures none { IsNone result → (first : ℕ) (done : List Line) (w : fold.Head Line) → IsWaiting first done w head.old → (w.known ≡ done) × (fold.next_job w ≡ None) }
    ensures some { IfSome result (λ job. (first : ℕ) (done : List Line) (w : fold.Head Line) → IsWaiting first done w head.old → IsAdmitted first done (line_of job) w head.new) }
{
    if !is_left(head) {
        return None;
    }
    let (_, job) = head.admit();
    Some(job)
}

/// The job is done, and its calls have tickets.
pub fn give_tickets(
    alloc: Global,
    head: &mut Head,
    created: &Seq<Call>,
) -> Result<Seq<Ticket>, OutOfMemory>
    requires { (first : ℕ) × (done : List Line) × (line : Line) × (w : fold.Head Line) × IsAdmitted first done line w head.old × (first + length w.known + length created.now + line_count w.later ≤ 2 ^ 32) }
    ensures made { IfOk result (λ made. (first : ℕ) (done : List Line) (line : Line) (w : fold.Head Line) → IsAdmitted first done line w head.old → map (λ t. t.0) made ≡ fold.tickets_of first w (requests created.now)) }
    ensures done { OnOk result ((first : ℕ) (done : List Line) (line : Line) (w : fold.Head Line) → IsAdmitted first done line w head.old → IsWaiting first (done ++ line ∷ []) (fold.with_done w (requests created.now)) head.new) }
{
    let calls = created.copy(alloc)?;
    head.reserve(calls.len())?;
    Ok(head.add_created(calls))
}
