// Whom a worker wakes.
ghost use Rattle.std.specs.Prelude.{◌≡◌, ◌≢◌, ◌↔◌, ℕ, false, IfSome, IsSome, IsTrue};
ghost use Rattle.wave_board.specs.declared.seat.Seat.TheVariants.{Awake, Napping};
ghost use Rattle.wave_board.specs.Boards.{InEachState};
ghost use Rattle.wave_board.specs.Crews.{IsHeavy, IsNobody};
ghost use Rattle.host_workers.specs.inner.Calls.{HasReady, IsOver, Leaves, Naps, is_busy};
ghost use Rattle.host_workers.specs.inner.Visits.{IsNoted};

use crate::offer::Offer;
use crate::task::Task;
use kept_lock::Wakes;
use wave_base::{OutOfMemory, Worker};
use wave_board::{Board, Crew, Seat};

// Of so many tickets lines are due to the worker that writes.
const DUE: usize = 64;

/// Whether a worker leaves what is ready to others: segments are light, and another worker is awake. That one makes another visit, so nothing is
/// left lying.
pub(crate) fn may_rest(board: &Board, crew: &Crew, number: Worker) -> bool
    ensures rests { IsTrue result → Leaves board.now crew.now number }
    ensures may { (IsHeavy crew.now → ⊥) → (IsNobody crew.now number Awake → ⊥) → InEachState board.now (λ s. HasReady board.now s → IsTrue result) }
{
    if crew.is_heavy() {
        return false;
    }
    match crew.other(number, Seat::Awake) {
        Some(_) => board.has_ready(),
        None => false,
    }
}

/// The crew, once a segment was given back that took so many ticks, where one was.
pub(crate) fn with_ticks(mut crew: Crew, ticks: Option<u32>) -> Crew {
    if let Some(ticks) = ticks {
        crew.note(ticks);
    }
    crew
}

/// Whether there is something for another that is worth a call: this worker leaves with something to do, segments are heavy, and something is ready. While
/// they are light one worker has done it before another comes.
pub(crate) fn is_for_another(board: &Board, crew: &Crew, told: &Result<Offer, OutOfMemory>) -> bool
    ensures idle { is_busy told.now ≡ false → result ≡ false }
    ensures light { (IsHeavy crew.now → ⊥) → result ≡ false }
    ensures heavy { IsTrue (is_busy told.now) → IsHeavy crew.now → InEachState board.now (λ s. HasReady board.now s → IsTrue result) }
    ensures ready { IsTrue result → InEachState board.now (HasReady board.now) }
{
    is_worth_a_call(crew, told) && board.has_ready()
}

// Whether a worker that leaves with something to do would call another.
fn is_worth_a_call(crew: &Crew, told: &Result<Offer, OutOfMemory>) -> bool
    ensures idle { is_busy told.now ≡ false → result ≡ false }
    ensures light { (IsHeavy crew.now → ⊥) → result ≡ false }
    ensures heavy { IsTrue (is_busy told.now) → IsHeavy crew.now → IsTrue result }
{
    match told {
        Ok(Offer::Lines(_) | Offer::Task(Task::Segment(_))) => crew.is_heavy(),
        _ => false,
    }
}

/// Notes how a worker leaves, and says whom it wakes: all, where the run has ended; else the worker that writes, where lines are due to it; or another, if
/// there is more than this one will have done at once.
pub(crate) fn leave(
    board: &mut Board,
    number: Worker,
    written: Option<u32>,
    mut crew: Crew,
    told: &Result<Offer, OutOfMemory>,
    more: bool,
) -> Wakes
    ensures noted { IsNoted board.old board.new }
    ensures over { IsOver told.now ↔ (result ≡ Wakes.All) }
    ensures other { (w : ℕ) → result ≡ Wakes.One w → w ≢ number.0 }
    ensures idle { more ≡ false → (w : ℕ) → result ≡ Wakes.One w → w ≡ 0 }
{
    crew.place(number, seat_after(told));
    if let Some(written) = written {
        crew.tell(written.saturating_add(lines_in(told)));
    }
    let wakes = if has_ended(told) {
        Wakes::All
    } else {
        match whom(board, &crew, number, more) {
            Some(other) => {
                crew.place(other, Seat::Awake);
                Wakes::One(other.0 as u32)
            }
            None => Wakes::Nobody,
        }
    };
    board.set_crew(crew);
    wakes
}

// How many lines it leaves with.
fn lines_in(told: &Result<Offer, OutOfMemory>) -> u32 {
    match told {
        Ok(Offer::Lines(lines)) => lines.len().min(DUE) as u32,
        _ => 0,
    }
}

fn has_ended(told: &Result<Offer, OutOfMemory>) -> bool
    ensures { IsTrue result ↔ IsOver told.now }
{
    matches!(told, Ok(Offer::Task(Task::Finished | Task::Stopped(_))))
}

fn seat_after(told: &Result<Offer, OutOfMemory>) -> Seat
    ensures away { result ≡ Seat.Away ↔ IsOver told.now }
    ensures naps { result ≡ Seat.Napping ↔ Naps told.now }
{
    match told {
        Ok(Offer::Task(Task::Rest)) => Seat::Napping,
        Ok(Offer::Task(Task::Finished | Task::Stopped(_))) => Seat::Away,
        _ => Seat::Awake,
    }
}

// The worker that writes, where lines are due to it and it naps; else one that naps, where there is more to do. Nobody calls itself: a worker that writes, and is
// about to nap, naps until another leaves.
fn whom(board: &Board, crew: &Crew, number: Worker, more: bool) -> Option<Worker>
    ensures called { IsTrue more → (IsNobody crew.now number Napping → ⊥) → IsSome result }
    ensures other { IfSome result (λ w. w ≢ number) }
    ensures idle { more ≡ false → IfSome result (λ w. w.0 ≡ 0) }
{
    let due = board
        .committed_count()
        .saturating_sub(crew.told_count() as usize)
        >= DUE;
    if due && number != Worker(0) && crew.seat(Worker(0)) == Seat::Napping {
        return Some(Worker(0));
    }
    if more {
        crew.other(number, Seat::Napping)
    } else {
        None
    }
}
