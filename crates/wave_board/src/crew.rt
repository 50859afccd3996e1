//! What the workers of a board leave for each other.

ghost use Rattle.std.specs.Prelude.{◌≡◌, ◌↔◌, ◌≤◌, ◌+◌, ◌-◌, ◌*◌, ◌/◌, ◌%◌, ◌^◌, if◌then◌else◌, IfNone, IfSome, IsTrue, Some, replicate, slice_get, slice_set};
ghost use Rattle.wave_board.specs.declared.seat.Seat.TheVariants.{Away};

use crate::seat::Seat;
use wave_base::Worker;

// As many as a plan has workers at most.
const SEATS: usize = 16;

// A segment is heavy that takes so many ticks.
const HEAVY: u64 = 256;

/// Where each worker is, of how many tickets lines were handed out, and how heavy segments are. It tells workers whom to wake; no contract of a
/// run rests on it.
#[derive(Clone, Copy)]
pub struct Crew {
    seats: [Seat; SEATS],
    told: u32,
    // Eight times the ticks of a segment, on the average, where the last ones count most.
    pace: u64,
    ghost bounded: { pace ≤ 2 ^ 35 },
}

impl Crew {
    ghost use Rattle.wave_board.specs.Crews.{IsAnother, IsHeavy, IsNobody};

    /// Nobody has come yet. Where a segment may take any number of ticks they count as heavy until some twenty light ones were run; else as light
    /// until a heavy one was.
    pub fn nobody(may_be_heavy: bool) -> Crew
        ensures seats { result.seats ≡ replicate SEATS Away }
        ensures told { result.told ≡ 0 }
        ensures pace { result.pace ≡ (if may_be_heavy then 8 * HEAVY * 16 else 0) }
    {
        Crew {
            seats: [Seat::Away; SEATS],
            told: 0,
            pace: if may_be_heavy { 8 * HEAVY * 16 } else { 0 },
        }
    }

    /// Where a worker is.
    pub fn seat(&self, worker: Worker) -> Seat
        ensures { slice_get self.now.seats (worker.0 % SEATS) ≡ Some result }
    {
        self.seats[worker.0 as usize % SEATS]
    }

    /// A worker comes, naps or goes.
    pub fn place(&mut self, worker: Worker, seat: Seat)
        ensures { self.new ≡ record self.old { seats = slice_set self.old.seats (worker.0 % SEATS) seat } }
    {
        self.seats[worker.0 as usize % SEATS] = seat;
    }

    /// Another worker that is there, if one is.
    pub fn other(&self, worker: Worker, seat: Seat) -> Option<Worker>
        ensures some { IfSome result (IsAnother self.now worker seat) }
        ensures none { IfNone result (IsNobody self.now worker seat) }
    {
        for number in 0..SEATS as u8 {
            if number != worker.0 && self.seats[number as usize] == seat {
                return Some(Worker(number));
            }
        }
        None
    }

    /// Of how many tickets lines were handed out.
    pub fn told_count(&self) -> u32
        ensures { result ≡ self.now.told }
    {
        self.told
    }

    /// Lines of so many were handed out.
    pub fn tell(&mut self, told: u32)
        ensures { self.new ≡ record self.old { told = told } }
    {
        self.told = told;
    }

    /// A segment was run, which took so many ticks.
    pub fn note(&mut self, ticks: u32)
        ensures pace { self.new.pace ≡ self.old.pace - self.old.pace / 8 + ticks }
        ensures seats { self.new.seats ≡ self.old.seats }
        ensures told { self.new.told ≡ self.old.told }
    {
        self.pace = self.pace - self.pace / 8 + ticks as u64;
    }

    /// Whether segments are heavy, on the average.
    pub fn is_heavy(&self) -> bool
        ensures { IsTrue result ↔ IsHeavy self.now }
    {
        self.pace >= 8 * HEAVY
    }
}
