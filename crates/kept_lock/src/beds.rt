// Where passes nap.
ghost use Rattle.std.specs.Prelude.{◌<◌};

use crate::bed::Bed;
use crate::wakes::Wakes;
use std::sync::Wait;
use std::sync::atomic::{AtomicU64, Ordering};

// How many beds there are. Of more passes some share one, and are woken together.
const BEDS: usize = 16;

/// The beds of a lock. The pass of a number has the bed of that number, counted round.
#[derive(Drop)]
pub(crate) struct Beds {
    beds: [Bed; BEDS],
    // How many passes were made.
    passes: AtomicU64,
}

fn place_of(number: u32) -> usize
    ensures { result < BEDS }
{
    number as usize % BEDS
}

impl Beds {
    /// Beds for the first pass and for those to come.
    pub(crate) fn new() -> Beds {
        Beds {
            beds: [
                Bed::new(),
                Bed::new(),
                Bed::new(),
                Bed::new(),
                Bed::new(),
                Bed::new(),
                Bed::new(),
                Bed::new(),
                Bed::new(),
                Bed::new(),
                Bed::new(),
                Bed::new(),
                Bed::new(),
                Bed::new(),
                Bed::new(),
                Bed::new(),
            ],
            passes: AtomicU64::new(1),
        }
    }

    /// The number of a pass that is new.
    pub(crate) fn next(&self) -> u32 {
        (self.passes.fetch_add(1, Ordering::SeqCst) % (1 << 32)) as u32
    }

    // The bed of a pass.
    fn bed(&self, number: u32) -> &Bed {
        &self.beds[place_of(number)]
    }

    /// Calls whom a leave wakes, while its pass is inside, and gives how often that pass was called itself.
    pub(crate) fn call(&self, wakes: Wakes, own: u32) -> u64 {
        match wakes {
            Wakes::Nobody => {}
            Wakes::One(number) => self.bed(number).call(),
            Wakes::All => {
                for bed in &self.beds {
                    bed.call();
                }
            }
        }
        self.bed(own).calls()
    }

    /// Wakes whom the leave called, once the value is back in its place.
    pub(crate) fn wake(&self, wakes: Wakes) {
        match wakes {
            Wakes::Nobody => {}
            Wakes::One(number) => self.bed(number).wake(),
            Wakes::All => {
                for bed in &self.beds {
                    bed.wake();
                }
            }
        }
    }

    /// Sleeps while the pass was called so often. It may return at any time.
    pub(crate) fn sleep_at<R: Wait>(&self, rt: &R, own: u32, count: u64) {
        self.bed(own).sleep_at(rt, count);
    }
}
