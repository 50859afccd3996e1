//! A gate at which two events meet.

use std::hint::spin_loop;
use std::sync::atomic::{AtomicU64, Ordering};
use wave_base::{Path, Ticket};
use wave_io::Gate;

// How often a gate looks at what it waits for.
const TURNS: u32 = 10_000_000;

/// Holds each of the first two events at a context of its own until the other has reached its own.
#[derive(Drop)]
pub struct Meeting {
    first_at: Path,
    second_at: Path,
    first: AtomicU64,
    second: AtomicU64,
    missed: AtomicU64,
}

impl Meeting {
    /// They meet at these contexts.
    pub fn at(first_at: Path, second_at: Path) -> Meeting {
        Meeting {
            first_at,
            second_at,
            first: AtomicU64::new(0),
            second: AtomicU64::new(0),
            missed: AtomicU64::new(0),
        }
    }

    /// Whether one of them waited in vain.
    pub fn has_missed(&self) -> bool {
        self.missed.load(Ordering::SeqCst) != 0
    }

    fn meet(&self, mine: &AtomicU64, other: &AtomicU64) {
        mine.store(1, Ordering::SeqCst);
        for _ in 0..TURNS {
            if other.load(Ordering::SeqCst) == 1 {
                return;
            }
            spin_loop();
        }
        self.missed.store(1, Ordering::SeqCst);
    }
}

impl Gate for Meeting {
    fn reach(&self, ticket: Ticket, path: &Path) {
        if ticket.0 == 1 && *path == self.first_at {
            self.meet(&self.first, &self.second);
        }
        if ticket.0 == 2 && *path == self.second_at {
            self.meet(&self.second, &self.first);
        }
    }
}
