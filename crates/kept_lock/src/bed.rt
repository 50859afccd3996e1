// A bed: the word that passes sleep by.
use std::sync::Wait;
use std::sync::atomic::{AtomicU64, Ordering};

/// How often those who nap here were called, which wraps, and how many sleep.
/// Whoever leaves the lock raises the count while it is inside, and looks for sleepers once the value is back. Whoever naps is counted first, and
/// sleeps only while the count is the one that it read inside, at its own last leave. So no call is lost: one that comes after that leave has raised
/// the count; and then either the sleeper, once it is counted, sees that and stays awake, or it was counted before the look for sleepers, which wakes it.
#[derive(Drop)]
pub(crate) struct Bed {
    calls: AtomicU64,
    sleepers: AtomicU64,
}

impl Bed {
    /// A bed to which no one was called, and where no one sleeps.
    pub(crate) fn new() -> Bed {
        Bed {
            calls: AtomicU64::new(0),
            sleepers: AtomicU64::new(0),
        }
    }

    /// How often it was called.
    pub(crate) fn calls(&self) -> u64 {
        self.calls.load(Ordering::SeqCst)
    }

    /// Calls those who nap here, who are to be woken later.
    pub(crate) fn call(&self) {
        let _ = self.calls.fetch_add(1, Ordering::SeqCst);
    }

    /// Wakes those who sleep here. Where no one does it costs one load.
    pub(crate) fn wake(&self) {
        if self.sleepers.load(Ordering::SeqCst) > 0 {
            self.calls.wake_all();
        }
    }

    /// Sleeps while the count is this one. It may return at any time.
    /// It goes by the low 32 bits of the count, so whoever is held up for 2^32 calls before it may sleep until one more.
    pub(crate) fn sleep_at<R: Wait>(&self, rt: &R, count: u64) {
        let _ = self.sleepers.fetch_add(1, Ordering::SeqCst);
        self.calls.park(rt, (count % (1 << 32)) as u32);
        let _ = self.sleepers.fetch_sub(1, Ordering::SeqCst);
    }
}
