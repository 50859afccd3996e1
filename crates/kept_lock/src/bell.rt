// A bell, by which a thread that leaves the lock wakes one that waits.
use std::sync::Wait;
use std::sync::atomic::{AtomicU64, Ordering};

/// Whoever waits listens first, then looks whether it still has to wait, and only then sleeps. Whoever changes what is waited for rings afterwards.
/// So either the look sees the change, or the ring comes after the listening, and ends the sleep. Where no one listens a ring costs one load.
///
/// A ring wakes one of those who sleep, since only one gets in, and whoever slept listens again before it looks. So the others are not forgotten: while
/// anyone sleeps, the count is odd, or a ring is about to wake one of them, or one that was woken is about to listen. For nobody falls asleep but at an
/// odd count; the ring that makes it even finds those who sleep asleep already, and wakes one; and this one makes the count odd, if no other has by
/// then, before it goes in. Nor does a count stay odd: whoever made it so looks at the lock afterwards, and then goes in itself, or finds another inside,
/// or another is faster; and whoever is inside rings as it leaves. A sleep that ends for no reason ends like any other, at worst with a ring too many.
#[derive(Drop)]
pub(crate) struct Bell {
    // Twice the number of rings, and one more where someone listens for the next.
    rings: AtomicU64,
}

impl Bell {
    /// A bell that has not rung, and for which no one listens.
    pub(crate) fn new() -> Bell {
        Bell {
            rings: AtomicU64::new(0),
        }
    }

    /// Asks for the next ring, which `sleep` takes.
    pub(crate) fn listen(&self) -> u64 {
        let found = self.rings.load(Ordering::SeqCst);
        if found % 2 == 1 {
            return found;
        }
        // Where another comes between, it asked for the same ring, or this one is over and `sleep` returns at once.
        let _ = self
            .rings
            .compare_exchange(found, found + 1, Ordering::SeqCst, Ordering::SeqCst);
        found + 1
    }

    /// Sleeps until the ring that was asked for. It may return at any time.
    /// It goes by the low 32 bits of the count, so whoever is held up for 2^31 rings before it may sleep until one more.
    pub(crate) fn sleep<R: Wait>(&self, rt: &R, asked: u64) {
        self.rings.park(rt, (asked % (1 << 32)) as u32);
    }

    /// Wakes one of those who sleep, where someone listens.
    pub(crate) fn ring(&self) {
        let found = self.rings.load(Ordering::SeqCst);
        if found % 2 == 1 {
            let next = found.wrapping_add(1);
            let seen = self
                .rings
                .compare_exchange(found, next, Ordering::SeqCst, Ordering::SeqCst);
            if seen.is_ok() {
                self.rings.wake_one();
            }
        }
    }
}
