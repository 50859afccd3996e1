// Waiting for another pass to leave.
ghost use Rattle.std.specs.Prelude.{◌≡◌, ◌%◌, IfSome};
ghost use Rattle.kept_lock.specs.Locks.{IsPassOf};

use crate::kept::Kept;
use crate::lock::{KeptLock, Pass};
use std::hint::spin_loop;
use std::sync::Wait;

// How often the word is looked at before its thread sleeps.
const LOOKS: u32 = 100;

impl<V: Kept> KeptLock<V> {
    // Waits until no pass is inside, and gives the word that it found. Another may have entered since.
    pub(crate) fn even_word<R: Wait>(&self, rt: &R) -> u64
        ensures { result % 2 ≡ 0 }
    {
        for _ in rt.forever() {
            if let Some(found) = self.watch() {
                return found;
            }
            let asked = self.bell.listen();
            if self.table.shared.peek(0) % 2 == 1 {
                self.bell.sleep(rt, asked);
                // For those who still sleep: the next leave is to wake one of them.
                let _ = self.bell.listen();
            }
        }
        unreachable!()
    }

    // The word, if it is even at one of some looks.
    fn watch(&self) -> Option<u64>
        ensures { IfSome result (λ found. found % 2 ≡ 0) }
    {
        for _ in 0..LOOKS {
            let found = self.table.shared.peek(0);
            if found % 2 == 0 {
                return Some(found);
            }
            spin_loop();
        }
        None
    }

    /// Waits until a leave of another pass wakes this one, since this one last left. It may return at any time, and does so at once where this one never left.
    pub fn nap<R: Wait>(&self, rt: &R, pass: &mut Pass<V>)
        requires { IsPassOf self.now pass.old }
        ensures { pass.new ≡ pass.old }
    {
        let Some(last) = pass.last else {
            return;
        };
        self.beds.sleep_at(rt, pass.bed, last);
    }
}
