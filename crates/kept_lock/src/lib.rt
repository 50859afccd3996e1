//! A lock that keeps one value, whose history only grows. A pass is a token of what its holder has seen of that history, and made in it.
//!
//! `KeptLock::new` gives a lock and its first pass, and `split` makes a pass for each further thread. A thread goes to the value by `enter`, `get_mut` and `leave`,
//! or by `visit`, which is all three in one. Each time it finds a value that stands for the lock's name and whose history goes on from what its pass has seen;
//! it leaves one whose history has grown by entries of its own alone. `nap` waits for another whose leave wakes this pass: a `leave` and a `visit` wake all who nap,
//! a `look` nobody, and an `attempt` whom it says. At the end `join` puts passes together, and `close` gives the value.
#![tactic(auto)]

mod attempt;
mod bed;
mod beds;
mod bell;
mod close;
mod enter;
mod guard;
mod held;
mod kept;
mod law;
mod lends;
mod lock;
mod look;
mod open;
mod parting;
mod passes;
mod plays;
mod view;
mod visit;
mod wait;
mod wakes;

pub use guard::Guard;
pub use kept::Kept;
pub use law::passes_share_one_history;
pub use lock::{KeptLock, Pass};
pub use parting::Parting;
pub use view::{Account, Known};
pub use wakes::Wakes;
