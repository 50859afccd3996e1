//! A counter under a kept lock, whose type names a lifetime. It shows what a caller of the lock can prove.
#![tactic(auto)]

mod again;
mod counter;
mod four;
mod guarded;
mod many;
mod thread;
mod two;
mod work;

pub use again::{Order, add_again};
pub use counter::{Addition, Counter, Plan};
pub use four::{add_by_four, run_four};
pub use guarded::{Grows, add_one, grow};
pub use many::{Turn, run_all};
pub use thread::{Done, Job, run};
pub use two::{add_by_two, run_two};
pub use work::{add, add_below, add_times, total, wait_for};
