//! That a lock may be sent and shared, and a pass sent, wherever its value may be sent, and its name sent and shared.
//! It is shown here once, for every value: a proof of it that is missing would else show only at the first use above.

ghost use Rattle.std.specs.Prelude.{◌≡◌};

use kept_lock::{Kept, KeptLock, Pass};
use std::thread::{Threads, join};

// A pass goes to another thread and comes back.
pub(crate) fn sent_pass<V: Kept + Send + Drop, R: Threads>(rt: &R, pass: Pass<V>) -> Pass<V>
where
    V::Name: Send + Sync,
    ensures { result ≡ pass }
{
    join(
        rt,
        move ||
            ensures { result ≡ pass }
        { pass },
        || (),
    )
    .0
}

// A lock goes to another thread and comes back.
pub(crate) fn sent_lock<V: Kept + Send + Drop, R: Threads>(rt: &R, lock: KeptLock<V>) -> KeptLock<V>
where
    V::Name: Send + Sync,
    ensures { result ≡ lock }
{
    join(
        rt,
        move ||
            ensures { result ≡ lock }
        { lock },
        || (),
    )
    .0
}

// Two threads share a lock.
pub(crate) fn shared_lock<'a, V: Kept + Send, R: Threads>(
    rt: &R,
    lock: &'a KeptLock<V>,
) -> (&'a KeptLock<V>, &'a KeptLock<V>)
where
    V::Name: Send + Sync,
    ensures { (result.0.now ≡ lock.now) × (result.1.now ≡ lock.now) }
{
    join(
        rt,
        move ||
            ensures { result.now ≡ lock.entry.now }
        { lock },
        move ||
            ensures { result.now ≡ lock.entry.now }
        { lock },
    )
}
