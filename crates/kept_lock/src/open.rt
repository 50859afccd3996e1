// The beginning of a lock.
ghost use Rattle.std.specs.Prelude.{◌≡◌, [], IfOk, IfErr};
ghost use Rattle.kept_lock.specs.Knowing.{first};
ghost use Rattle.kept_lock.specs.Locks.{name_of, knowledge, IsPassOf};

use crate::beds::Beds;
use crate::bell::Bell;
use crate::held::Held;
use crate::kept::Kept;
use crate::lock::{KeptLock, Pass};
use atomic_table::Table;
use std::alloc::Global;
use wave_base::OutOfMemory;

impl<V: Kept> KeptLock<V> {
    /// A lock with this value, and its first pass. Where there is no memory the value comes back.
    pub fn new(
        alloc: Global,
        name: V::Name,
        value: V,
    ) -> Result<(KeptLock<V>, Pass<V>), (V, OutOfMemory)>
        requires stands { V.stands value name }
        requires empty { V.history value ≡ [] }
        ensures pass { IfOk result (λ r. IsPassOf r.0 r.1) }
        ensures name { IfOk result (λ r. name_of r.0 ≡ name) }
        ensures first { IfOk result (λ r. knowledge r.1 ≡ first) }
        ensures back { IfErr result (λ r. r.0 ≡ value) }
    {
        let held = match Held::new(alloc, value) {
            Ok(held) => held,
            Err(refused) => return Err(refused),
        };
        let mut slots = match Vec::with_capacity(alloc, 1) {
            Ok(slots) => slots,
            Err(refused) => return Err((held.into_inner(), OutOfMemory::from(refused))),
        };
        slots.push_reserved(Some(held));
        match Table::new(alloc, &[0], slots, &name) {
            Ok((table, seat)) => {
                let lock = KeptLock {
                    table,
                    bell: Bell::new(),
                    beds: Beds::new(),
                };
                let pass = Pass {
                    seat,
                    bed: 0,
                    last: None,
                    out: None,
                };
                Ok((lock, pass))
            }
            Err(refused) => {
                let (mut slots, refused) = OutOfMemory::of_table(refused);
                let held = slots.pop().unwrap().unwrap();
                slots.destroy_empty();
                Err((held.into_inner(), refused))
            }
        }
    }
}
