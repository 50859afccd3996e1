// The lock and its passes.
ghost use Rattle.std.specs.Prelude.{◌≡◌, None};

use crate::beds::Beds;
use crate::bell::Bell;
use crate::held::Held;
use crate::kept::Kept;
use crate::plays::Keeping;
use crate::view::View;
use atomic_table::{Seat, Table};
use std::alloc::Global;

/// A lock that keeps one value, whose history only grows.
/// Its table has one word, odd exactly while a pass is inside, and one slot, where the value is while none is.
/// Contracts see its name, which is the table's key.
#[derive(Drop)]
pub struct KeptLock<V: Kept> {
    pub(crate) table: Table<Option<Held<V>>, View<V::Name, V::Entry>, V::Name, Keeping<V>, Global>,
    // Rung at each release of the word.
    pub(crate) bell: Bell,
    /// Where passes nap.
    pub(crate) beds: Beds,
    ghost sized: { (table.shared.table_id.words ≡ 1) × (table.shared.table_id.slots ≡ 1) },
}

/// The right to enter one lock. Contracts see what its holder knows: `Known`.
#[derive(Drop)]
pub struct Pass<V: Kept> {
    /// Its seat at the lock's table.
    pub(crate) seat: Seat<Option<Held<V>>, View<V::Name, V::Entry>>,
    /// The number of its bed.
    pub(crate) bed: u32,
    // How often it was called there until its last leave.
    pub(crate) last: Option<u64>,
    // The value, while the pass is inside.
    pub(crate) out: Option<Held<V>>,
}

impl<V: Kept> Pass<V> {
    /// Its seat at the table, its bed, and how often it was called there until its last leave.
    pub(crate) fn into_parts(
        self,
    ) -> (
        Seat<Option<Held<V>>, View<V::Name, V::Entry>>,
        u32,
        Option<u64>,
    )
        requires { self.out ≡ None }
        ensures { (result.0 ≡ self.seat) × (result.1 ≡ self.bed) × (result.2 ≡ self.last) }
    {
        let Pass {
            seat,
            bed,
            last,
            out,
        } = self;
        let None = out else { unreachable!() };
        (seat, bed, last)
    }
}
