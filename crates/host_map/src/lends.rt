// `entry_mut` has a file of its own: its clause names the row of `HostStore`, which the file that declares it cannot import.
ghost use Rattle.std.specs.Prelude.{◌≡◌, Some, true};
ghost use Rattle.std.specs.Borrow.{Lends, sem};
ghost use Rattle.std.specs.FinMap as map;
ghost use Rattle.context_queue.specs.contracts.entry.Entry.{the_row as entry_row};
ghost use Rattle.host_map.specs.contracts.store.HostStore.{the_row};
ghost use Rattle.host_map.specs.Stores.{has, with_entry};

use crate::store::{HostStore, place_in};
use context_queue::Entry;
use wave_base::Path;

impl HostStore {
    /// The entry of a context that is here. What is written there is its entry from then on.
    pub fn entry_mut(&mut self, path: &Path) -> &mut Entry
        requires { has path.now self.old ≡ true }
        ensures* writes_back { sem 𝓛 (Lends the_row entry_row self.entry result (with_entry self.old path.now)) }
        ensures value { map.get self.old.store path.now ≡ Some result.now }
    {
        let place = place_in(&self.store, self.near.at(path), path).unwrap();
        self.near.note(path, place);
        &mut self.store[place]
    }
}
