//! A context that leaves a host, and one that arrives.

ghost use Rattle.std.specs.Prelude.{ℕ, suc, ◌≡◌, ◌≢◌, ◌≤◌, ◌<◌, ◌+◌, ◌^◌, List, [], IfSome, true};
ghost use Rattle.std.specs.FinMap as map;
ghost use Rattle.context_queue.specs.Entries.{StandsFor};
ghost use Rattle.host_map.specs.Stores.{IsAt, has};
ghost use Rattle.wave_base.specs.declared.path.Path.{Path};
ghost use Rattle.wave_base.specs.declared.value.Value.{Value};
ghost use Rattle.wave_states.specs.States as theory;
ghost use Rattle.wave_states.specs.Steps.{column_left, column_joined, moved_on, with_holders};

use context_queue::Entry;
use host_map::{HostStore, Mark};
use wave_base::{Host, Path};

/// A context departs from this host for another one: its entry, which has moved once more, leaves the store with its rooms, and a
/// mark stays.
pub fn depart(store: &mut HostStore, path: &Path, to: Host) -> Entry
    requires here { has path.now store.old ≡ true }
    requires counted { IfSome (map.get store.old.store path.now) (λ e. e.moves + 1 < 2 ^ 64) }
    requires room { 1 ≤ store.old.mark_room }
    ensures entry { (en : theory.Entry (List Value)) → IfSome (map.get store.old.store path.now) (λ e. StandsFor e en → StandsFor result (moved_on en)) }
    ensures here { (c : theory.Column (List Value)) (host : ℕ) → IsAt store.old path.now c host → IsAt store.new path.now (column_left c host to.0 result.moves) host }
    ensures store { (q : Path) → q ≢ path.now → map.get store.new.store q ≡ map.get store.old.store q }
    ensures gone { (q : Path) → q ≢ path.now → map.get store.new.gone q ≡ map.get store.old.gone q }
    ensures waiting_room { IfSome (map.get store.old.store path.now) (λ e. e.waiting.room ≤ result.waiting.room) }
    ensures peeks_room { IfSome (map.get store.old.store path.now) (λ e. e.peeks.room ≤ result.peeks.room) }
    ensures path_room { store.old.path_room ≤ store.new.path_room }
    ensures mark_room { store.old.mark_room ≤ store.new.mark_room + 1 }
{
    let mut entry = store.take(path).unwrap();
    entry.moves += 1;
    let number = entry.moves;
    store.mark(*path, Mark { to, number });
    entry
}

/// A context arrives at this host, and nobody holds it. Its entry keeps its rooms. A mark that it left here earlier is cleared.
pub fn land(store: &mut HostStore, path: Path, mut entry: Entry)
    requires { 1 ≤ store.old.path_room }
    ensures here { (c : theory.Column (List Value)) (host : ℕ) (en : theory.Entry (List Value)) → IsAt store.old path c host → StandsFor entry en → IsAt store.new path (column_joined c host (with_holders en [])) host }
    ensures store { (q : Path) → q ≢ path → map.get store.new.store q ≡ map.get store.old.store q }
    ensures gone { (q : Path) → q ≢ path → map.get store.new.gone q ≡ map.get store.old.gone q }
    ensures waiting_room { IfSome (map.get store.new.store path) (λ e. entry.waiting.room ≤ e.waiting.room) }
    ensures peeks_room { IfSome (map.get store.new.store path) (λ e. entry.peeks.room ≤ e.peeks.room) }
    ensures path_room { store.old.path_room ≤ store.new.path_room + 1 }
    ensures mark_room { store.old.mark_room ≤ store.new.mark_room }
{
    entry.free_all();
    store.birth(path, entry);
    store.forget(&path);
}
