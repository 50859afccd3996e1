//! What a machine begins with.

ghost use Rattle.std.specs.Prelude.{◌≡◌, ◌<◌, ℕ, IfOk, OnOk, map, filter_map, length, Some, None, slice_get, All, true, not, nat_eq, ◌&&◌, ◌-◌, ◌≤◌, if◌then◌else◌};
ghost use Rattle.std.specs.List.Sorted.{IsStrictlySortedBy};
ghost use Rattle.std.specs.declared.cmp.Ordering.TheVariants.{Less};
ghost use Rattle.context_queue.specs.Entries.{StandsFor};
ghost use Rattle.plan_actors.specs.Plans.{Fits, FitsStart, begin_in};
ghost use Rattle.wave_base.specs.Paths.{is_above, path_cmp, path_eq};
ghost use Rattle.wave_base.specs.Tree.{child_step};
ghost use Rattle.wave_base.specs.Starts.{IsStart};
ghost use Rattle.wave_base.specs.declared.path.Path.{Path};
ghost use Rattle.wave_base.specs.declared.finished.Place.{Place};
ghost use Rattle.wave_base.specs.declared.shape.Shape.{Shape};
ghost use Rattle.wave_states.specs.Begins as theory;
ghost use Rattle.wave_states.specs.Begins.{begin_of, is_root, start_state};
ghost use Rattle.wave_states.specs.States as state;
ghost use Rattle.wave_states.specs.States.{set};
ghost use Rattle.code_actor.specs.CodeActors.{Fields};
ghost use Rattle.wave_effects.specs.inner.Beginnings.{AreAt, first_column, kid_of, no_column};
ghost use Rattle.wave_effects.specs.Keeping.{kept_of};
ghost use Rattle.wave_effects.specs.Machines.{Stands};
ghost use Rattle.wave_effects.specs.Plans.{plan_of};

use crate::engine::Engine;
use crate::kept::Out;
use crate::plan::Plan;
use crate::settlements::Settlements;
use commit_order::Commits;
use context_queue::Entry;
use head_tickets::Head;
use host_map::{HostStore, Mark};
use std::alloc::Global;
use wave_base::{Child, Children, OutOfMemory, Path, Place, Record, Start, Step, Ticket};

impl<'p> Engine<'p> {
    /// The state that a run of the plan begins with.
    pub fn new_at(alloc: Global, plan: &'p Plan, start: &Start) -> Result<Engine<'p>, OutOfMemory>
        requires fits { Fits (plan_of plan.now) }
        requires begins { FitsStart (plan_of plan.now) start.now }
        ensures stands { IfOk result (λ m. Stands (kept_of m) start.now (start_state (begin_in (plan_of plan.now) start.now) plan.now.script.batches)) }
        ensures plan { IfOk result (λ m. (kept_of m).plan ≡ plan_of plan.now) }
    {
        let mut stores = empty_stores(alloc, plan.script.hosts)?;
        place_all(alloc, &mut stores, start)?;
        let script = plan.script.copy(alloc)?;
        Ok(Engine {
            plan,
            first: start.next.0,
            head: Head::new_at(alloc, script, start.next),
            commits: Commits::new(alloc, start.next),
            kinds: Vec::new(alloc),
            settled: Settlements::new(alloc),
            cells: Vec::new(alloc),
            stores,
            hands: idle_hands(alloc, plan.workers)?,
        })
    }
}

// A store without contexts for each host.
fn empty_stores(alloc: Global, hosts: u8) -> Result<Vec<HostStore>, OutOfMemory>
    ensures count { IfOk result (λ stores. length stores.items ≡ hosts) }
    ensures empty { IfOk result (λ stores. AreAt stores.items (λ p. no_column)) }
{
    let mut stores = Vec::new(alloc);
    for host in 0..hosts {
        stores.push(HostStore::new(alloc))?;
    }
    Ok(stores)
}

// Nothing is out.
fn idle_hands(alloc: Global, workers: u8) -> Result<Vec<Option<Out>>, OutOfMemory>
    ensures count { IfOk result (λ hands. length hands.items ≡ workers) }
    ensures idle { IfOk result (λ hands. All (λ o. o ≡ None) hands.items) }
{
    let mut hands = Vec::new(alloc);
    for worker in 0..workers {
        hands.push(None)?;
    }
    Ok(hands)
}

// Each context of a Start is where that says.
fn place_all(alloc: Global, stores: &mut Vec<HostStore>, start: &Start) -> Result<(), OutOfMemory>
    requires begins { (shape : Shape) × IsStart shape (length stores.old.items) start.now }
    requires empty { AreAt stores.old.items (λ p. no_column) }
    ensures placed { OnOk result ((shape : Shape) (hosts : ℕ) → IsStart shape hosts start.now → length stores.old.items ≡ hosts → AreAt stores.new.items (theory.column_at_start (begin_of shape start.now))) }
    ensures count { OnOk result (length stores.new.items ≡ length stores.old.items) }
{
    for (i, place) in start.places.as_slice().iter().enumerate() {
        let entry = entry_at_start(alloc, start, i)?;
        place_one(stores, *place, entry)?;
    }
    Ok(())
}

// One context more is where it begins; where that is the root, and not on host 0, it counts as moved there from host 0.
fn place_one(stores: &mut Vec<HostStore>, place: Place, entry: Entry) -> Result<(), OutOfMemory>
    requires host { place.host.0 < length stores.old.items }
    ensures placed { OnOk result ((f : Path → state.Column Fields) (en : state.Entry Fields) → AreAt stores.old.items f → f place.path ≡ no_column → StandsFor entry en → AreAt stores.new.items (set path_eq f place.path (first_column place en))) }
    ensures count { OnOk result (length stores.new.items ≡ length stores.old.items) }
{
    let store = &mut stores[place.host.0 as usize];
    store.reserve()?;
    store.birth(place.path, entry);
    if has_moved(&place) {
        let first = &mut stores[0];
        first.reserve()?;
        first.mark(
            place.path,
            Mark {
                to: place.host,
                number: 1,
            },
        );
    }
    Ok(())
}

// The root counts as moved where it begins elsewhere than on host 0.
fn has_moved(place: &Place) -> bool
    ensures { result ≡ (is_root place.now.path && not (nat_eq place.now.host.0 0)) }
{
    place.path == Path::root() && place.host.0 != 0
}

// The entry of the i-th context of a Start.
fn entry_at_start(alloc: Global, start: &Start, i: usize) -> Result<Entry, OutOfMemory>
    requires begins { (shape : Shape) × (hosts : ℕ) × IsStart shape hosts start.now }
    requires within { i < length start.now.places }
    ensures { IfOk result (λ e. (shape : Shape) (hosts : ℕ) (place : Place) → IsStart shape hosts start.now → slice_get start.now.places i ≡ Some place → StandsFor e (theory.entry_at_start (begin_of shape start.now) place.path)) }
{
    let places = start.places.as_slice();
    let place = places[i];
    let children = children_at_start(alloc, &place.path, &places[i + 1..])?;
    let fields = start.shots.as_slice()[i].fields.copy(alloc)?;
    let mut entry = Entry::new(alloc, Record { fields, children });
    entry.served = served_before(&place.path, start.next);
    entry.moves = u64::from(has_moved(&place));
    Ok(entry)
}

// At the root the tickets before count as served.
pub(crate) fn served_before(path: &Path, next: Ticket) -> u64
    requires { 1 ≤ next.0 }
    ensures { result ≡ (if is_root path.now then next.0 - 1 else 0) }
{
    if *path == Path::root() {
        u64::from(next.0 - 1)
    } else {
        0
    }
}

// The children of a context, of which these and no others come later in the order of the paths. They were born where they are.
fn children_at_start(alloc: Global, path: &Path, later: &[Place]) -> Result<Children, OutOfMemory>
    requires above { All (λ x. path_cmp path.now x.path ≡ Less) later.now }
    requires ordered { IsStrictlySortedBy path_cmp (map (λ x. x.path) later.now) }
    ensures { IfOk result (λ c. c ≡ filter_map (kid_of path.now) later.now) }
{
    let mut children = Children::new(alloc);
    for place in later {
        if !path.is_above(&place.path) {
            return Ok(children);
        }
        if let Some(step) = child_step(path, &place.path) {
            let birth = place.host;
            children.put(step, Child { given: 0, birth })?;
        }
    }
    Ok(children)
}

// The step from a context to one below it, where that is its child.
fn child_step(path: &Path, below: &Path) -> Option<Step>
    requires { is_above path.now below.now ≡ true }
    ensures { result ≡ child_step path.now below.now }
{
    let depth = path.len();
    if below.len() == depth + 1 {
        below.step(depth)
    } else {
        None
    }
}
