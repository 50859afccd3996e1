//! Where the contexts are in the end, and what they have.

ghost use Rattle.std.specs.Prelude.{◌≡◌, ◌≤◌, ◌<◌, ℕ, IfOk, OnOk, map, length, Some, slice_get, All, true};
ghost use Rattle.std.specs.BTreeMap.{keys};
ghost use Rattle.std.specs.List.{list_any};
ghost use Rattle.std.specs.List.Sorted.{IsStrictlySortedBy};
ghost use Rattle.host_map.specs.Stores.{Stores, has};
ghost use Rattle.plan_actors.specs.Finishing.{path_of};
ghost use Rattle.wave_base.specs.Paths.{path_cmp, path_eq};
ghost use Rattle.wave_base.specs.declared.path.Path as path;
ghost use Rattle.wave_effects.specs.inner.Endings.{AllThere, AreHome, AreServed, HasEntry, IsLoadOf, IsPlace, IsShotOf, Paired, placed_at};

use crate::begin::served_before;
use context_queue::Entry;
use host_map::HostStore;
use std::alloc::Global;
use std::collections::BTreeMap;
use wave_base::{Host, OutOfMemory, Path, Place, Shot, Ticket};

// The contexts that are there, each with its host, in the order of their paths.
pub(crate) fn places(alloc: Global, stores: &[HostStore]) -> Result<Vec<Place>, OutOfMemory>
    requires { length stores.now ≤ 8 }
    ensures ordered { IfOk result (λ places. IsStrictlySortedBy path_cmp (map path_of places.items)) }
    ensures there { IfOk result (λ places. All (IsPlace stores.now) places.items) }
    ensures all { IfOk result (λ places. (h : ℕ) (x : Stores) (p : path.Path) → slice_get stores.now h ≡ Some x → has p x ≡ true → list_any (path_eq p) (map path_of places.items) ≡ true) }
{
    let hosts = stored_place(alloc, stores)?;
    let places = listed_places(alloc, &hosts)?;
    Ok(places)
}

// The contexts that are there by their paths.
pub(crate) fn stored_place(
    alloc: Global,
    stores: &[HostStore],
) -> Result<BTreeMap<Path, Host>, OutOfMemory>
    requires { length stores.now ≤ 8 }
    ensures there { IfOk result (λ hosts. AllThere stores.now hosts.entries) }
    ensures all { IfOk result (λ hosts. (h : ℕ) (x : Stores) (p : path.Path) → slice_get stores.now h ≡ Some x → has p x ≡ true → list_any (path_eq p) (keys hosts) ≡ true) }
{
    let mut hosts = BTreeMap::new(alloc);
    for host in 0..stores.len() {
        add_all(alloc, &mut hosts, stores, Host(host as u8))?;
    }
    Ok(hosts)
}

// Each context of a store is at its host.
fn add_all(
    alloc: Global,
    hosts: &mut BTreeMap<Path, Host>,
    stores: &[HostStore],
    host: Host,
) -> Result<(), OutOfMemory>
    requires within { host.0 < length stores.now }
    ensures there { OnOk result (AllThere stores.now hosts.old.entries → AllThere stores.now hosts.new.entries) }
    ensures more { OnOk result ((x : Stores) (p : path.Path) → slice_get stores.now host.0 ≡ Some x → has p x ≡ true → list_any (path_eq p) (keys hosts.new) ≡ true) }
    ensures kept { OnOk result ((p : path.Path) → list_any (path_eq p) (keys hosts.old) ≡ true → list_any (path_eq p) (keys hosts.new) ≡ true) }
{
    let paths = stores[host.0 as usize].paths(alloc)?;
    for path in &paths {
        hosts.insert(*path, host)?;
    }
    Ok(())
}

// The places in order.
pub(crate) fn listed_places(
    alloc: Global,
    hosts: &BTreeMap<Path, Host>,
) -> Result<Vec<Place>, OutOfMemory>
    ensures places { IfOk result (λ places. places.items ≡ map placed_at hosts.now.entries) }
    ensures ordered { IsStrictlySortedBy path_cmp (keys hosts.now) }
{
    Ok(
        hosts
            .iter()
            .map(|(path, host)| Place {
                path: *path,
                host: *host,
            })
            .collect(alloc)?,
    )
}

// The entry of a context.
fn entry_at<'a>(stores: &'a [HostStore], place: &Place) -> &'a Entry
    requires { IsPlace stores.now place.now }
    ensures { HasEntry stores.now place.now result.now }
{
    stores[place.host.0 as usize].entry(&place.path).unwrap()
}

// The fields of these contexts, whose records are there.
pub(crate) fn shots(
    alloc: Global,
    stores: &[HostStore],
    places: &[Place],
) -> Result<Vec<Shot>, OutOfMemory>
    requires there { All (IsPlace stores.now) places.now }
    requires home { AreHome stores.now }
    ensures { IfOk result (λ shots. Paired (IsShotOf stores.now) places.now shots.items) }
{
    let mut shots = Vec::new(alloc);
    for place in places {
        let shot = shot_at(alloc, stores, place)?;
        shots.push(shot)?;
    }
    Ok(shots)
}

// The fields of a context.
fn shot_at(alloc: Global, stores: &[HostStore], place: &Place) -> Result<Shot, OutOfMemory>
    requires there { IsPlace stores.now place.now }
    requires home { AreHome stores.now }
    ensures { IfOk result (λ shot. IsShotOf stores.now place.now shot) }
{
    match &entry_at(stores, place).body {
        Some(body) => Ok(Shot {
            path: place.path,
            fields: body.fields.copy(alloc)?,
        }),
        None => unreachable!(),
    }
}

// How many tickets of this run entered each of these contexts, where it began with the ticket `first`.
pub(crate) fn loads(
    alloc: Global,
    stores: &[HostStore],
    places: &[Place],
    first: Ticket,
) -> Result<Vec<u64>, OutOfMemory>
    requires there { All (IsPlace stores.now) places.now }
    requires first { 1 ≤ first.0 }
    requires served { AreServed stores.now first.0 }
    ensures { IfOk result (λ loads. Paired (IsLoadOf stores.now first.0) places.now loads.items) }
{
    let mut loads = Vec::new(alloc);
    for place in places {
        loads.push(load_at(stores, place, first))?;
    }
    Ok(loads)
}

// How many tickets of this run entered a context.
fn load_at(stores: &[HostStore], place: &Place, first: Ticket) -> u64
    requires there { IsPlace stores.now place.now }
    requires first { 1 ≤ first.0 }
    requires served { AreServed stores.now first.0 }
    ensures { IsLoadOf stores.now first.0 place.now result }
{
    entry_at(stores, place).served - served_before(&place.path, first)
}
