//! How far a run has come, and where its contexts are.

ghost use Rattle.std.specs.Prelude.{◌≡◌, ◌≤◌, ℕ, IfOk, OnOk, map, length, Some, slice_get, All, true};
ghost use Rattle.std.specs.BTreeMap.{keys};
ghost use Rattle.std.specs.List.{AllByRecursion, list_any};
ghost use Rattle.std.specs.List.Sorted.{IsStrictlySortedBy};
ghost use Rattle.host_map.specs.Stores.{Stores, has};
ghost use Rattle.plan_actors.specs.Finishing.{path_of};
ghost use Rattle.wave_base.specs.Paths.{path_cmp, path_eq};
ghost use Rattle.wave_base.specs.declared.numbers.Host as host;
ghost use Rattle.wave_base.specs.declared.path.Path as path;
ghost use Rattle.wave_base.specs.declared.start.Start.{Start};
ghost use Rattle.wave_effects.specs.Machines.{Stands, TheState};
ghost use Rattle.wave_effects.specs.inner.Owned.{IsCarried, IsOldOr, IsOwnPlace, IsSent, carried_in, with_place};

use crate::actor::Actor;
use crate::engine::Engine;
use crate::known::heads_are_known;
use crate::laws::states_are_known;
use crate::places::{listed_places, stored_place};
use event_cells::{Cell, Envelope};
use host_map::HostStore;
use migration_core::Letter;
use std::alloc::Global;
use std::collections::BTreeMap;
use wave_base::{Host, OutOfMemory, Path, Place, Seq};

/// How far a run has come, and where its contexts are. A context that is on its way to a host is there already.
#[derive(Debug, Drop)]
pub struct Glance {
    /// How many tickets were admitted, those before this run too.
    pub admitted: u32,
    /// How many of them are committed.
    pub committed: u32,
    /// The contexts that are there, each with its host, in the order of their paths.
    pub owners: Seq<Place>,
}

impl<'p> Engine<'p> {
    ghost use Rattle.wave_effects.specs.Glances.{IsGlance};
    ghost use Rattle.wave_effects.specs.Keeping.{kept_of};

    /// A glance at what is kept.
    pub fn glance(&self, alloc: Global) -> Result<Glance, OutOfMemory>
        requires { (start : Start) × (s : TheState) × Stands (kept_of self.now) start s }
        ensures { IfOk result (λ g. (start : Start) (s : TheState) → Stands (kept_of self.now) start s → IsGlance s g) }
    {
        states_are_known();
        heads_are_known();
        let owners = owners(alloc, &self.stores, &self.cells)?;
        let before = self.first - 1;
        Ok(Glance {
            admitted: before + self.cells.len() as u32,
            committed: before + self.settled.len() as u32,
            owners: Seq::from_vec(owners),
        })
    }
}

// The contexts that stores have or that are on their way to them, each with its host, in the order of their paths.
fn owners(
    alloc: Global,
    stores: &[HostStore],
    cells: &[Cell<Actor>],
) -> Result<Vec<Place>, OutOfMemory>
    requires { length stores.now ≤ 8 }
    ensures ordered { IfOk result (λ owners. IsStrictlySortedBy path_cmp (map path_of owners.items)) }
    ensures owned { IfOk result (λ owners. All (IsOwnPlace stores.now cells.now) owners.items) }
    ensures stored { IfOk result (λ owners. (h : ℕ) (x : Stores) (p : path.Path) → slice_get stores.now h ≡ Some x → has p x ≡ true → list_any (path_eq p) (map path_of owners.items) ≡ true) }
    ensures sent { IfOk result (λ owners. (p : path.Path) (h : host.Host) → IsSent cells.now p h → list_any (path_eq p) (map path_of owners.items) ≡ true) }
{
    let mut hosts = stored_place(alloc, stores)?;
    for cell in cells {
        add_carried(&mut hosts, cell)?;
    }
    let owners = listed_places(alloc, &hosts)?;
    Ok(owners)
}

// Each context that a mail carries is where the mail is on its way to.
fn add_carried(hosts: &mut BTreeMap<Path, Host>, cell: &Cell<Actor>) -> Result<(), OutOfMemory>
    ensures there { OnOk result (AllByRecursion (λ e. IsOldOr hosts.old.entries cell.now.outbox.mails e.0 e.1) hosts.new.entries) }
    ensures more { OnOk result ((p : path.Path) (h : host.Host) → IsCarried cell.now.outbox.mails p h → list_any (path_eq p) (keys hosts.new) ≡ true) }
    ensures kept { OnOk result ((p : path.Path) → list_any (path_eq p) (keys hosts.old) ≡ true → list_any (path_eq p) (keys hosts.new) ≡ true) }
{
    let mails = cell.mails();
    for mail in mails {
        add_one(hosts, &mail.1)?;
    }
    Ok(())
}

// The context that a mail carries, if it does, is where the mail is on its way to.
fn add_one(hosts: &mut BTreeMap<Path, Host>, envelope: &Envelope) -> Result<(), OutOfMemory>
    ensures { OnOk result (hosts.new.entries ≡ with_place hosts.old.entries (carried_in envelope.now)) }
{
    match carried_place(envelope) {
        Some(place) => {
            hosts.insert(place.path, place.host)?;
            Ok(())
        }
        None => Ok(()),
    }
}

// Where a mail brings its context, if it does.
fn carried_place(envelope: &Envelope) -> Option<Place>
    ensures { result ≡ carried_in envelope.now }
{
    match &envelope.letter {
        Letter::Transfer(_) => Some(Place {
            path: envelope.path,
            host: envelope.to,
        }),
        _ => None,
    }
}
