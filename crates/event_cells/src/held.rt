//! The contexts that an event holds.

ghost use Rattle.std.specs.Prelude.{◌≡◌, ◌≤◌, ◌+◌, [], OnOk};
ghost use Rattle.std.specs.BTreeMap.{insert_entry};
ghost use Rattle.std.specs.List.{filter};
ghost use Rattle.std.specs.List.Sorted.{IsStrictlySortedBy};
ghost use Rattle.std.specs.Map.{keys_of};
ghost use Rattle.event_cells.specs.Keeps.{hold_in};
ghost use Rattle.event_cells.specs.inner.Places.{IsPlace};
ghost use Rattle.wave_base.specs.Paths.{is_above, path_cmp};
ghost use Rattle.wave_states.specs.Desks.{not_at};

use std::alloc::Global;
use std::cmp::Ordering;
use std::marker::Model;
use wave_base::{Host, OutOfMemory, Path};

/// At which host a context is held, and whether beside others.
#[derive(Clone, Copy, Debug, PartialEq, Eq)]
pub struct Hold {
    /// The host where the context is.
    pub host: Host,
    /// Whether the event only looks, beside others that do.
    pub peek: bool,
}

/// The contexts that an event holds, in the order of their paths. A path that does not belong at the end is searched by halves.
#[derive(Drop)]
pub struct Held {
    holds: Vec<(Path, Hold)>,
}

impl Model for Held {
    ghost use Rattle.std.specs.Prelude.{◌-◌, vec_capacity, length};
    ghost use Rattle.std.specs.List.Sorted.{IsStrictlySortedBy};
    ghost use Rattle.std.specs.Map.{keys_of};
    ghost use Rattle.wave_base.specs.Paths.{path_cmp};
    ghost use Rattle.event_cells.specs.Keeps.{Holding, holding_code};

    ghost Value = { Holding };

    ghost coded = { holding_code };

    ghost view = { λ a. record { holds = a.holds.items; room = vec_capacity a.holds - length a.holds.items } };

    ghost invariant = { λ a. IsStrictlySortedBy path_cmp (keys_of a.holds.items) };
}

impl Held {
    /// Nothing is held.
    pub fn new(alloc: Global) -> Held
        ensures { result.holds ≡ [] }
    {
        Held {
            holds: Vec::new(alloc),
        }
    }

    /// What is held, in the order of the paths.
    pub fn as_slice(&self) -> &[(Path, Hold)]
        ensures holds { result.now ≡ self.now.holds }
        ensures ordered { IsStrictlySortedBy path_cmp (keys_of result.now) }
    {
        self.holds.as_slice()
    }

    // The place of a path, or the place where it belongs.
    fn place(&self, path: &Path) -> Result<usize, usize>
        ensures { IsPlace path_cmp self.now.holds path.now result }
    {
        match self.holds.last() {
            Some(last) => match path.cmp(&last.0) {
                Ordering::Less => self.search(path),
                Ordering::Equal => Ok(self.holds.len() - 1),
                Ordering::Greater => Err(self.holds.len()),
            },
            None => Err(0),
        }
    }

    // The same, searched by halves.
    fn search(&self, path: &Path) -> Result<usize, usize>
        ensures { IsPlace path_cmp self.now.holds path.now result }
    {
        self.as_slice().binary_search_by_key(path, |hold| hold.0)
    }

    /// How a context is held.
    pub fn get(&self, path: &Path) -> Option<Hold>
        ensures { result ≡ hold_in self.now.holds path.now }
    {
        match self.place(path) {
            Ok(i) => Some(self.holds[i].1),
            Err(_) => None,
        }
    }

    /// Makes room for one more.
    pub fn reserve(&mut self) -> Result<(), OutOfMemory>
        ensures ok { OnOk result (1 ≤ self.new.room) }
        ensures room { self.old.room ≤ self.new.room }
        ensures holds { self.new.holds ≡ self.old.holds }
    {
        self.holds.reserve(1)?;
        Ok(())
    }

    /// A context is held from now on.
    pub fn put(&mut self, path: Path, hold: Hold)
        requires { 1 ≤ self.old.room }
        ensures holds { self.new.holds ≡ insert_entry path_cmp self.old.holds path hold }
        ensures room { self.old.room ≤ self.new.room + 1 }
    {
        match self.place(&path) {
            Ok(i) => self.holds[i] = (path, hold),
            Err(i) => {
                let _ = self.holds.insert(i, (path, hold));
            }
        }
    }

    /// Keeps what is held in the subtree of a context.
    pub fn keep_below(&mut self, top: &Path)
        ensures holds { self.new.holds ≡ filter (λ x. is_above top.now x.0) self.old.holds }
        ensures room { self.old.room ≤ self.new.room }
    {
        self.holds.retain(|hold| top.is_above(&hold.0));
    }

    /// A context is no longer held.
    pub fn remove(&mut self, path: &Path)
        ensures holds { self.new.holds ≡ filter (λ x. not_at path.now x.0) self.old.holds }
        ensures room { self.old.room ≤ self.new.room }
    {
        self.holds.retain(|hold| *path != hold.0);
    }

    /// Nothing is held any more, and the room is given back.
    pub fn clear(&mut self)
        ensures holds { self.new.holds ≡ [] }
    {
        self.holds.clear();
        self.holds.shrink_to_fit();
    }
}
