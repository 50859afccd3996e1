//! The contexts at a host, and where those went that left it.

ghost use Rattle.std.specs.Prelude.{◌≡◌, ◌≤◌, ◌+◌, OnOk, IfOk, Some, get_or, is_some, option_copied, option_map, position, length, slice_get, true, IfSome, IsTrue, ◌<◌};
ghost use Rattle.std.specs.List.{list_any, IsDistinct};
ghost use Rattle.std.specs.FinMap as map;
ghost use Rattle.host_map.specs.Stores.{find_in, has, is_counted};
ghost use Rattle.indexmap.specs.IndexMap.{get_by, index_map_len, keys, values, IsUnique};
ghost use Rattle.wave_base.specs.declared.path.Path as path;
ghost use Rattle.wave_base.specs.Paths.{path_eq};

use context_queue::Entry;
use indexmap::IndexMap;
use std::alloc::Global;
use std::marker::Model;
use wave_base::{Guesses, Host, OutOfMemory, Path};

/// Where a context went from here, as its how-manieth move.
#[derive(Clone, Copy, Debug, PartialEq, Eq)]
pub struct Mark {
    /// The host that it went to.
    pub to: Host,
    /// Which of the context's moves that was, from 1.
    pub number: u64,
}

/// What a host has of a context.
#[derive(Clone, Copy, Debug, PartialEq, Eq)]
pub enum Found {
    /// Its entry is here.
    Here,
    /// It went from here.
    Gone(Mark),
    /// Neither.
    Unknown,
}

/// The entries of a host, and its departure marks.
#[derive(Drop)]
pub struct HostStore {
    /// The entries that are here, by their paths.
    pub(crate) store: IndexMap<Path, Entry>,
    gone: IndexMap<Path, Mark>,
    /// Where entries stood that were lent or born last. They are looked for there first, since most look-ups are of a few contexts.
    pub(crate) near: Guesses,
}

impl Model for HostStore {
    ghost use Rattle.std.specs.FinMap as map;
    ghost use Rattle.std.specs.HashMap.{spare};
    ghost use Rattle.host_map.specs.Stores.{Stores, stores_code};

    ghost Value = { Stores };

    ghost coded = { stores_code };

    ghost view = { λ a. record { store = map.from_entries a.store.entries; gone = map.from_entries a.gone.entries; path_room = spare a.store; mark_room = spare a.gone } };
}

impl HostStore {
    /// No entries and no marks.
    pub fn new(alloc: Global) -> HostStore
        ensures store { result.store ≡ map.empty }
        ensures gone { result.gone ≡ map.empty }
    {
        HostStore {
            store: IndexMap::new(alloc),
            gone: IndexMap::new(alloc),
            near: Guesses::new(),
        }
    }

    /// What is here of a context.
    pub fn find(&self, path: &Path) -> Found
        ensures { result ≡ find_in self.now path.now }
    {
        if self.has(path) {
            return Found::Here;
        }
        match self.departure(path) {
            Some(mark) => Found::Gone(mark),
            None => Found::Unknown,
        }
    }

    /// The mark that a context left here when it went to another host.
    pub fn departure(&self, path: &Path) -> Option<Mark>
        ensures { result ≡ map.get self.now.gone path.now }
    {
        match self.gone.get(path) {
            Some(mark) => Some(*mark),
            None => None,
        }
    }

    /// Whether the entry of a context is here.
    pub fn has(&self, path: &Path) -> bool
        ensures { result ≡ has path.now self.now }
    {
        stands_at(&self.store, self.near.at(path), path) || search(&self.store, path).is_some()
    }

    /// The entry of a context.
    pub fn entry(&self, path: &Path) -> Option<&Entry>
        ensures { option_copied result ≡ map.get self.now.store path.now }
    {
        match place_in(&self.store, self.near.at(path), path) {
            Some(place) => Some(&self.store[place]),
            None => None,
        }
    }

    /// The paths of the contexts that are here, each once, in any order.
    pub fn paths(&self, alloc: Global) -> Result<Vec<Path>, OutOfMemory>
        ensures here { IfOk result (λ paths. (p : path.Path) → list_any (path_eq p) paths.items ≡ has p self.now) }
        ensures once { IfOk result (λ paths. IsDistinct path_eq paths.items) }
    {
        let paths = keys_in(alloc, &self.store)?;
        Ok(paths)
    }

    /// The paths of the contexts here that a ticket was let in to, or that moved, in any order.
    pub fn counted_paths(&self, alloc: Global) -> Result<Vec<Path>, OutOfMemory>
        ensures { IfOk result (λ touched. (p : path.Path) → list_any (path_eq p) touched.items ≡ is_counted (map.get self.now.store p)) }
    {
        let mut touched = Vec::new(alloc);
        for (path, entry) in self.store.iter() {
            if counts(entry) {
                touched.push(*path)?;
            }
        }
        Ok(touched)
    }

    /// Makes room for one more entry and for one more mark.
    pub fn reserve(&mut self) -> Result<(), OutOfMemory>
        ensures path { OnOk result (1 ≤ self.new.path_room) }
        ensures mark { OnOk result (1 ≤ self.new.mark_room) }
        ensures path_room { self.old.path_room ≤ self.new.path_room }
        ensures mark_room { self.old.mark_room ≤ self.new.mark_room }
        ensures store { self.new.store ≡ self.old.store }
        ensures gone { self.new.gone ≡ self.old.gone }
    {
        self.store.reserve(1)?;
        self.gone.reserve(1)?;
        Ok(())
    }

    /// A context is here from now on.
    pub fn birth(&mut self, path: Path, entry: Entry)
        requires { 1 ≤ self.old.path_room }
        ensures store { self.new.store ≡ map.insert self.old.store path entry }
        ensures gone { self.new.gone ≡ self.old.gone }
        ensures path_room { self.old.path_room ≤ self.new.path_room + 1 }
        ensures mark_room { self.new.mark_room ≡ self.old.mark_room }
    {
        self.near.note(&path, self.store.len());
        let _ = self.store.insert(path, entry);
    }

    /// Takes the entry of a context out.
    pub fn take(&mut self, path: &Path) -> Option<Entry>
        ensures entry { result ≡ map.get self.old.store path.now }
        ensures store { self.new.store ≡ map.remove self.old.store path.now }
        ensures gone { self.new.gone ≡ self.old.gone }
        ensures path_room { self.old.path_room ≤ self.new.path_room }
        ensures mark_room { self.new.mark_room ≡ self.old.mark_room }
    {
        self.store.swap_remove(path)
    }

    /// Leaves a mark for a context, in place of one that is here.
    pub fn mark(&mut self, path: Path, mark: Mark)
        requires { 1 ≤ self.old.mark_room }
        ensures gone { self.new.gone ≡ map.insert self.old.gone path mark }
        ensures store { self.new.store ≡ self.old.store }
        ensures path_room { self.new.path_room ≡ self.old.path_room }
        ensures mark_room { self.old.mark_room ≤ self.new.mark_room + 1 }
    {
        let _ = self.gone.insert(path, mark);
    }

    /// Clears a mark.
    pub fn forget(&mut self, path: &Path)
        ensures gone { self.new.gone ≡ map.remove self.old.gone path.now }
        ensures store { self.new.store ≡ self.old.store }
        ensures path_room { self.new.path_room ≡ self.old.path_room }
        ensures mark_room { self.old.mark_room ≤ self.new.mark_room }
    {
        let _ = self.gone.swap_remove(path);
    }

    /// Clears all marks. There is room then for as many as there were.
    pub fn forget_marks(&mut self)
        ensures gone { self.new.gone ≡ map.empty }
        ensures store { self.new.store ≡ self.old.store }
        ensures path_room { self.new.path_room ≡ self.old.path_room }
        ensures mark_room { map.len self.old.gone + self.old.mark_room ≤ self.new.mark_room }
    {
        // a number, which counts each mark once
        let _ = self.gone.len();
        self.gone.clear();
    }
}

// The place of a path in a table: where one says that it may stand, if it does, and else it is searched for.
pub(crate) fn place_in(table: &IndexMap<Path, Entry>, last: usize, path: &Path) -> Option<usize>
    ensures key { IfSome result (λ i. get_or (keys table.now) i path.now ≡ path.now) }
    ensures found { is_some result ≡ is_some (get_by (path_eq path.now) table.now) }
    ensures within { IfSome result (λ i. i < index_map_len table.now) }
    ensures value { IfSome result (λ i. slice_get (values table.now) i ≡ get_by (path_eq path.now) table.now) }
    ensures unique { IsUnique path_eq table.now }
{
    // a number, which counts each path once
    let _ = table.len();
    if stands_at(table, last, path) {
        Some(last)
    } else {
        search(table, path)
    }
}

// Whether a path stands there.
fn stands_at(table: &IndexMap<Path, Entry>, place: usize, path: &Path) -> bool
    ensures key { IsTrue result → get_or (keys table.now) place path.now ≡ path.now }
    ensures found { IsTrue result → is_some (get_by (path_eq path.now) table.now) ≡ true }
    ensures within { IsTrue result → place < index_map_len table.now }
    ensures value { IsTrue result → slice_get (values table.now) place ≡ get_by (path_eq path.now) table.now }
{
    match table.get_index(place) {
        Some((found, _)) => *found == *path,
        None => false,
    }
}

// The place of a path, searched for by its hash.
fn search(table: &IndexMap<Path, Entry>, path: &Path) -> Option<usize>
    ensures key { IfSome result (λ i. get_or (keys table.now) i path.now ≡ path.now) }
    ensures found { is_some result ≡ is_some (get_by (path_eq path.now) table.now) }
    ensures within { IfSome result (λ i. i < index_map_len table.now) }
    ensures value { IfSome result (λ i. slice_get (values table.now) i ≡ get_by (path_eq path.now) table.now) }
{
    table.get_index_of(path)
}

// Whether an entry says that a ticket was let in, or that its context moved.
fn counts(entry: &Entry) -> bool
    ensures { result ≡ is_counted (Some entry.now) }
{
    entry.served != 0 || entry.moves != 0
}

// The keys of a table, in its order.
fn keys_in(alloc: Global, table: &IndexMap<Path, Entry>) -> Result<Vec<Path>, OutOfMemory>
    ensures keys { IfOk result (λ paths. paths.items ≡ keys table.now) }
    ensures once { IfOk result (λ paths. IsDistinct path_eq paths.items) }
{
    Ok(table.keys().copied().collect(alloc)?)
}

/// The first host whose store has the entry of a context.
pub fn place_of(hosts: &[HostStore], path: &Path) -> Option<Host>
    requires { length hosts.now ≤ 8 }
    ensures { option_map (λ h. h.0) result ≡ position (has path.now) hosts.now }
{
    match first_with(hosts, path) {
        Some(i) => Some(Host(i as u8)),
        None => None,
    }
}

fn first_with(hosts: &[HostStore], path: &Path) -> Option<usize>
    ensures place { result ≡ position (has path.now) hosts.now }
    ensures within { IfSome result (λ i. i < length hosts.now) }
{
    hosts.iter().position(|host| host.has(path))
}
