//! How the labels of a log are kept.

ghost use Rattle.std.specs.Prelude.{◌≡◌, ◌<◌, ◌++◌, ◌∷◌, [], length, slice_get, IfOk, IfSome, Some};
ghost use Rattle.label_log.specs.Logs.{path_of};
ghost use Rattle.label_log.specs.inner.Keeping.{HasRoom, IsKept, IsNumber, kept_labels, ready_in};

use crate::entry::Entry;
use crate::numbers::{has_number, path_at, path_number};
use indexmap::IndexSet;
use std::alloc::Global;
use wave_base::{Guesses, OutOfMemory, Path};
use wave_labels::Label;

/// Labels whose paths have numbers, and behind them, once the numbers of 32 bits are given, labels that are kept with their paths.
#[derive(Drop)]
pub(crate) struct Kept {
    /// The paths that have numbers, each once.
    pub paths: IndexSet<Path>,
    /// The labels whose paths have numbers.
    pub entries: Vec<Entry>,
    /// Those that are kept with their paths.
    pub whole: Vec<(Entry, Path)>,
    /// Where a path is put that is kept with its label.
    pub alloc: Global,
    /// The numbers that paths likely have.
    pub near: Guesses,
}

/// What there is room for.
#[derive(Drop)]
pub(crate) enum Room {
    /// Nothing.
    Nothing,
    /// A label whose path has this number.
    Numbered(u32),
    /// A label that is kept with its path, which is this one.
    Whole(Box<Path>),
}

impl Kept {
    /// No labels.
    pub(crate) fn new(alloc: Global) -> Kept
        ensures kept { IsKept result }
        ensures labels { kept_labels result ≡ [] }
    {
        Kept {
            paths: IndexSet::new(alloc),
            entries: Vec::new(alloc),
            whole: Vec::new(alloc),
            alloc,
            near: Guesses::new(),
        }
    }

    /// How many labels there are.
    pub(crate) fn len(&self) -> usize
        ensures { result ≡ length (kept_labels self.now) }
    {
        self.entries.len() + self.whole.len()
    }

    /// The label at place `i`.
    pub(crate) fn label_at(&self, i: usize) -> Label
        requires { i < length (kept_labels self.now) }
        ensures { slice_get (kept_labels self.now) i ≡ Some result }
    {
        if i < self.entries.len() {
            let entry = self.entries[i];
            return entry.label(path_at(&self.paths, entry.path));
        }
        let (entry, path) = self.whole[i - self.entries.len()];
        entry.label(path)
    }

    /// Makes room for a label of this path.
    pub(crate) fn room_for(&mut self, path: &Path) -> Result<Room, OutOfMemory>
        requires { IsKept self.old }
        ensures kept { IsKept self.new }
        ensures labels { kept_labels self.new ≡ kept_labels self.old }
        ensures room { IfOk result (HasRoom self.new) }
        ensures ready { IfOk result (λ room. ready_in self.new room ≡ Some path.now) }
    {
        match self.number_for(path)? {
            Some(number) => {
                self.entries.reserve(1)?;
                Ok(Room::Numbered(number))
            }
            None => {
                self.whole.reserve(1)?;
                Ok(Room::Whole(Box::new(self.alloc, *path)?))
            }
        }
    }

    // The number of a path; none where labels are kept with their paths from now on. The number that it likely has is asked first, and costs no look-up.
    fn number_for(&mut self, path: &Path) -> Result<Option<u32>, OutOfMemory>
        requires { IsKept self.old }
        ensures kept { IsKept self.new }
        ensures labels { kept_labels self.new ≡ kept_labels self.old }
        ensures numbered { IfOk result (λ o. IfSome o (IsNumber self.new path.now)) }
    {
        if !self.whole.is_empty() {
            return Ok(None);
        }
        let near = self.near.at(path);
        if has_number(&self.paths, near, path) {
            return Ok(u32::try_from(near).ok());
        }
        let number = path_number(&mut self.paths, path)?;
        self.near.note(path, number);
        Ok(u32::try_from(number).ok())
    }

    /// Adds a label, for which there is room.
    pub(crate) fn put(&mut self, room: &Room, label: &Label)
        requires kept { IsKept self.old }
        requires room { HasRoom self.old room.now }
        requires ready { ready_in self.old room.now ≡ Some (path_of label.now.act) }
        ensures kept { IsKept self.new }
        ensures labels { kept_labels self.new ≡ kept_labels self.old ++ label.now ∷ [] }
    {
        match room {
            Room::Nothing => {}
            Room::Numbered(number) => self.entries.push_reserved(Entry::of(label, *number)),
            Room::Whole(path) => self.whole.push_reserved((Entry::of(label, 0), **path)),
        }
    }
}
