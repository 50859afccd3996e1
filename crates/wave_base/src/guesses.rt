//! Where paths were found last.

ghost use Rattle.std.specs.Prelude.{◌≡◌, ◌<◌, Some, replicate, slice_get, slice_set};
ghost use Rattle.wave_base.specs.Slots.{slot_of};

use crate::path::Path;

/// For how many slots there is a guess.
const SLOTS: usize = 64;

/// Where a path likely stands in a table of paths: where one of its slot was found last. The slot goes by the last key and the depth. It is
/// a guess: whoever asks looks there first, and searches where another path stands there.
#[derive(Clone, Copy, Debug)]
pub struct Guesses {
    /// The place of each slot.
    pub places: [usize; SLOTS],
}

impl Guesses {
    /// The first place for each slot.
    pub fn new() -> Guesses
        ensures { result.places ≡ replicate 64 0 }
    {
        Guesses { places: [0; SLOTS] }
    }

    /// Where a path likely stands.
    pub fn at(&self, path: &Path) -> usize
        ensures { slice_get self.now.places (slot_of path.now) ≡ Some result }
    {
        self.places[slot(path)]
    }

    /// A path was found there.
    pub fn note(&mut self, path: &Path, place: usize)
        ensures { self.new.places ≡ slice_set self.old.places (slot_of path.now) place }
    {
        self.places[slot(path)] = place;
    }
}

// The slot of a path, by its last key and its depth.
fn slot(path: &Path) -> usize
    ensures slot { result ≡ slot_of path.now }
    ensures within { result < SLOTS }
{
    let depth = path.len();
    match path.step(depth.saturating_sub(1)) {
        Some(step) => (step.key.unsigned_abs() % 32) as usize + 4 * depth,
        None => 0,
    }
}
