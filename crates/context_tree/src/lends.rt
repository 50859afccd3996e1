//! The records of contexts, changed where they are.

// `record_mut_near` has a file of its own: its clause names the row of `Tree`, which the file that declares it cannot import.
ghost use Rattle.std.specs.Prelude.{◌≡◌, ◌≤◌, ◌↔◌, List, length, Some, true, false, slice_get, IsTrue, IsNone, IfSome};
ghost use Rattle.std.specs.Borrow.{LendsIf, sem};
ghost use Rattle.context_tree.specs.contracts.tree.Tree.{the_row};
ghost use Rattle.context_tree.specs.Contexts.{tree_of, is_there, with_fields};
ghost use Rattle.wave_base.specs.contracts.record.Record.{the_row as record_row};
ghost use Rattle.wave_base.specs.declared.shape.Shape.{Shape};
ghost use Rattle.wave_base.specs.declared.value.Value.{Value};
ghost use Rattle.wave_base.specs.Tree.{put};

use crate::tree::Tree;
use wave_base::{Path, Record};

impl Tree {
    /// The record of the context at a path, which is looked for in a slot first. It may stand in another one: then it is looked
    /// up. The fields that are written there are the context's from then on.
    pub fn record_mut_near(&mut self, slot: usize, path: &Path) -> Option<&mut Record>
        ensures* writes_back { sem 𝓛 (LendsIf the_row record_row self.entry result (λ r. with_fields self.old path.now r.fields) self.old) }
        ensures none { IsNone result ↔ (is_there self.old path.now ≡ false) }
        ensures some { (shape : Shape) → IfSome result (λ r. r.now.fields ≡ (tree_of shape self.old).fields path.now) }
        ensures put { (shape : Shape) (fields : List Value) → is_there self.old path.now ≡ true → tree_of shape (with_fields self.old path.now fields) ≡ put (tree_of shape self.old) path.now fields }
    {
        let place = self.place_near(slot, path);
        self.contexts.get_index_mut(place)
    }

    // The slot of a context, which is looked for in one first; one past all where it is not there.
    fn place_near(&self, slot: usize, path: &Path) -> usize
        ensures place { is_there self.now path.now ≡ true → slice_get self.now.joined result ≡ Some path.now }
        ensures past { is_there self.now path.now ≡ false → length self.now.joined ≤ result }
    {
        if self.stands_in(slot, path) {
            return slot;
        }
        match self.slot(path) {
            Some(found) => found,
            None => self.contexts.len(),
        }
    }

    // Whether a slot is that of a path.
    fn stands_in(&self, slot: usize, path: &Path) -> bool
        ensures slot { IsTrue result → slice_get self.now.joined slot ≡ Some path.now }
        ensures there { IsTrue result → is_there self.now path.now ≡ true }
    {
        if let Some((found, _)) = self.contexts.get_index(slot) {
            found == path
        } else {
            false
        }
    }
}
