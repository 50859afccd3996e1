//! Who runs the calls of a script: the evaluator does, and so does code.

ghost use Rattle.std.specs.Prelude.{◌≡◌, List, OnOk, IfOk};
ghost use Rattle.context_tree.specs.Contexts.{tree_of};
ghost use Rattle.wave_base.specs.declared.call.Call.{Call};
ghost use Rattle.wave_base.specs.declared.shape.Shape.{Shape};
ghost use Rattle.wave_base.specs.declared.value.Value.{Value};
ghost use Rattle.wave_base.specs.Tree as tree;
ghost use Rattle.script_fold.specs.Lines.{Meaning};
ghost use Rattle.script_fold.specs.Owed.{Owed};

use context_tree::Tree;
use std::alloc::Global;
use wave_base::{Call, EventResult, OutOfMemory, Path};

/// One who runs calls of events on a tree of contexts.
pub trait Runner {
    /// The shape of its trees and calls.
    ghost shape: { Self → Shape };

    /// What a call does on a tree.
    ghost meaning: { Self → Meaning };

    /// What is known of it where it runs.
    ghost sound: { Self → Type 0 };

    /// The trees that it runs calls on.
    ghost fits_tree: { Self → tree.Tree (List Value) → Type 0 };

    /// The calls that it runs.
    ghost fits_call: { Self → Call → Type 0 };

    /// Runs a call whole. Gives its result, and the paths that it entered, in order.
    fn run(
        &self,
        alloc: Global,
        contexts: &mut Tree,
        call: &Call,
    ) -> Result<(EventResult, Vec<Path>), OutOfMemory>
        requires sound { sound self.now }
        requires tree { fits_tree self.now (tree_of (shape self.now) contexts.old) }
        requires call { fits_call self.now call.now }
        ensures tree { OnOk result (tree_of (shape self.now) contexts.new ≡ (meaning self.now (tree_of (shape self.now) contexts.old) call.now).tree) }
        ensures outcome { IfOk result (λ r. r.0 ≡ (meaning self.now (tree_of (shape self.now) contexts.old) call.now).result) }
        ensures entered { IfOk result (λ r. r.1.items ≡ (meaning self.now (tree_of (shape self.now) contexts.old) call.now).entered) };

    /// What it owes.
    ghost owed: { (s : Self) → sound s → Owed (shape s) (meaning s) (fits_tree s) (fits_call s) };
}
