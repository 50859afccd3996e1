//! The record of a context, moved out of the tree for a segment and back after it.

ghost use Rattle.std.specs.Prelude.{◌≡◌, [], true, OnOk};
ghost use Rattle.context_tree.specs.Contexts.{tree_of, is_there};
ghost use Rattle.wave_base.specs.declared.shape.Shape.{Shape};
ghost use Rattle.wave_base.specs.Paths.{parent_of};
ghost use Rattle.wave_base.specs.Shapes.{is_path};
ghost use Rattle.wave_base.specs.Tree.{enter, put};
ghost use Rattle.wave_base.specs.declared.path.Path.{Path};

use context_tree::Tree;
use std::alloc::Global;
use wave_base::{Children, OutOfMemory, Path, Record, Seq, Shape};

/// Moves the record of a context out of the tree. Until it is put back, the context has no fields.
pub fn take_record(alloc: Global, contexts: &mut Tree, path: &Path) -> Record
    requires { is_there contexts.old path.now ≡ true }
    ensures fields { (shape : Shape) → result.fields ≡ (tree_of shape contexts.old).fields path.now }
    ensures tree { (shape : Shape) → tree_of shape contexts.new ≡ put (tree_of shape contexts.old) path.now [] }
    ensures there { is_there contexts.new path.now ≡ true }
    ensures stays { (p : Path) → is_there contexts.old p ≡ true → is_there contexts.new p ≡ true }
{
    Record {
        fields: contexts.exchange(path, Seq::new(alloc)),
        children: Children::new(alloc),
    }
}

/// Moves a record back to a context.
pub fn put_record(contexts: &mut Tree, path: &Path, body: Record)
    requires { is_there contexts.old path.now ≡ true }
    ensures tree { (shape : Shape) → tree_of shape contexts.new ≡ put (tree_of shape contexts.old) path.now body.fields }
    ensures stays { (p : Path) → is_there contexts.old p ≡ true → is_there contexts.new p ≡ true }
{
    let _ = contexts.exchange(path, body.fields);
}

/// A context joins with the initial values of its class, or stays as it is. Where memory is wanting, all stay as they are.
pub fn join(
    alloc: Global,
    shape: &Shape,
    contexts: &mut Tree,
    path: &Path,
) -> Result<(), OutOfMemory>
    requires path { is_path shape.now path.now ≡ true }
    requires parent { is_there contexts.old (parent_of path.now) ≡ true }
    ensures ok { OnOk result (tree_of shape.now contexts.new ≡ enter (tree_of shape.now contexts.old) path.now) }
    ensures stays { (p : Path) → is_there contexts.old p ≡ true → is_there contexts.new p ≡ true }
{
    contexts.enter(alloc, shape, path)
}
