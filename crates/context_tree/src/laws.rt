//! Laws of trees of contexts: each is the contract of a function that does nothing.

ghost use Rattle.std.specs.Prelude.{◌≡◌, ℕ, true, List, Some, position, slice_get};
ghost use Rattle.context_tree.specs.Contexts.{Contexts, tree_of, with_field, joins, IsOrdered};
ghost use Rattle.wave_base.specs.declared.path.Path.{Path};
ghost use Rattle.wave_base.specs.declared.shape.Shape.{Shape};
ghost use Rattle.wave_base.specs.declared.value.Value.{Value};
ghost use Rattle.wave_base.specs.Paths.{path_eq, parent_of};
ghost use Rattle.wave_base.specs.Shapes.{IsShape, is_path, class_of, kinds_of_class};
ghost use Rattle.wave_base.specs.Tree.{Tree, there, enter};
ghost use Rattle.wave_base.specs.Trees.{first_tree, FitsShape};
ghost use Rattle.wave_base.specs.Values.{kind_of};

/// The first tree fits its shape, and a tree that fits a shape still does after a context of the shape joined below
/// one that is there, and after a field was set to a value of its kind.
pub fn trees_that_fit()
    ensures first { (shape : Shape) → IsShape shape → FitsShape shape (first_tree shape) }
    ensures entered { (shape : Shape) (t : Tree (List Value)) (p : Path) → IsShape shape → FitsShape shape t → is_path shape p ≡ true → there t (parent_of p) ≡ true → FitsShape shape (enter t p) }
    ensures set { (shape : Shape) (t : Tree (List Value)) (p : Path) (field : ℕ) (value : Value) → FitsShape shape t → there t p ≡ true → slice_get (kinds_of_class shape (class_of p)) field ≡ Some (kind_of value) → FitsShape shape (with_field t p field value) }
{}

/// What is kept is known by the tree that it stands for and the order in which its contexts joined.
pub fn trees_tell_contexts()
    ensures shots { (shape : Shape) (t u : Contexts) → IsOrdered t.shots → IsOrdered u.shots → tree_of shape t ≡ tree_of shape u → t.shots ≡ u.shots }
    ensures contexts { (shape : Shape) (t u : Contexts) → IsOrdered t.shots → IsOrdered u.shots → tree_of shape t ≡ tree_of shape u → t.joined ≡ u.joined → t ≡ u }
{}

/// Where a path joins, the place of each path that is there stays.
pub fn slots_stay()
    ensures { (joined : List Path) (p q : Path) (slot : ℕ) → position (path_eq q) joined ≡ Some slot → position (path_eq q) (joins joined p) ≡ Some slot }
{}
