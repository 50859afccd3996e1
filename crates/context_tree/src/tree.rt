//! The contexts that there are, with the values of their fields.

ghost use Rattle.std.specs.Prelude.{◌≡◌, ◌<◌, ◌↔◌, ◌∷◌, [], length, map, position, true, false, IsTrue, IsOk, IsNone, IfSome, IfOk, OnOk, OnErr, Some, slice_get};
ghost use Rattle.std.specs.List.{IsDistinct};
ghost use Rattle.context_tree.specs.Contexts.{tree_of, as_pair, paths_of, is_there, with_field, joins, HasField, IsOrdered};
ghost use Rattle.wave_base.specs.declared.path.Path.{Path};
ghost use Rattle.wave_base.specs.declared.shape.Shape.{Shape};
ghost use Rattle.wave_base.specs.Paths.{path_eq, parent_of};
ghost use Rattle.wave_base.specs.Shapes.{is_path, class_of};
ghost use Rattle.wave_base.specs.Tree.{enter, put, shots};
ghost use Rattle.wave_base.specs.Trees.{first_tree};

use indexmap::IndexMap;
use std::alloc::Global;
use std::marker::Model;
use wave_base::{Children, Class, OutOfMemory, Path, Record, Seq, Shape, Shot, Value};

/// The contexts of a service, each at its path, with the values of its fields. Their records keep no children here.
/// Each context has a slot, a number by which it is found without a look-up: as many as joined before it. A slot never
/// changes.
#[derive(Debug, Drop)]
pub struct Tree {
    pub(crate) contexts: IndexMap<Path, Record>,
}

impl Model for Tree {
    ghost use Rattle.context_tree.specs.Contexts.{Contexts, contexts_of};

    ghost Value = { Contexts };

    ghost view = { λ t. contexts_of t.contexts.entries };
}

impl Tree {
    /// The root alone, with its initial values.
    pub fn start(alloc: Global, shape: &Shape) -> Result<Tree, OutOfMemory>
        requires { 0 < length shape.now.classes }
        ensures tree { IfOk result (λ t. tree_of shape.now t ≡ first_tree shape.now) }
        ensures joined { IfOk result (λ t. t.joined ≡ [] ∷ []) }
    {
        let root = Record::initial(alloc, shape, Class(0))?;
        let mut contexts = IndexMap::new(alloc);
        contexts.insert(Path::root(), root)?;
        Ok(Tree { contexts })
    }

    /// The tree of these contexts, each of which stands once, in path order. They join in that order.
    pub fn from_shots(alloc: Global, shots: &[Shot]) -> Result<Tree, OutOfMemory>
        requires { IsOrdered shots.now }
        ensures shots { IfOk result (λ t. t.shots ≡ shots.now) }
        ensures joined { IfOk result (λ t. t.joined ≡ map (λ s. s.path) shots.now) }
    {
        let mut contexts = IndexMap::new(alloc);
        for shot in shots {
            let fields = shot.fields.copy(alloc)?;
            let children = Children::new(alloc);
            contexts.insert(shot.path, Record { fields, children })?;
        }
        Ok(Tree { contexts })
    }

    /// A context joins the tree with the initial values of its class. One that is there stays as it is, and takes no
    /// memory.
    pub fn enter(&mut self, alloc: Global, shape: &Shape, path: &Path) -> Result<(), OutOfMemory>
        requires path { is_path shape.now path.now ≡ true }
        requires parent { is_there self.old (parent_of path.now) ≡ true }
        ensures ok { OnOk result (tree_of shape.now self.new ≡ enter (tree_of shape.now self.old) path.now) }
        ensures joined { OnOk result (self.new.joined ≡ joins self.old.joined path.now) }
        ensures err { OnErr result (self.new ≡ self.old) }
        ensures there { IsTrue (is_there self.old path.now) → IsOk result }
    {
        if self.contexts.contains_key(path) {
            return Ok(());
        }
        let record = Record::initial(alloc, shape, path.class())?;
        self.contexts.insert(*path, record)?;
        Ok(())
    }

    /// The context at a path.
    pub fn get(&self, path: &Path) -> Option<&Record>
        ensures none { IsNone result ↔ (is_there self.now path.now ≡ false) }
        ensures some { (shape : Shape) → IfSome result (λ r. r.now.fields ≡ (tree_of shape self.now).fields path.now) }
    {
        self.contexts.get(path)
    }

    /// The context at a path, which is looked for in a slot first. It may stand in another one: then it is looked up.
    pub fn get_near(&self, slot: usize, path: &Path) -> Option<&Record>
        ensures none { IsNone result ↔ (is_there self.now path.now ≡ false) }
        ensures some { (shape : Shape) → IfSome result (λ r. r.now.fields ≡ (tree_of shape self.now).fields path.now) }
    {
        if let Some((at, record)) = self.contexts.get_index(slot) {
            if at == path {
                return Some(record);
            }
        }
        self.get(path)
    }

    /// The slot of the context at a path.
    pub fn slot(&self, path: &Path) -> Option<usize>
        ensures place { result ≡ position (path_eq path.now) self.now.joined }
        ensures none { IsNone result ↔ (is_there self.now path.now ≡ false) }
        ensures within { IfSome result (λ slot. slot < length self.now.joined) }
        ensures once { IsDistinct path_eq self.now.joined }
    {
        self.contexts.get_index_of(path)
    }

    /// The context in a slot.
    pub fn at(&self, slot: usize) -> &Record
        requires { slot < length self.now.joined }
        ensures { (shape : Shape) (path : Path) → slice_get self.now.joined slot ≡ Some path → result.now.fields ≡ (tree_of shape self.now).fields path }
    {
        match self.contexts.get_index(slot) {
            Some((_, record)) => record,
            None => unreachable!(),
        }
    }

    /// Sets a field.
    pub fn set(&mut self, path: &Path, field: usize, value: Value)
        requires { HasField self.old path.now field }
        ensures tree { (shape : Shape) → tree_of shape self.new ≡ with_field (tree_of shape self.old) path.now field value }
        ensures joined { self.new.joined ≡ self.old.joined }
    {
        let _ = self.replace(path, field, value);
    }

    /// Sets a field, and gives the value that stood there.
    pub fn replace(&mut self, path: &Path, field: usize, value: Value) -> Value
        requires { HasField self.old path.now field }
        ensures set { (shape : Shape) → tree_of shape self.new ≡ with_field (tree_of shape self.old) path.now field value }
        ensures before { (shape : Shape) → slice_get ((tree_of shape self.old).fields path.now) field ≡ Some result }
        ensures joined { self.new.joined ≡ self.old.joined }
    {
        match self.contexts.get_mut(path) {
            Some(record) => record.fields.set(field, value),
            None => unreachable!(),
        }
    }

    /// Puts fields into a context in place of its own, which come out: nothing is copied.
    pub fn exchange(&mut self, path: &Path, fields: Seq<Value>) -> Seq<Value>
        requires { is_there self.old path.now ≡ true }
        ensures put { (shape : Shape) → tree_of shape self.new ≡ put (tree_of shape self.old) path.now fields }
        ensures before { (shape : Shape) → (tree_of shape self.old).fields path.now ≡ result }
        ensures joined { self.new.joined ≡ self.old.joined }
    {
        match self.contexts.get_mut(path) {
            Some(record) => std::mem::replace(&mut record.fields, fields),
            None => unreachable!(),
        }
    }

    /// All contexts with their fields, in path order.
    pub fn shots(&self, alloc: Global) -> Result<Seq<Shot>, OutOfMemory>
        ensures shots { IfOk result (λ found. found ≡ self.now.shots) }
        ensures tree { (shape : Shape) → IfOk result (λ found. map as_pair found ≡ shots (tree_of shape self.now)) }
        ensures ordered { IsOrdered self.now.shots }
    {
        let paths = self.sorted_paths(alloc)?;
        let mut shots = Vec::new(alloc);
        for path in &paths {
            shots.push(self.shot(alloc, path)?)?;
        }
        Ok(Seq::from_vec(shots))
    }

    // The paths of all contexts, in path order.
    fn sorted_paths(&self, alloc: Global) -> Result<Vec<Path>, OutOfMemory>
        ensures paths { IfOk result (λ v. v.items ≡ paths_of self.now) }
        ensures ordered { IsOrdered self.now.shots }
    {
        let mut paths = Vec::new(alloc);
        for path in self.contexts.keys() {
            paths.push(*path)?;
        }
        paths.sort_unstable();
        Ok(paths)
    }

    // A context with its fields.
    fn shot(&self, alloc: Global, path: &Path) -> Result<Shot, OutOfMemory>
        requires { is_there self.now path.now ≡ true }
        ensures path { IfOk result (λ s. s.path ≡ path.now) }
        ensures fields { (shape : Shape) → IfOk result (λ s. s.fields ≡ (tree_of shape self.now).fields path.now) }
    {
        match self.get(path) {
            Some(record) => Ok(Shot {
                path: *path,
                fields: record.fields.copy(alloc)?,
            }),
            None => unreachable!(),
        }
    }
}
