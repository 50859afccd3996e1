//! The contexts that an event's own code holds.

ghost use Rattle.std.specs.Prelude.{◌≡◌, [], ◌∷◌, IfOk, OnOk, OnErr};
ghost use Rattle.std.specs.BTreeSet.{insert_key};
ghost use Rattle.std.specs.List.{filter};
ghost use Rattle.wave_base.specs.Paths.{path_cmp, is_above};
ghost use Rattle.service_verify.specs.Steps.{is_held};

use std::alloc::Global;
use std::collections::BTreeSet;
use std::marker::Model;
use wave_base::{OutOfMemory, Path};

/// The contexts that an event holds, in path order.
#[derive(Debug, Drop)]
pub struct Held {
    paths: BTreeSet<Path>,
}

impl Model for Held {
    ghost use Rattle.std.specs.Prelude.{List};
    ghost use Rattle.wave_base.specs.declared.path.Path.{Path};

    ghost Value = { List Path };

    ghost view = { λ h. h.paths.keys };
}

impl Held {
    /// The root alone.
    pub fn root(alloc: Global) -> Result<Held, OutOfMemory>
        ensures { IfOk result (λ h. h ≡ [] ∷ []) }
    {
        let mut paths = BTreeSet::new(alloc);
        paths.insert(Path::root())?;
        Ok(Held { paths })
    }

    /// Whether a context is held.
    pub fn contains(&self, path: &Path) -> bool
        ensures { result ≡ is_held self.now path.now }
    {
        self.paths.contains(path)
    }

    /// Holds a context from now on.
    pub fn insert(&mut self, path: Path) -> Result<(), OutOfMemory>
        ensures { OnOk result (self.new ≡ insert_key path_cmp self.old path) }
    {
        self.paths.insert(path)?;
        Ok(())
    }

    /// Keeps a context and those below it.
    pub fn keep_below(&mut self, path: &Path)
        ensures { self.new ≡ filter (is_above path.now) self.old }
    {
        self.paths.retain(|p| path.is_above(p));
    }
}
