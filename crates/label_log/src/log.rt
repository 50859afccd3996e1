//! Logs of labels.

ghost use Rattle.std.specs.Prelude.{◌≡◌, ◌<◌, ◌++◌, ◌∷◌, ◌↔◌, [], length, slice_get, IsTrue, OnErr, OnOk, Some};
ghost use Rattle.label_log.specs.inner.Keeping.{IsKept, kept_labels};

use crate::kept::Kept;
use crate::paths::path_in;
use std::alloc::Global;
use std::marker::Model;
use wave_base::{OutOfMemory, Path};
use wave_labels::Label;

/// Labels in the order in which they were taken.
#[derive(Drop)]
pub struct LabelLog {
    kept: Kept,
}

impl Model for LabelLog {
    ghost use Rattle.std.specs.Prelude.{List};
    ghost use Rattle.wave_labels.specs.declared.label.Label.{Label};
    ghost use Rattle.label_log.specs.inner.Keeping.{IsKept, kept_labels};

    ghost Value = { List Label };

    ghost view = { λ l. kept_labels l.kept };

    ghost invariant = { λ l. IsKept l.kept };
}

impl LabelLog {
    /// No labels.
    pub fn new(alloc: Global) -> LabelLog
        ensures { result ≡ [] }
    {
        LabelLog::from_kept(Kept::new(alloc))
    }

    pub(crate) fn from_kept(kept: Kept) -> LabelLog
        requires { IsKept kept }
        ensures { result ≡ kept_labels kept }
    {
        LabelLog { kept }
    }

    /// How many labels there are.
    pub fn len(&self) -> usize
        ensures { result ≡ length self.now }
    {
        self.kept.len()
    }

    /// Whether there is none.
    pub fn is_empty(&self) -> bool
        ensures { IsTrue result ↔ (self.now ≡ []) }
    {
        self.len() == 0
    }

    /// The label at place `i`, from 0.
    pub fn label_at(&self, i: usize) -> Label
        requires { i < length self.now }
        ensures { slice_get self.now i ≡ Some result }
    {
        self.kept.label_at(i)
    }

    /// Adds a label. Where there is no memory, the labels are as before.
    pub fn push(&mut self, label: &Label) -> Result<(), OutOfMemory>
        ensures ok { OnOk result (self.new ≡ self.old ++ label.now ∷ []) }
        ensures err { OnErr result (self.new ≡ self.old) }
    {
        let root = Path::root();
        let room = self.kept.room_for(path_in(&label.act, &root))?;
        self.kept.put(&room, label);
        Ok(())
    }
}
