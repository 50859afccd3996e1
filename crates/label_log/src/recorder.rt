//! Whoever writes a log while its labels are taken.

ghost use Rattle.std.specs.Prelude.{◌≡◌, ◌++◌, ◌∷◌, [], length, OnOk, Some};
ghost use Rattle.label_log.specs.Logs.{path_of};

use crate::kept::{Kept, Room};
use crate::log::LabelLog;
use std::alloc::Global;
use std::marker::Model;
use wave_base::{OutOfMemory, Path};
use wave_labels::Label;

/// A log that is being written. Room for a label is made before the label is taken, so that writing it wants no memory.
#[derive(Drop)]
pub struct Recorder {
    kept: Kept,
    room: Room,
}

impl Model for Recorder {
    ghost use Rattle.label_log.specs.Logs.{Recording, recording_code};
    ghost use Rattle.label_log.specs.inner.Recorders.{IsRecorder, recording_of};

    ghost Value = { Recording };

    ghost coded = { recording_code };

    ghost view = { recording_of };

    ghost invariant = { IsRecorder };
}

impl Recorder {
    /// No labels.
    pub fn new(alloc: Global) -> Recorder
        ensures { result.labels ≡ [] }
    {
        Recorder {
            kept: Kept::new(alloc),
            room: Room::Nothing,
        }
    }

    /// How many labels there are.
    pub fn len(&self) -> usize
        ensures { result ≡ length self.now.labels }
    {
        self.kept.len()
    }

    /// Makes room for one more label, whose path is this one.
    pub fn reserve(&mut self, path: &Path) -> Result<(), OutOfMemory>
        ensures ready { OnOk result (self.new.ready ≡ Some path.now) }
        ensures labels { self.new.labels ≡ self.old.labels }
    {
        self.room = Room::Nothing;
        self.room = self.kept.room_for(path)?;
        Ok(())
    }

    /// Adds a label, for which there is room.
    pub fn push_reserved(&mut self, label: &Label)
        requires { self.old.ready ≡ Some (path_of label.now.act) }
        ensures { self.new.labels ≡ self.old.labels ++ label.now ∷ [] }
    {
        self.kept.put(&self.room, label);
        self.room = Room::Nothing;
    }

    /// The log.
    pub fn into_log(self) -> LabelLog
        ensures { result ≡ self.labels }
    {
        LabelLog::from_kept(self.kept)
    }
}
