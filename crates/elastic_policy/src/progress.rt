//! How far a script with policies has come, in the form that the next piece is run on.

ghost use Rattle.std.specs.Prelude.{◌≡◌, map, IfOk, OnOk};
ghost use Rattle.std.specs.List.Sorted.{IsStrictlySortedBy};
ghost use Rattle.wave_base.specs.Paths.{path_cmp};
ghost use Rattle.elastic_policy.specs.Progress.{come_to};
ghost use Rattle.elastic_policy.specs.Stages.{piece_of, stages_left, with_no_loads, IsStaged};

use crate::live::LiveStages;
use crate::stages::Stages;
use std::alloc::Global;
use wave_base::{OutOfMemory, Script};

/// How far a script with policies has come: on a Start of its own, or on one tree of contexts. It is turned into the other only where a piece asks
/// for it, so that a script all of whose pieces ask for the same pays for no other.
#[derive(Drop)]
pub enum Progress {
    /// On a Start, from which a machine is made anew for each piece.
    Kept(Stages),
    /// On a tree that each piece changes in place.
    Live(LiveStages),
}

impl Progress {
    /// The next piece, where one is left.
    pub fn next(&mut self, alloc: Global) -> Result<Option<Script>, OutOfMemory>
        requires { IsStaged (come_to self.old) }
        ensures piece { IfOk result (λ o. o ≡ piece_of (come_to self.old)) }
        ensures left { OnOk result (come_to self.new ≡ stages_left (come_to self.old)) }
        ensures staged { OnOk result (IsStaged (come_to self.new)) }
    {
        match self {
            Progress::Kept(stages) => stages.next(alloc),
            Progress::Live(stages) => stages.next(alloc),
        }
    }

    /// The same on a Start of its own.
    pub fn into_stages(self, alloc: Global) -> Result<Stages, OutOfMemory>
        ensures { IfOk result (λ s. s ≡ come_to self) }
    {
        match self {
            Progress::Kept(stages) => Ok(stages),
            Progress::Live(stages) => stages.keep(alloc),
        }
    }

    /// On a tree, to run what is next: what the piece before loaded is forgotten.
    pub fn live(self, alloc: Global) -> Result<LiveStages, OutOfMemory>
        requires staged { IsStaged (come_to self) }
        requires shots { IsStrictlySortedBy path_cmp (map (λ x. x.path) (come_to self).start.shots) }
        ensures same { IfOk result (λ s. s ≡ with_no_loads (come_to self)) }
        ensures staged { IfOk result IsStaged }
    {
        match self {
            Progress::Kept(stages) => LiveStages::begin(alloc, stages),
            Progress::Live(stages) => Ok(stages.forget_loads()),
        }
    }
}
