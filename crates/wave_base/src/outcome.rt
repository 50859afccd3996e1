//! How events end.

ghost use Rattle.std.specs.Prelude.{◌≡◌, IfOk};

use crate::call::{Call, Message};
use crate::copied::Copied;
use crate::memory::OutOfMemory;
use crate::numbers::Host;
use crate::path::Path;
use crate::seq::Seq;
use crate::shot::Shot;
use crate::trap::Trap;
use crate::value::Value;
use std::alloc::Global;

/// How an event ended.
#[derive(PartialEq, Eq, Debug, Drop)]
pub enum Outcome {
    /// An event without a reply came to its end.
    Done,
    /// An event replied.
    Reply(Value),
    /// An event met a trap.
    Trapped(Trap),
    /// A move of a context that is in the tree, and the host that it went to.
    Moved(Path, Host),
    /// A move of a context that is not in the tree.
    Absent(Path),
    /// A snapshot: all contexts in path order.
    Shots(Seq<Shot>),
}

/// What an event leaves behind besides its changes: its outcome, its messages and the calls that it created.
#[derive(PartialEq, Eq, Debug, Drop)]
pub struct EventResult {
    /// How it ended.
    pub outcome: Outcome,
    /// The messages, in the order in which they were sent; none after a trap.
    pub messages: Seq<Message>,
    /// The calls, in the order in which they were created; none after a trap.
    pub created: Seq<Call>,
}

impl Outcome {
    /// An outcome equal to this one.
    pub fn copy(&self, alloc: Global) -> Result<Outcome, OutOfMemory>
        ensures { IfOk result (λ o. o ≡ self.now) }
    {
        match self {
            Outcome::Done => Ok(Outcome::Done),
            Outcome::Reply(v) => Ok(Outcome::Reply(v.copy(alloc)?)),
            Outcome::Trapped(t) => Ok(Outcome::Trapped(*t)),
            Outcome::Moved(path, host) => Ok(Outcome::Moved(*path, *host)),
            Outcome::Absent(path) => Ok(Outcome::Absent(*path)),
            Outcome::Shots(s) => Ok(Outcome::Shots(s.copy(alloc)?)),
        }
    }
}

impl EventResult {
    /// A result equal to this one.
    pub fn copy(&self, alloc: Global) -> Result<EventResult, OutOfMemory>
        ensures { IfOk result (λ r. r ≡ self.now) }
    {
        Ok(EventResult {
            outcome: self.outcome.copy(alloc)?,
            messages: self.messages.copy(alloc)?,
            created: self.created.copy(alloc)?,
        })
    }
}

impl Copied for EventResult {
    fn copied(&self, alloc: Global) -> Result<EventResult, OutOfMemory> {
        self.copy(alloc)
    }
}
