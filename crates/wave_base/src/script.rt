//! Scripts.

ghost use Rattle.std.specs.Prelude.{◌≡◌, IfOk};

use crate::call::Call;
use crate::copied::Copied;
use crate::memory::OutOfMemory;
use crate::numbers::Host;
use crate::path::Path;
use crate::seq::Seq;
use std::alloc::Global;

/// An event line of a script.
#[derive(PartialEq, Eq, Debug, Drop)]
pub enum Line {
    /// An event of the service.
    Request(Call),
    /// A move of the context at the path to the host.
    Move(Path, Host),
    /// A list of all contexts.
    Snapshot,
}

/// What is to be run: the number of hosts, and the event lines in batches.
#[derive(PartialEq, Eq, Debug, Drop)]
pub struct Script {
    /// The number of hosts, 1 to `HOSTS`.
    pub hosts: u8,
    /// The event lines, batch by batch, in order; no batch is empty.
    pub batches: Seq<Seq<Line>>,
}

impl Line {
    /// A line equal to this one.
    pub fn copy(&self, alloc: Global) -> Result<Line, OutOfMemory>
        ensures { IfOk result (λ l. l ≡ self.now) }
    {
        match self {
            Line::Request(call) => Ok(Line::Request(call.copy(alloc)?)),
            Line::Move(path, host) => Ok(Line::Move(*path, *host)),
            Line::Snapshot => Ok(Line::Snapshot),
        }
    }
}

impl Script {
    /// A script equal to this one.
    pub fn copy(&self, alloc: Global) -> Result<Script, OutOfMemory>
        ensures { IfOk result (λ s. s ≡ self.now) }
    {
        Ok(Script {
            hosts: self.hosts,
            batches: self.batches.copy(alloc)?,
        })
    }
}

impl Copied for Line {
    fn copied(&self, alloc: Global) -> Result<Line, OutOfMemory> {
        self.copy(alloc)
    }
}
