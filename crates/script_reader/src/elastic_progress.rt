//! How far the reading of a script with policies has come.

ghost use Rattle.std.specs.Prelude.{◌≡◌, ◌+◌, ◌<◌, ◌^◌, [], OnOk, IfOk};
ghost use Rattle.script_reader.specs.inner.ElasticProgressed.{elastic_progress_of, with_told, elastic_with};
ghost use Rattle.script_reader.specs.declared.told.Told.TheVariants.{Plain, Policed};

use crate::earlier::Earlier;
use crate::elastic::{Elastic, Part};
use crate::progress::Progress;
use crate::taken::Taken;
use crate::told::Told;
use std::alloc::Global;
use wave_base::{OutOfMemory, Policy, Seq};

/// How far the reader of a script with policies has come.
#[derive(Debug, Drop)]
pub(crate) struct ElasticProgress {
    /// The parts that a policy has ended.
    pub(crate) parts: Seq<Part>,
    /// The policy of the last part.
    pub(crate) policy: Option<Policy>,
    /// Whether an event line stands behind the last `settle`.
    pub(crate) under_way: bool,
    /// The hosts and the event lines of all parts, and the batches of the last one.
    pub(crate) plain: Progress,
}

impl ElasticProgress {
    /// Before the first line of a text.
    pub(crate) fn new(alloc: Global) -> ElasticProgress
        ensures { result ≡ elastic_progress_of [] }
    {
        let earlier = Earlier {
            hosts: 1,
            begun: false,
            events: 0,
        };
        ElasticProgress {
            parts: Seq::new(alloc),
            policy: None,
            under_way: false,
            plain: Progress::new(alloc, earlier),
        }
    }

    fn take_plain(&mut self, alloc: Global, taken: Taken) -> Result<(), OutOfMemory>
        requires { self.old.plain.events + 1 < 2 ^ 64 }
        ensures { OnOk result (self.new ≡ with_told self.old (Plain taken)) }
    {
        match taken {
            Taken::Event(_) => self.under_way = true,
            Taken::Settle => self.under_way = false,
            Taken::Skipped | Taken::Hosts(_) => {}
        }
        self.plain.take(alloc, taken)
    }

    fn begin_part(&mut self, alloc: Global, policy: Policy) -> Result<(), OutOfMemory>
        requires { self.old.plain.events + 1 < 2 ^ 64 }
        ensures { OnOk result (self.new ≡ with_told self.old (Policed policy)) }
    {
        let next = Progress {
            hosts: self.plain.hosts,
            begun: true,
            events: self.plain.events + 1,
            closed: Seq::new(alloc),
            open_lines: Seq::new(alloc),
        };
        let script = std::mem::replace(&mut self.plain, next).into_script()?;
        let policy = std::mem::replace(&mut self.policy, Some(policy));
        self.under_way = true;
        self.parts.add(Part {
            policy,
            batches: script.batches,
        })
    }

    /// One line more.
    pub(crate) fn take(&mut self, alloc: Global, told: Told) -> Result<(), OutOfMemory>
        requires { self.old.plain.events + 1 < 2 ^ 64 }
        ensures { OnOk result (self.new ≡ with_told self.old told) }
    {
        match told {
            Told::Plain(taken) => self.take_plain(alloc, taken),
            Told::Policed(policy) => self.begin_part(alloc, policy),
        }
    }

    /// The script of all lines.
    pub(crate) fn into_elastic(self) -> Result<Elastic, OutOfMemory>
        ensures { IfOk result (λ e. e ≡ elastic_with self) }
    {
        let ElasticProgress {
            mut parts,
            policy,
            plain,
            ..
        } = self;
        let script = plain.into_script()?;
        parts.add(Part {
            policy,
            batches: script.batches,
        })?;
        Ok(Elastic {
            hosts: script.hosts,
            parts,
        })
    }
}
