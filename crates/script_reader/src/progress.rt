//! How far the reading of a script has come.

ghost use Rattle.std.specs.Prelude.{◌≡◌, ◌+◌, ◌<◌, ◌^◌, [], OnOk, IfOk};
ghost use Rattle.script_reader.specs.inner.Progressed.{progress_of, with_taken};
ghost use Rattle.script_reader.specs.Scripts.{with_batch, script_with};
ghost use Rattle.script_reader.specs.declared.taken.Taken.TheVariants.{Event, Settle};

use crate::earlier::Earlier;
use crate::taken::Taken;
use std::alloc::Global;
use wave_base::{Line, OutOfMemory, Script, Seq};

/// How far the reader of a script has come.
#[derive(Debug, Drop)]
pub(crate) struct Progress {
    /// The number of hosts so far.
    pub(crate) hosts: u8,
    /// Whether a line stood there that says something.
    pub(crate) begun: bool,
    /// The number of event lines.
    pub(crate) events: usize,
    /// The batches that a `settle` has ended.
    pub(crate) closed: Seq<Seq<Line>>,
    /// The event lines since the last `settle`.
    pub(crate) open_lines: Seq<Line>,
}

// Adds a batch, where it is not empty.
fn close(batches: &mut Seq<Seq<Line>>, batch: Seq<Line>) -> Result<(), OutOfMemory>
    ensures { OnOk result (batches.new ≡ with_batch batches.old batch) }
{
    if batch.is_empty() {
        return Ok(());
    }
    batches.add(batch)
}

impl Progress {
    /// Before the first line of a text.
    pub(crate) fn new(alloc: Global, earlier: Earlier) -> Progress
        ensures { result ≡ progress_of earlier [] }
    {
        Progress {
            hosts: earlier.hosts,
            begun: earlier.begun,
            events: earlier.events,
            closed: Seq::new(alloc),
            open_lines: Seq::new(alloc),
        }
    }

    fn add_event(&mut self, line: Line) -> Result<(), OutOfMemory>
        requires { self.old.events + 1 < 2 ^ 64 }
        ensures { OnOk result (self.new ≡ with_taken self.old (Event line)) }
    {
        self.begun = true;
        self.events += 1;
        self.open_lines.add(line)
    }

    fn settle(&mut self, alloc: Global) -> Result<(), OutOfMemory>
        ensures { OnOk result (self.new ≡ with_taken self.old Settle) }
    {
        self.begun = true;
        let batch = std::mem::replace(&mut self.open_lines, Seq::new(alloc));
        close(&mut self.closed, batch)
    }

    /// One line more.
    pub(crate) fn take(&mut self, alloc: Global, taken: Taken) -> Result<(), OutOfMemory>
        requires { self.old.events + 1 < 2 ^ 64 }
        ensures { OnOk result (self.new ≡ with_taken self.old taken) }
    {
        match taken {
            Taken::Skipped => Ok(()),
            Taken::Hosts(hosts) => {
                self.hosts = hosts;
                self.begun = true;
                Ok(())
            }
            Taken::Event(line) => self.add_event(line),
            Taken::Settle => self.settle(alloc),
        }
    }

    /// The script of all lines.
    pub(crate) fn into_script(self) -> Result<Script, OutOfMemory>
        ensures { IfOk result (λ s. s ≡ script_with self.hosts self.closed self.open_lines) }
    {
        let Progress {
            hosts,
            mut closed,
            open_lines,
            ..
        } = self;
        close(&mut closed, open_lines)?;
        Ok(Script {
            hosts,
            batches: closed,
        })
    }
}
