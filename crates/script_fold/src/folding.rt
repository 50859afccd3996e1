//! A run of a script, job by job.

ghost use Rattle.std.specs.Prelude.{◌≡◌, suc, false, IsTrue, IfOk};
ghost use Rattle.wave_base.specs.declared.shape.Shape.{Shape};
ghost use Rattle.wave_base.specs.declared.script.Script.{Script};
ghost use Rattle.wave_base.specs.declared.start.Start.{Start};
ghost use Rattle.wave_base.specs.Scripts.{IsScript};
ghost use Rattle.wave_base.specs.Starts.{IsStart};
ghost use Rattle.script_fold.specs.Lines.{Meaning};
ghost use Rattle.script_fold.specs.Runs.{finished_of};
ghost use Rattle.script_fold.specs.inner.Standing.{Stands, Ended, IsBegun, IsLeft};

use crate::jobs::{name_of, run_job};
use crate::runner::Runner;
use crate::tickets::{give_tickets, next_job};
use crate::told::Told;
use crate::visits::Visits;
use context_tree::Tree;
use head_tickets::Head;
use std::alloc::Global;
use wave_base::{EventResult, OutOfMemory, Script, Seq, Ticket};

/// The jobs that are left, the contexts with their hosts, and what the jobs gave that are done.
#[derive(Drop)]
pub struct Folding {
    head: Head,
    contexts: Tree,
    visits: Visits,
    results: Vec<EventResult>,
    made: Vec<Seq<Ticket>>,
    names: Vec<Option<u16>>,
}

impl Folding {
    /// No job is done. What was kept of the run before is on these contexts, and no job entered them.
    pub fn begin(
        alloc: Global,
        contexts: Tree,
        visits: Visits,
        next: Ticket,
        script: Script,
    ) -> Folding
        requires { (shape : Shape) × (start : Start) × IsScript shape script × IsStart shape script.hosts start × IsBegun start contexts visits next }
        ensures { (meaning : Meaning) (shape : Shape) (start : Start) → IsScript shape script → IsStart shape script.hosts start → IsBegun start contexts visits next → Stands meaning shape start script result }
    {
        let head = Head::new_at(alloc, script, next);
        Folding {
            head,
            contexts,
            visits,
            results: Vec::new(alloc),
            made: Vec::new(alloc),
            names: Vec::new(alloc),
        }
    }

    /// Runs the next job. False where none is left.
    pub fn step<R: Runner>(&mut self, alloc: Global, runner: &R) -> Result<bool, OutOfMemory>
        requires sound { R.sound runner.now }
        requires stands { (start : Start) × (script : Script) × Stands (R.meaning runner.now) (R.shape runner.now) start script self.old }
        ensures stands { IfOk result (λ more. (start : Start) (script : Script) → Stands (R.meaning runner.now) (R.shape runner.now) start script self.old → IsTrue more → Stands (R.meaning runner.now) (R.shape runner.now) start script self.new) }
        ensures done { IfOk result (λ more. IsTrue more → self.new.head.done ≡ suc self.old.head.done) }
        ensures ended { IfOk result (λ more. (start : Start) (script : Script) → Stands (R.meaning runner.now) (R.shape runner.now) start script self.old → more ≡ false → Ended (R.meaning runner.now) (R.shape runner.now) start script self.new) }
    {
        let Some(job) = next_job(&mut self.head) else {
            return Ok(false);
        };
        let (result_, entered) = run_job(alloc, runner, &mut self.contexts, &job)?;
        let number = self.results.len() as u64 + 1;
        self.visits
            .after_job(number, entered.as_slice(), &result_.outcome)?;
        let made = give_tickets(alloc, &mut self.head, &result_.created)?;
        self.made.push(made)?;
        self.names.push(name_of(&job))?;
        self.results.push(result_)?;
        Ok(true)
    }

    /// What the jobs gave, and the contexts with their hosts behind them.
    pub fn end(self) -> (Tree, Visits, Told)
        ensures { (meaning : Meaning) (shape : Shape) (start : Start) (script : Script) → Ended meaning shape start script self → IsLeft (finished_of meaning shape start script) result.0 result.1 result.2 }
    {
        let told = Told {
            results: Seq::from_vec(self.results),
            made: Seq::from_vec(self.made),
            names: Seq::from_vec(self.names),
        };
        (self.contexts, self.visits, told)
    }
}
