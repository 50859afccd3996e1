//! A Start on which scripts run in place, one behind the other.

ghost use Rattle.std.specs.Prelude.{◌≡◌, ◌≤◌, ◌-◌, ◌^◌, [], length, map, filter, replicate, IfOk, IsTrue};
ghost use Rattle.std.specs.List.{zip};
ghost use Rattle.std.specs.List.Sorted.{IsStrictlySortedBy};
ghost use Rattle.wave_base.specs.Fold.{is_over};
ghost use Rattle.wave_base.specs.Paths.{path_cmp};
ghost use Rattle.wave_base.specs.Scripts.{IsScript};
ghost use Rattle.wave_base.specs.Starts.{IsStart};
ghost use Rattle.context_tree.specs.Contexts.{IsOrdered};
ghost use Rattle.script_fold.specs.Lives.{IsTold, has_load, is_at};
ghost use Rattle.script_fold.specs.Runs.{finished_of, start_after, whole_run};

use crate::folding::Folding;
use crate::runner::Runner;
use crate::told::Told;
use crate::visits::Visits;
use context_tree::Tree;
use std::alloc::Global;
use std::marker::Model;
use wave_base::{Finished, Host, OutOfMemory, Place, Script, Seq, Start, Ticket};

/// What a script begins with, kept so that it is changed in place by what the script's jobs do, and then is what the next script begins with. Beside
/// it stands how many jobs of the last script entered each context.
#[derive(Drop)]
pub struct LiveStart {
    contexts: Tree,
    visits: Visits,
    next: Ticket,
}

impl Model for LiveStart {
    ghost use Rattle.script_fold.specs.Lives.{Live};
    ghost use Rattle.script_fold.specs.inner.Living.{live_of, IsLive};

    ghost Value = { Live };

    ghost view = { live_of };

    ghost invariant = { IsLive };
}

impl LiveStart {
    /// A Start that no job has entered yet.
    pub fn begin(alloc: Global, start: &Start) -> Result<LiveStart, OutOfMemory>
        requires places { IsStrictlySortedBy path_cmp (map (λ x. x.path) start.now.places) }
        requires shots { IsOrdered start.now.shots }
        ensures start { IfOk result (λ l. l.start ≡ start.now) }
        ensures loads { IfOk result (λ l. l.loads ≡ replicate (length start.now.places) 0) }
    {
        let contexts = Tree::from_shots(alloc, start.shots.as_slice())?;
        let visits = Visits::start(alloc, start)?;
        Ok(LiveStart {
            contexts,
            visits,
            next: start.next,
        })
    }

    /// Runs a script from here: its jobs in the order of their tickets, each whole. It gives where the next script begins, and what the jobs gave.
    pub fn run<R: Runner>(
        self,
        alloc: Global,
        runner: &R,
        script: Script,
    ) -> Result<(LiveStart, Told), OutOfMemory>
        requires sound { R.sound runner.now }
        requires script { IsScript (R.shape runner.now) script }
        requires start { IsStart (R.shape runner.now) script.hosts self.start }
        ensures start { IfOk result (λ r. r.0.start ≡ start_after self.start (finished_of (R.meaning runner.now) (R.shape runner.now) self.start script)) }
        ensures loads { IfOk result (λ r. r.0.loads ≡ (finished_of (R.meaning runner.now) (R.shape runner.now) self.start script).loads) }
        ensures told { IfOk result (λ r. IsTold r.1 (finished_of (R.meaning runner.now) (R.shape runner.now) self.start script)) }
        ensures over { IfOk result (λ _. IsTrue (is_over (whole_run (R.meaning runner.now) (R.shape runner.now) self.start script))) }
    {
        let LiveStart {
            contexts,
            mut visits,
            next,
        } = self;
        visits.clear();
        let mut folding = Folding::begin(alloc, contexts, visits, next, script);
        while folding.step(alloc, runner)? {}
        let (contexts, visits, told) = folding.end();
        let next = Ticket(next.0 + told.results.len() as u32);
        let live = LiveStart {
            contexts,
            visits,
            next,
        };
        Ok((live, told))
    }

    /// No job entered any context: the loads of the last script are forgotten.
    pub fn forget_loads(&mut self)
        ensures start { self.new.start ≡ self.old.start }
        ensures loads { self.new.loads ≡ replicate (length self.old.start.places) 0 }
    {
        self.visits.clear();
    }

    /// The ticket that the next script gives first.
    pub fn next(&self) -> Ticket
        ensures { result ≡ self.now.start.next }
    {
        self.next
    }

    /// The Start that it is.
    pub fn start(&self, alloc: Global) -> Result<Start, OutOfMemory>
        ensures { IfOk result (λ s. s ≡ self.now.start) }
    {
        Ok(Start {
            shots: self.contexts.shots(alloc)?,
            places: self.visits.places(alloc)?,
            next: self.next,
        })
    }

    /// What a whole run gives that ended here, with what its jobs gave.
    pub fn finished_run(&self, alloc: Global, told: Told) -> Result<Finished, OutOfMemory>
        ensures { IfOk result (λ f. f ≡ record { results = told.results; made = told.made; names = told.names; places = self.now.start.places; shots = self.now.start.shots; loads = self.now.loads }) }
    {
        let places = self.visits.places(alloc)?;
        let loads = self.visits.loads(alloc)?;
        let shots = self.contexts.shots(alloc)?;
        Ok(Finished {
            results: told.results,
            made: told.made,
            names: told.names,
            places,
            shots,
            loads,
        })
    }

    /// The contexts that a job of the last script entered, each with how many did. It looks at no other.
    pub fn places_with_loads(&self, alloc: Global) -> Result<(Seq<Place>, Seq<u64>), OutOfMemory>
        ensures paired { IfOk result (λ r. length r.0 ≡ length r.1) }
        ensures found { IfOk result (λ r. zip r.0 r.1 ≡ filter has_load (zip self.now.start.places self.now.loads)) }
    {
        self.visits.places_with_loads(alloc)
    }

    /// The contexts on a host, each with how many jobs of the last script entered it.
    pub fn on_host(&self, alloc: Global, host: Host) -> Result<(Seq<Place>, Seq<u64>), OutOfMemory>
        ensures paired { IfOk result (λ r. length r.0 ≡ length r.1) }
        ensures found { IfOk result (λ r. zip r.0 r.1 ≡ filter (is_at host.0) (zip self.now.start.places self.now.loads)) }
    {
        self.visits.on_host(alloc, host)
    }
}
