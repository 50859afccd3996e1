//! The end of a run.

ghost use Rattle.std.specs.Prelude.{◌≡◌, ◌↔◌, IsTrue, IfOk, IfErr, All, None, map, true};
ghost use Rattle.wave_base.specs.declared.start.Start.{Start};
ghost use Rattle.script_fold.specs.Runs.{finished_of};
ghost use Rattle.wave_states.specs.Runs as runs;
ghost use Rattle.plan_actors.specs.Calls.{code_ran};
ghost use Rattle.plan_actors.specs.PlanActors.{plan_actors};
ghost use Rattle.wave_effects.specs.Ending.{AllDone, AreFirstDone, is_done};
ghost use Rattle.wave_effects.specs.Kinds.{name_in};
ghost use Rattle.wave_effects.specs.Machines.{Stands, TheState};
ghost use Rattle.wave_effects.specs.inner.Rest.{finished_with};

use crate::actor::Actor;
use crate::engine::Engine;
use crate::kept::Out;
use crate::known::heads_are_known;
use crate::laws::states_are_known;
use crate::makes::name_in;
use crate::places::{loads, places, shots};
use crate::settlements::Settlements;
use event_cells::{Cell, JobKind};
use plan_actors::{PlanActors, finished_states_tell};
use std::alloc::Global;
use wave_base::{Finished, OutOfMemory, Place, Seq, Shot, Ticket};
use wave_theory::{complete, loads as loads_are};

/// What a finished run gives beside its results.
#[derive(Drop)]
pub(crate) struct Rest {
    names: Seq<Option<u16>>,
    places: Seq<Place>,
    shots: Seq<Shot>,
    loads: Seq<u64>,
}

impl Rest {
    // It all, with what is kept of the committed tickets.
    fn with(self, settled: Settlements) -> Finished
        ensures { result ≡ finished_with settled.items self }
    {
        let (results, made) = settled.into_parts();
        Finished {
            results,
            made,
            names: self.names,
            places: self.places,
            shots: self.shots,
            loads: self.loads,
        }
    }
}

impl<'p> Engine<'p> {
    ghost use Rattle.wave_effects.specs.Keeping.{kept_of};

    /// Whether nothing can be done any more, and no segment is out.
    pub fn is_finished(&self) -> bool
        ensures { (start : Start) (s : TheState) → Stands (kept_of self.now) start s → IsTrue result ↔ runs.Finished (plan_actors self.now.plan.now.program) self.now.plan.now.workers s }
    {
        self.is_finished_past(0)
    }

    /// The same, where the first events, so many, are known to be done: they are not looked at again.
    pub fn is_finished_past(&self, done: usize) -> bool
        requires { AreFirstDone done self.now.cells.items }
        ensures { (start : Start) (s : TheState) → Stands (kept_of self.now) start s → IsTrue result ↔ runs.Finished (plan_actors self.now.plan.now.program) self.now.plan.now.workers s }
    {
        states_are_known();
        heads_are_known();
        complete::<PlanActors>();
        self.all_done(done)
    }

    /// What a finished run gives. Where memory is wanting the engine comes back.
    pub fn into_finished(self, alloc: Global) -> Result<Finished, (Engine<'p>, OutOfMemory)>
        requires finished { (start : Start) × (s : TheState) × Stands (kept_of self) start s × runs.Finished (plan_actors self.plan.now.program) self.plan.now.workers s }
        ensures told { IfOk result (λ f. (start : Start) (s : TheState) → Stands (kept_of self.entry) start s → f ≡ finished_of (code_ran self.entry.plan.now.program) self.entry.plan.now.program.shape start self.entry.plan.now.script) }
        ensures back { IfErr result (λ e. e.0 ≡ self.entry) }
    {
        match self.rest_of(alloc) {
            Ok(rest) => {
                let Engine { settled, .. } = self;
                Ok(rest.with(settled))
            }
            Err(error) => Err((self, error)),
        }
    }

    // What a finished run gives beside its results.
    fn rest_of(&self, alloc: Global) -> Result<Rest, OutOfMemory>
        requires finished { (start : Start) × (s : TheState) × Stands (kept_of self.now) start s × runs.Finished (plan_actors self.now.plan.now.program) self.now.plan.now.workers s }
        ensures { IfOk result (λ rest. (start : Start) (s : TheState) → Stands (kept_of self.now) start s → finished_with (kept_of self.now).settled.results rest ≡ finished_of (code_ran self.now.plan.now.program) self.now.plan.now.program.shape start self.now.plan.now.script) }
    {
        states_are_known();
        heads_are_known();
        complete::<PlanActors>();
        loads_are::<PlanActors>();
        finished_states_tell();
        let places = places(alloc, &self.stores)?;
        let shots = shots(alloc, &self.stores, &places)?;
        let loads = loads(alloc, &self.stores, &places, Ticket(self.first))?;
        Ok(Rest {
            names: names(alloc, &self.kinds)?,
            places: Seq::from_vec(places),
            shots: Seq::from_vec(shots),
            loads: Seq::from_vec(loads),
        })
    }

    // Whether all that was admitted is committed and over, and nothing more comes.
    fn all_done(&self, done: usize) -> bool
        requires { AreFirstDone done self.now.cells.items }
        ensures { IsTrue result ↔ AllDone (kept_of self.now) }
    {
        self.settled.len() == self.cells.len()
            && all_idle(&self.hands)
            && self.head.upcoming().is_none()
            && all_over_past(&self.cells, done)
    }
}

// Whether nothing is out.
fn all_idle(hands: &[Option<Out>]) -> bool
    ensures { IsTrue result ↔ All (λ o. o ≡ None) hands.now }
{
    hands.iter().all(|hand| hand.is_none())
}

// Whether each event has ended, and no mail is under way.
fn all_over(cells: &[Cell<Actor>]) -> bool
    ensures { IsTrue result ↔ All (λ c. is_done c ≡ true) cells.now }
{
    cells.iter().all(|cell| cell.is_done())
}

// The same, where the first events, so many, are known to be done.
fn all_over_past(cells: &[Cell<Actor>], done: usize) -> bool
    requires { AreFirstDone done cells.now }
    ensures { IsTrue result ↔ All (λ c. is_done c ≡ true) cells.now }
{
    all_over(&cells[done..])
}

// The numbers of the events.
fn names(alloc: Global, kinds: &[JobKind]) -> Result<Seq<Option<u16>>, OutOfMemory>
    ensures { IfOk result (λ names. names ≡ map name_in kinds.now) }
{
    let mut names = Vec::new(alloc);
    for kind in kinds {
        names.push(name_in(*kind))?;
    }
    Ok(Seq::from_vec(names))
}
