//! A machine with its journal.

ghost use Rattle.std.specs.Prelude.{◌≡◌, ◌++◌, ◌∷◌, [], None, IfOk, IsSome};
ghost use Rattle.wave_base.specs.Starts.{first_start};
ghost use Rattle.plan_actors.specs.Plans.{Fits, FitsStart};
ghost use Rattle.wave_effects.specs.Plans.{plan_of};
ghost use Rattle.wave_board.specs.declared.origin.Origin.{Origin};
ghost use Rattle.wave_board.specs.declared.trail.Trail.TheVariants.{Halt};
ghost use Rattle.wave_board.specs.Boards.{StandsFor, StandsStill, history_of};

use crate::crew::Crew;
use crate::holder::Holder;
use crate::origin::Origin;
use crate::trail::{StopCause, Trail};
use kept_lock::Kept;
use label_log::Recorder;
use std::alloc::Global;
use wave_base::{OutOfMemory, Start, Worker};
use wave_effects::Plan;
use wave_machine::Machine;

/// Who stopped the workers, why, and after how many labels of the journal.
#[derive(Clone, Copy)]
pub struct StopWord {
    /// The worker who stopped them.
    pub worker: Worker,
    /// Why.
    pub why: StopCause,
    /// After how many labels.
    pub place: usize,
}

/// A machine with its journal. Its history is the journal, with the Halt where the workers were stopped.
#[derive(Drop)]
pub struct Board<'p> {
    pub(crate) alloc: Global,
    pub(crate) machine: Machine<'p>,
    pub(crate) journal: Recorder,
    pub(crate) word: Option<StopWord>,
    // What its workers left for each other.
    pub(crate) crew: Crew,
    // The box of a segment that came back, for the next one.
    pub(crate) spare: Option<Box<Holder>>,
}

impl<'p> Kept for Board<'p> {
    ghost use Rattle.wave_board.specs.Boards.{StandsFor, history_of, owner_of};

    type Name = Origin<'p>;

    type Entry = Trail;

    ghost history = { history_of };

    ghost owner = { owner_of };

    ghost stands = { StandsFor };
}

impl<'p> Board<'p> {
    /// A board whose machine begins with the root alone, on host 0, and ticket 1.
    pub fn new(alloc: Global, plan: &'p Plan) -> Result<Board<'p>, OutOfMemory>
        requires { Fits (plan_of plan.now) }
        ensures stands { IfOk result (λ b. (o : Origin) → o.plan.now ≡ plan.now → o.start.now ≡ first_start plan.now.program.shape → StandsFor b o) }
        ensures empty { IfOk result (λ b. history_of b ≡ []) }
    {
        let machine = Machine::new(alloc, plan)?;
        Ok(Board {
            alloc,
            machine,
            journal: Recorder::new(alloc),
            word: None,
            crew: Crew::nobody(true),
            spare: None,
        })
    }

    /// A board whose machine begins as a Start says.
    pub fn new_at(alloc: Global, plan: &'p Plan, start: &Start) -> Result<Board<'p>, OutOfMemory>
        requires fits { Fits (plan_of plan.now) }
        requires begins { FitsStart (plan_of plan.now) start.now }
        ensures stands { IfOk result (λ b. (o : Origin) → o.plan.now ≡ plan.now → o.start.now ≡ start.now → StandsFor b o) }
        ensures empty { IfOk result (λ b. history_of b ≡ []) }
    {
        let machine = Machine::new_at(alloc, plan, start)?;
        Ok(Board {
            alloc,
            machine,
            journal: Recorder::new(alloc),
            word: None,
            crew: Crew::nobody(true),
            spare: None,
        })
    }

    /// Stops the workers, where they were not stopped before; else nothing changes. Worker 0 alone writes, so no other can fail to.
    pub fn stop(&mut self, worker: Worker, why: StopCause)
        requires { why ≡ StopCause.SinkFault → worker.0 ≡ 0 }
        ensures stands { StandsStill self.old self.new }
        ensures first { self.old.word ≡ None → history_of self.new ≡ history_of self.old ++ Halt worker why ∷ [] }
        ensures again { IsSome self.old.word → self.new ≡ self.old }
    {
        if self.word.is_none() {
            let place = self.journal.len();
            self.word = Some(StopWord { worker, why, place });
        }
    }
}
