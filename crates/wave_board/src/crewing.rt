//! What a board tells its workers of each other, and of what is left to do.

ghost use Rattle.std.specs.Prelude.{◌≡◌, ◌≢◌, ◌↔◌, [], None, IsTrue};
ghost use Rattle.wave_effects.specs.Machines.{TheState};
ghost use Rattle.wave_machine.specs.Readies.{ready_in};
ghost use Rattle.wave_board.specs.declared.origin.Origin.{Origin};
ghost use Rattle.wave_board.specs.Boards.{IsAt};

use crate::board::Board;
use crate::crew::Crew;

impl<'p> Board<'p> {
    /// Whether an idle worker can take something now: the workers were not stopped, and something is ready for whoever is idle. It takes no memory.
    pub fn has_ready(&self) -> bool
        ensures { (o : Origin) (s : TheState) → IsAt self.now o s → IsTrue result ↔ ((self.now.word ≡ None) × (ready_in self.now.machine.kept.plan s ≢ [])) }
    {
        self.word.is_none() && !self.machine.index().is_empty()
    }

    /// How many tickets are committed in this run.
    pub fn committed_count(&self) -> usize
        ensures { (o : Origin) (s : TheState) → IsAt self.now o s → s.head.done ≡ result }
    {
        self.machine.committed_count()
    }

    /// What its workers left for each other.
    pub fn crew(&self) -> Crew
        ensures { result ≡ self.now.crew }
    {
        self.crew
    }

    /// Leaves it for the others. What a board stands for does not speak of it.
    pub fn set_crew(&mut self, crew: Crew)
        ensures { self.new ≡ record self.old { crew = crew } }
    {
        self.crew = crew;
    }
}
