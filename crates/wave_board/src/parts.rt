//! The end of a board.

ghost use Rattle.std.specs.Prelude.{◌≡◌, IfErr, IfOk};
ghost use Rattle.wave_board.specs.declared.origin.Origin.{Origin};
ghost use Rattle.script_fold.specs.Runs.{finished_of};
ghost use Rattle.plan_actors.specs.Calls.{code_ran};
ghost use Rattle.wave_effects.specs.Machines.{TheState};
ghost use Rattle.wave_board.specs.Boards.{IsAt};
ghost use Rattle.wave_board.specs.Taking.{IsFinished};

use crate::board::Board;
use label_log::LabelLog;
use wave_base::{Finished, OutOfMemory};

impl<'p> Board<'p> {
    /// What a finished run gives, and its journal. After want of memory the board comes back.
    pub fn into_parts(self) -> Result<(Finished, LabelLog), (Board<'p>, OutOfMemory)>
        requires finished { (o : Origin) × (s : TheState) × IsAt self o s × IsFinished self s }
        ensures told { IfOk result (λ r. (o : Origin) (s : TheState) → IsAt self.entry o s → r.0 ≡ finished_of (code_ran o.plan.now.program) o.plan.now.program.shape o.start.now o.plan.now.script) }
        ensures journal { IfOk result (λ r. r.1 ≡ self.entry.journal.labels) }
        ensures back { IfErr result (λ e. e.0 ≡ self.entry) }
    {
        let Board {
            alloc,
            machine,
            journal,
            word,
            crew,
            spare,
        } = self;
        match machine.into_finished() {
            Ok(finished) => Ok((finished, journal.into_log())),
            Err((machine, error)) => Err((
                Board {
                    alloc,
                    machine,
                    journal,
                    word,
                    crew,
                    spare,
                },
                error,
            )),
        }
    }
}
