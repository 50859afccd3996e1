//! What is new to whoever writes the lines.

ghost use Rattle.std.specs.Prelude.{◌↔◌, IfOk, IsTrue};
ghost use Rattle.wave_effects.specs.Machines.{TheState};
ghost use Rattle.wave_board.specs.declared.origin.Origin.{Origin};
ghost use Rattle.wave_board.specs.Boards.{IsAt};
ghost use Rattle.wave_board.specs.Fresh.{CanTell, IsDue, TellsFresh};

use crate::board::Board;
use wave_base::{OutOfMemory, Seq, Shown};

// How many new lines are worth a writing, and how many are written at a time.
const ENOUGH: usize = 64;

const MOST: usize = 64;

impl<'p> Board<'p> {
    /// The results committed in this run that stand after the first `written` are new. None exactly where none is, or fewer than 64 are
    /// and the run isn't finished; else copies of the first 64 new ones, or of all.
    pub fn fresh(&self, written: u32) -> Result<Option<Seq<Shown>>, OutOfMemory>
        requires { CanTell self.now written }
        ensures { IfOk result (TellsFresh self.now written) }
    {
        if !self.is_due(written) {
            return Ok(None);
        }
        let lines = self.machine.shown_lines(written, MOST)?;
        Ok(Some(lines))
    }

    // Whether there are enough new ones, or all that will be.
    fn is_due(&self, written: u32) -> bool
        requires { CanTell self.now written }
        ensures { (o : Origin) (s : TheState) → IsAt self.now o s → IsTrue result ↔ IsDue self.now o s written }
    {
        let new = self.machine.committed_count() - written as usize;
        if self.machine.is_finished() {
            new > 0
        } else {
            new >= ENOUGH
        }
    }
}
