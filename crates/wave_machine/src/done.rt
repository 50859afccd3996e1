//! What is done, and need not be looked at any more.

ghost use Rattle.wave_machine.specs.inner.Done.{AreDone, DoneStays};
ghost use Rattle.wave_effects.specs.Keeping.{kept_of};

use wave_effects::{Engine, segments_are_known, states_are_known};

// How many of the first tickets are done, where so many are.
pub(crate) fn count_done(engine: &Engine, done: usize) -> usize
    requires { AreDone (kept_of engine.now) done }
    ensures { AreDone (kept_of engine.now) result }
{
    for i in done..engine.cells.len() {
        if !engine.cells[i].is_done() {
            return i;
        }
    }
    engine.cells.len()
}

// What is done stays done: the contract of a function that does nothing.
pub(crate) fn done_stays()
    ensures { DoneStays }
{
    states_are_known();
    segments_are_known();
}
