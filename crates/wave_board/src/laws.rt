//! The laws that a worker's visits rest on: the contracts of functions that do nothing.

ghost use Rattle.wave_board.specs.Staying.{FinishedStays, LeasesStay, ResultsStay};

use plan_actors::PlanActors;
use wave_theory::hands_stay_over;

/// What a worker has in its hand stays there until a label of its own: a pass that has seen a history to its end finds the same there in each
/// history that agrees with it.
pub fn leases_stay()
    ensures { LeasesStay }
{
    hands_stay_over::<PlanActors>();
}

/// What was committed is committed in each history that goes on from there.
pub fn results_stay()
    ensures { ResultsStay }
{}

/// A finished run goes no further.
pub fn finished_stays()
    ensures { FinishedStays }
{}
