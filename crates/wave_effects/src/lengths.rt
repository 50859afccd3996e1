//! How many labels machines take, and in which order: the contracts of functions that do nothing.

ghost use Rattle.wave_theory.specs.Counted.{Bounded};
ghost use Rattle.wave_effects.specs.Lengths.{FinishedRunsAreMeasured, HoldsOver};
ghost use Rattle.wave_effects.specs.Orders.{EitherOrder};

use plan_actors::{PlanActors, runs_are_short};
use wave_theory::{independent, label_bounds};

/// A run that is finished has two labels for each ticket, three for each segment and two for each context that a
/// ticket enters, besides its Passes. An Enter is passed at most as often as its context was moved, which bounds the Passes too.
pub fn runs_are_measured()
    ensures finished { FinishedRunsAreMeasured }
    ensures passes { HoldsOver Bounded }
{
    label_bounds::<PlanActors>();
    runs_are_short();
}

/// Labels of different tickets on different contexts can be taken in either order: machines come to stand for one state.
pub fn orders_are_alike()
    ensures { EitherOrder }
{
    independent::<PlanActors>();
}
