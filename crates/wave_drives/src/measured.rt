//! How many labels drives take: the contract of a function that does nothing.

ghost use Rattle.wave_drives.specs.Measured.{DrivesAreMeasured};

use plan_actors::{PlanActors, plans_drive};
use wave_effects::runs_are_measured;
use wave_theory::rules_pick;

/// A drive has two labels for each ticket, three for each segment and two for each context that a ticket enters, besides its Passes.
pub fn drives_are_measured()
    ensures { DrivesAreMeasured }
{
    runs_are_measured();
    plans_drive();
    rules_pick::<PlanActors>();
}
