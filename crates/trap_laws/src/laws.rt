//! Laws of traps and of ticks: each is the contract of a function that does nothing.

ghost use Rattle.resolved_service.specs.declared.service.Resolved.{Resolved};
ghost use Rattle.trap_laws.specs.Fuel.{MeansAsWithMore};
ghost use Rattle.trap_laws.specs.Traps.{TrapsStand, NoneStandsNowhere};

use resolved_service::ticks_end_before_fuel;

/// Each trap of a call stands at a place of its event or of a method, where something is that raises a trap of that kind.
pub fn traps_stand_in_the_text()
    ensures { (service : Resolved) → TrapsStand service }
{}

/// So no trap stands where nothing does, as a call without a tick would.
pub fn no_trap_stands_nowhere()
    ensures { (service : Resolved) → NoneStandsNowhere service }
{
    traps_stand_in_the_text();
}

/// Ticks end before fuel does: a call means the same with any fuel from its ticks on.
pub fn ticks_are_fuel_enough()
    ensures { (service : Resolved) → MeansAsWithMore service }
{
    ticks_end_before_fuel();
}
