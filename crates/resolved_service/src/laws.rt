//! Laws of the meaning: each is the contract of a function that does nothing.

ghost use Rattle.std.specs.Prelude.{◌≡◌, ◌≤◌, ℕ, List};
ghost use Rattle.wave_base.specs.declared.value.Value.{Value};
ghost use Rattle.resolved_service.specs.declared.service.Event.{Event};
ghost use Rattle.resolved_service.specs.declared.service.Method.{Method};
ghost use Rattle.resolved_service.specs.Meaning.{event_run};
ghost use Rattle.resolved_service.specs.World.{World};

/// The meaning is a recursion on the calls and turns that may still come. With as many as there are ticks left, more of
/// them make no difference: no event comes to where they are used up.
pub fn ticks_end_before_fuel()
    ensures { (methods : List Method) (n m : ℕ) (e : Event) (given : List Value) (w : World) → w.ticks ≤ n → w.ticks ≤ m → event_run methods n e given w ≡ event_run methods m e given w }
{}
