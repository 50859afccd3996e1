//! Laws of the events of fit verified programs: each is the contract of a function that does nothing.

ghost use Rattle.std.specs.Prelude.{ℕ};
ghost use Rattle.wave_base.specs.declared.call.Call.{Call};
ghost use Rattle.wave_base.specs.Tree.{Tree};
ghost use Rattle.service_code.specs.declared.program.Program.{Program};
ghost use Rattle.service_verify.specs.Copies.{trip_after, first_trip};
ghost use Rattle.service_verify.specs.Fit.{IsFit};
ghost use Rattle.service_verify.specs.Points.{IsVerified};
ghost use Rattle.service_verify.specs.Standing.{HasFields, HasTree};
ghost use Rattle.service_verify.specs.Tours.{code_tour};
ghost use Rattle.wave_states.specs.Alone.{after_segments, first_alone, run_alone, segments_of};
ghost use Rattle.wave_states.specs.Owes.{Owes};
ghost use Rattle.code_actor.specs.CodeActors.{code_kind, Fields, code_actors, IsJob, IsFine};
ghost use Rattle.code_actor.specs.Follows.{Follows, IsWhole};
ghost use Rattle.code_actor.specs.Locks.{KeepsLocks};

/// Events keep the tree protocol: they owe all that the machine asks of an actor, however many hosts there are.
pub fn events_owe()
    ensures { (program : Program) (hosts : ℕ) → IsFit program → IsVerified program → Owes (code_kind program hosts) }
{}

/// An event enters a context only while it holds the one above, and none twice; and what it gave up it never holds again.
pub fn events_lock()
    ensures { (program : Program) (call : Call) (tree : Tree Fields) → IsFit program → IsVerified program → IsJob program call → HasTree program tree → KeepsLocks program call tree }
{}

/// After any number of segments an event alone is where its code has led it, and it holds and has entered the same paths.
pub fn events_follow()
    ensures { (program : Program) (call : Call) (ticket : ℕ) (tree : Tree Fields) → IsFit program → IsVerified program → IsJob program call → HasTree program tree → (n : ℕ) → Follows (after_segments (code_actors program) n (first_alone (code_actors program) call ticket tree)) (trip_after program n (first_trip program call tree)) }
{}

/// An event's whole run alone is what its code means.
pub fn alone_is_code()
    ensures { (program : Program) (call : Call) (ticket : ℕ) (tree : Tree Fields) → IsFit program → IsVerified program → IsJob program call → HasTree program tree → IsWhole (run_alone (code_actors program) ticket tree call) (segments_of (code_actors program) ticket tree call) (code_tour program call tree) }
{}
