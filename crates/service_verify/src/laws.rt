//! Laws of the code of fit verified programs: each is the contract of a function that does nothing.

ghost use Rattle.std.specs.Prelude.{◌≡◌, ◌≤◌, ℕ, List, [], Some, true};
ghost use Rattle.wave_base.specs.declared.call.Call.{Call};
ghost use Rattle.wave_base.specs.declared.limits.TheConstants.{GENERATION};
ghost use Rattle.wave_base.specs.declared.outcome.EventResult.{EventResult};
ghost use Rattle.wave_base.specs.declared.path.Path.{Path};
ghost use Rattle.wave_base.specs.declared.value.Value.{Value};
ghost use Rattle.wave_base.specs.Scripts.{IsCall};
ghost use Rattle.wave_base.specs.Tree.{Tree};
ghost use Rattle.downgrade_views.specs.Levels.{Level};
ghost use Rattle.service_code.specs.declared.program.Program.{Program};
ghost use Rattle.service_verify.specs.Boxes.{Box, first_box};
ghost use Rattle.service_verify.specs.Copies.{trip_after, first_trip};
ghost use Rattle.service_verify.specs.Fit.{IsFit};
ghost use Rattle.service_verify.specs.Lawful.{MeetsNext, OnlyLooks};
ghost use Rattle.service_verify.specs.Looks.{is_peeking};
ghost use Rattle.service_verify.specs.Points.{IsVerified};
ghost use Rattle.service_verify.specs.Segments.{Event, segment, steps};
ghost use Rattle.service_verify.specs.Standing.{Agree, HasFields, HasLevels, HasTree, RunsAt, Stands, Pauses};
ghost use Rattle.service_verify.specs.Tours.{tour_after, first_tour, code_tour};

/// An event that begins stands at the root, with no call open.
pub fn events_begin()
    ensures { (program : Program) (call : Call) → IsFit program → IsVerified program → IsCall program.shape call → call.generation ≤ GENERATION → Stands program [] 0 (record { box = first_box program call; levels = [] }) }
{}

/// A segment of an event that stands runs to a pause, by the tree protocol: it never loses its way, and it ends.
pub fn segments_pause()
    ensures { (program : Program) (p : Path) (n : ℕ) (e : Event) (fields : List Value) → IsFit program → IsVerified program → Stands program p n e → HasFields program.shape p fields → Pauses program p n e fields }
{}

/// After any number of instructions of a segment the next one meets the verifier's rules: never a missing operand, a wrong
/// kind, a wrong field, a jump out of the code or a wrong callee.
pub fn instructions_meet_the_rules()
    ensures { (program : Program) (p : Path) (n : ℕ) (e : Event) (fields : List Value) → IsFit program → IsVerified program → Stands program p n e → HasFields program.shape p fields → (count : ℕ) → MeetsNext program p (steps program e.levels count e.box fields) }
{}

/// Two lists of levels that agree on the kept fields give the same segment.
pub fn kept_fields_are_enough()
    ensures { (program : Program) (p : Path) (n : ℕ) (b : Box) (levels others : List Level) (fields : List Value) → IsFit program → IsVerified program → RunsAt program p n b → HasLevels program p levels → Agree program p levels others → HasFields program.shape p fields
        → segment program levels b fields ≡ segment program others b fields }
{}

/// A segment of a peeking event leaves the context's fields as they are, and ends the event.
pub fn peeking_only_looks()
    ensures { (program : Program) (p : Path) (n : ℕ) (e : Event) (fields : List Value) → IsFit program → IsVerified program → Stands program p n e → HasFields program.shape p fields → is_peeking program e.box ≡ true → OnlyLooks program e fields }
{}

/// An event's segments on one tree come to an end.
pub fn events_end()
    ensures { (program : Program) (call : Call) (tree : Tree (List Value)) → IsFit program → IsVerified program → IsCall program.shape call → call.generation ≤ GENERATION → HasTree program tree → (r : EventResult) × ((code_tour program call tree).result ≡ Some r) }
{}

/// With the copies that an event keeps, its segments on one tree are what the code means.
pub fn copies_are_kept()
    ensures { (program : Program) (call : Call) (tree : Tree (List Value)) → IsFit program → IsVerified program → IsCall program.shape call → call.generation ≤ GENERATION → HasTree program tree → (n : ℕ) → (trip_after program n (first_trip program call tree)).tour ≡ tour_after program n (first_tour program call tree) }
{}
