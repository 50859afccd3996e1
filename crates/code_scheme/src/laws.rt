//! Laws of the scheme: each is the contract of a function that does nothing.

ghost use Rattle.std.specs.Prelude.{◌≡◌, ◌≤◌, List, [], true};
ghost use Rattle.wave_base.specs.declared.call.Call.{Call};
ghost use Rattle.wave_base.specs.declared.limits.TheConstants.{GENERATION};
ghost use Rattle.wave_base.specs.declared.shape.Shape.{Shape};
ghost use Rattle.wave_base.specs.declared.value.Value.{Value};
ghost use Rattle.wave_base.specs.Scripts.{IsCall};
ghost use Rattle.wave_base.specs.Tree.{Tree, there};
ghost use Rattle.wave_base.specs.Trees.{FitsShape};
ghost use Rattle.resolved_service.specs.declared.service.Resolved.{Resolved};
ghost use Rattle.resolved_service.specs.Jobs.{call_meaning};
ghost use Rattle.service_verify.specs.Fit.{IsFit};
ghost use Rattle.service_verify.specs.Points.{IsVerified};
ghost use Rattle.service_verify.specs.Tours.{code_tour};
ghost use Rattle.code_scheme.specs.Correct.{Means};
ghost use Rattle.code_scheme.specs.Programs.{scheme_program};
ghost use Rattle.code_scheme.specs.Typed.{IsTyped};

/// The program of a checked service is fit, and the verifier accepts it.
pub fn code_is_accepted()
    ensures fit { (shape : Shape) (service : Resolved) → IsTyped shape service → IsFit (scheme_program shape service) }
    ensures verified { (shape : Shape) (service : Resolved) → IsTyped shape service → IsVerified (scheme_program shape service) }
{}

/// An event's code, run segment by segment on one tree, gives exactly what the event means: its result, the tree, the paths
/// that it enters, and one segment more than it changes its place.
pub fn code_means_the_service()
    ensures { (shape : Shape) (service : Resolved) (call : Call) (tree : Tree (List Value)) → IsTyped shape service → IsCall shape call → call.generation ≤ GENERATION → FitsShape shape tree → there tree [] ≡ true → Means (code_tour (scheme_program shape service) call tree) (call_meaning service tree call) }
{}
