//! Laws of what calls mean: each is the contract of a function that does nothing.

ghost use Rattle.std.specs.Prelude.{◌≡◌, ◌≤◌, List};
ghost use Rattle.wave_base.specs.declared.limits.TheConstants.{GENERATION};
ghost use Rattle.wave_base.specs.declared.call.Call.{Call};
ghost use Rattle.wave_base.specs.declared.shape.Shape.{Shape};
ghost use Rattle.wave_base.specs.declared.value.Value.{Value};
ghost use Rattle.wave_base.specs.Tree.{Tree};
ghost use Rattle.resolved_service.specs.declared.service.Resolved.{Resolved};
ghost use Rattle.resolved_service.specs.Fits.{FitsService};
ghost use Rattle.resolved_service.specs.Jobs.{call_meaning};
ghost use Rattle.type_rules.specs.Views.{resolved_view};
ghost use Rattle.service_eval.specs.Worlds.{Holds};
ghost use Rattle.meaning_laws.specs.Kept.{IsKept};

/// A call on a tree whose paths are the shape's, with each parent and the root there, leaves one that is so again. It
/// creates at most four calls, each a generation later and none later than the last; the contexts that are there after it
/// are those that were there before and those that it entered, in order where they were; and it moves none.
pub fn calls_keep_trees()
    ensures { (shape : Shape) (service : Resolved) → FitsService shape service → (tree : Tree (List Value)) (call : Call) → Holds shape tree → call.generation ≤ GENERATION → IsKept shape tree call.generation (call_meaning service tree call) }
{}

/// The calls of two services that look alike mean the same: what a service means hangs on what its names stand for alone, and not on how the
/// trees are held.
pub fn views_tell_meanings()
    ensures { (a b : Resolved) → resolved_view a ≡ resolved_view b → call_meaning a ≡ call_meaning b }
{}
