//! Laws of values within their limits: each is the contract of a function that does nothing.

ghost use Rattle.std.specs.Prelude.{◌≡◌, ℕ, List, Ok};
ghost use Rattle.wave_base.specs.declared.script.Script.{Script};
ghost use Rattle.wave_base.specs.declared.shape.Shape.{Shape};
ghost use Rattle.wave_base.specs.declared.start.Start.{Start};
ghost use Rattle.wave_base.specs.Shapes.{IsShape};
ghost use Rattle.wave_base.specs.Starts.{IsStart, first_start};
ghost use Rattle.mace_ast.specs.Decls.{ServiceTree};
ghost use Rattle.service_reader.specs.Parsing.{Parses};
ghost use Rattle.resolved_service.specs.declared.service.Resolved.{Resolved};
ghost use Rattle.type_rules.specs.Known.{shape_of};
ghost use Rattle.type_rules.specs.Services.{resolve_service};
ghost use Rattle.type_rules.specs.Views.{resolved_view};
ghost use Rattle.script_fold.specs.Runs.{start_after};
ghost use Rattle.script_reader.specs.Judged.{nothing_earlier};
ghost use Rattle.script_reader.specs.Scripts.{IsScriptOf};
ghost use Rattle.snapshot_text.specs.Shots.{AreShots};
ghost use Rattle.wave_meaning.specs.Meaning.{results_at, results_of};
ghost use Rattle.value_laws.specs.Laws.{CallsAreBounded, OperatorsAreBounded, ReadScriptsAreBounded, ReadServicesAreBounded, ScriptsAreBounded};
ghost use Rattle.value_laws.specs.Services.{BoundedService};
ghost use Rattle.value_laws.specs.Values.{BoundedScript, BoundedShape, BoundedStart};

/// What an operator or a builtin gives of values within their limits is within its own, or it traps.
pub fn operators_are_bounded()
    ensures { OperatorsAreBounded }
{}

/// Whatever a service says whose literals are within the limits: a call on contexts that are, with arguments that are, leaves such contexts,
/// replies and sends such values, creates calls with such arguments, and enters paths with keys of 64 bits.
pub fn calls_are_bounded()
    ensures { (service : Resolved) → BoundedService service → CallsAreBounded service }
{}

/// And so a script, from a Start whose values are within the limits, gives such results and leaves such contexts; and from the first Start.
pub fn scripts_are_bounded()
    ensures all { (shape : Shape) (service : Resolved) → BoundedShape shape → BoundedService service → ScriptsAreBounded shape service }
    ensures first { (shape : Shape) → BoundedShape shape → BoundedStart (first_start shape) }
{}

/// What it leaves is what a snapshot may show and a checkpoint may keep, where it is a Start that fits the shape.
pub fn scripts_leave_shots()
    ensures { (shape : Shape) (service : Resolved) (start : Start) (script : Script) → IsShape shape → BoundedShape shape → BoundedService service → BoundedStart start → BoundedScript script
        → IsStart shape script.hosts (start_after start (results_at shape service start script)) → AreShots shape (results_at shape service start script).shots }
{
    scripts_are_bounded();
}

/// All that is read from texts is within the limits: the literals of services, what their fields begin with, the arguments and paths of
/// scripts.
pub fn texts_are_bounded()
    ensures services { ReadServicesAreBounded }
    ensures scripts { ReadScriptsAreBounded }
{}

/// So a script that was read from a text leaves, from the first Start of a service that was, what a snapshot may show and a checkpoint may
/// keep.
pub fn texts_leave_shots()
    ensures { (text lines : List ℕ) (tree : ServiceTree) (shape : Shape) (service : Resolved) (script : Script) → Parses text (Ok tree) → shape ≡ shape_of tree → resolved_view service ≡ resolve_service tree
        → IsScriptOf shape nothing_earlier lines (Ok script) → IsShape shape → IsStart shape script.hosts (start_after (first_start shape) (results_of shape service script)) → AreShots shape (results_of shape service script).shots }
{
    scripts_are_bounded();
    scripts_leave_shots();
    texts_are_bounded();
}
