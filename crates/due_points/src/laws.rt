//! Laws of runs that go on from a checkpoint: each is the contract of a function that does nothing.

ghost use Rattle.std.specs.Prelude.{◌≡◌, ℕ, List, length, sum_by, Ok, Result};
ghost use Rattle.wave_base.specs.declared.script.Script.{Script};
ghost use Rattle.wave_base.specs.declared.shape.Shape.{Shape};
ghost use Rattle.mace_ast.specs.Decls.{ServiceTree};
ghost use Rattle.context_types.specs.declared.Typed.{Typed};
ghost use Rattle.fold_laws.specs.Cuts.{both};
ghost use Rattle.script_reader.specs.declared.error.ScriptError.{ScriptError};
ghost use Rattle.script_reader.specs.Judged.{nothing_earlier, script_earlier};
ghost use Rattle.script_reader.specs.Laws.{joined_text};
ghost use Rattle.script_reader.specs.Scripts.{IsScriptOf};
ghost use Rattle.checkpoint_store.specs.declared.point.Checkpoint.{Checkpoint};
ghost use Rattle.command_words.specs.declared.command.Places.{Places};
ghost use Rattle.due_parts.specs.declared.answer.Answer.{Answer};
ghost use Rattle.due_points.specs.Laws.{AreDue, AreScripts, GoesOn};

use code_meaning::{scripts_are_cut, scripts_stay_few};
use fold_laws::scripts_are_few;
use script_reader::scripts_go_on;
use value_laws::texts_leave_shots;

/// What is resumed from the checkpoint of a script is what the run of that script and the next has behind the lines of the first, however
/// many lines both have together. The service and the first script are such as are read from texts.
pub fn checkpoints_go_on()
    ensures { (tree : ServiceTree) (typed : Typed) (a b : Script) (places : Places) (saved resumed run : Answer) (point : Checkpoint) → AreScripts tree typed a b → AreDue tree typed a b places saved resumed run point
        → GoesOn typed a saved resumed run point }
{
    scripts_are_cut();
    scripts_are_few();
    scripts_stay_few();
    texts_leave_shots();
}

/// So it is with their texts: the first, a line `settle`, and behind it the second as it is read from the checkpoint on, is the script of
/// both, which are over the same hosts.
pub fn texts_go_on()
    ensures { (shape : Shape) (first second : List ℕ) (a b : Script) (r : Result Script ScriptError) → IsScriptOf shape nothing_earlier first (Ok a) → IsScriptOf shape (script_earlier a.hosts (sum_by length a.batches)) second (Ok b)
        → IsScriptOf shape nothing_earlier (joined_text first second) r → (r ≡ Ok (both a b)) × (a.hosts ≡ b.hosts) }
{
    scripts_go_on();
}
