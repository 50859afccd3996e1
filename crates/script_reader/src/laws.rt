//! What holds of the reading of scripts.

ghost use Rattle.std.specs.Prelude.{◌≡◌, ℕ, List, Result, Ok, sum_by, length};
ghost use Rattle.script_reader.specs.Elastics.{IsElasticOf, plain_elastic};
ghost use Rattle.script_reader.specs.Judged.{nothing_earlier, script_earlier};
ghost use Rattle.script_reader.specs.Laws.{joint_script, joined_text};
ghost use Rattle.script_reader.specs.Scripts.{IsScriptOf};
ghost use Rattle.script_reader.specs.declared.elastic.Elastic.{Elastic};
ghost use Rattle.script_reader.specs.declared.error.ScriptError.{ScriptError};
ghost use Rattle.wave_base.specs.declared.script.Script.{Script};
ghost use Rattle.wave_base.specs.declared.shape.Shape.{Shape};

/// A text that is read as a script is read as a script with policies too: as one part with its batches.
pub fn plain_scripts_are_elastic()
    ensures { (shape : Shape) (text : List ℕ) (script : Script) (r : Result Elastic ScriptError) → IsScriptOf shape nothing_earlier text (Ok script) → IsElasticOf shape text r → r ≡ Ok (plain_elastic script) }
{}

/// What is read as a script, a line `settle`, and behind it what is read as one that goes on after that script, is read as the batches of
/// both.
pub fn scripts_go_on()
    ensures { (shape : Shape) (first second : List ℕ) (a b : Script) (r : Result Script ScriptError) → IsScriptOf shape nothing_earlier first (Ok a) → IsScriptOf shape (script_earlier a.hosts (sum_by length a.batches)) second (Ok b) → IsScriptOf shape nothing_earlier (joined_text first second) r → r ≡ Ok (joint_script a b) }
{}
