//! A script for a typed service, from the first Start.

ghost use Rattle.std.specs.Prelude.{◌≡◌, ◌≢◌, ◌≤◌, length, IfOk};
ghost use Rattle.wave_base.specs.declared.limits.TheConstants.{SCRIPT_BYTES};
ghost use Rattle.wave_base.specs.Scripts.{IsScript};
ghost use Rattle.wave_base.specs.Shapes.{IsShape};
ghost use Rattle.wave_base.specs.Starts.{IsStart, first_start};
ghost use Rattle.mace_ast.specs.Decls.{ServiceTree};
ghost use Rattle.fault_notes.specs.Notes.{script_note};
ghost use Rattle.script_reader.specs.Judged.{nothing_earlier};
ghost use Rattle.script_reader.specs.declared.error.ScriptError.{ScriptError};
ghost use Rattle.due_parts.specs.Accepted.{IsAcceptedBy, IsReady};
ghost use Rattle.due_parts.specs.Answers.{refusal};
ghost use Rattle.due_parts.specs.Scripts.{IsDueLines, IsDueScript};
ghost use Rattle.due_parts.specs.Told.{IsDueTold, IsDueFirst};
ghost use Rattle.due_parts.specs.Coded.{IsCoded};
ghost use Rattle.due_parts.specs.Served.{IsTypedTree};
ghost use Rattle.wave_base.specs.Memory.{the_refusal};

use crate::answer::{Answer, refusal_answer};
use crate::refusal::Refusal;
use crate::runnable::Runnable;
use code_meaning::finished_states_mean;
use context_types::Typed;
use fault_notes::script_note;
use fold_laws::{code_runs_are_cut, plans_stay_few, scripts_are_few};
use plan_actors::{PlanActors, plans_drive};
use script_reader::{ScriptError, read_script};
use service_verify::Verified;
use std::alloc::Global;
use wave_base::{OutOfMemory, SCRIPT_BYTES, Script, Start};
use wave_drives::drives_are_measured;
use wave_effects::runs_are_measured;
use wave_theory::rules_pick;

/// The refusal of a script with this fault.
pub fn refused_script(alloc: Global, error: &ScriptError) -> Result<Answer, OutOfMemory>
    ensures refused { IfOk result (λ a. a ≡ refusal 4 (script_note error.now)) }
    ensures told { IfOk result (λ _. error.now ≢ ScriptError.OutOfMemory the_refusal) }
{
    let note = script_note(alloc, error)?;
    refusal_answer(alloc, 4, note.as_slice())
}

/// A script that was read, with its service, the code, and the Start: it can be run, and what is told of it is due.
pub fn ready(typed: Typed, program: Verified, start: Start, script: Script) -> Runnable
    ensures ready { (tree : ServiceTree) → IsTypedTree tree typed → IsCoded typed.shape typed.resolved program → IsStart typed.shape script.hosts start → IsScript typed.shape script → IsReady (λ telling. IsDueTold telling tree start script) result }
    ensures program { result.program ≡ program }
    ensures start { result.start ≡ start }
{
    plans_drive();
    rules_pick::<PlanActors>();
    runs_are_measured();
    drives_are_measured();
    finished_states_mean();
    plans_stay_few();
    scripts_are_few();
    code_runs_are_cut();
    let Typed {
        service: _,
        shape: _,
        resolved,
    } = typed;
    Runnable {
        service: resolved,
        program,
        script,
        start,
    }
}

// The text of a script that isn't too long, from the first Start.
fn accept_lines(
    alloc: Global,
    typed: Typed,
    program: Verified,
    text: &[u8],
) -> Result<Runnable, Refusal>
    requires shape { IsShape typed.shape }
    requires short { length text.now ≤ SCRIPT_BYTES }
    ensures due { (tree : ServiceTree) → IsTypedTree tree typed → IsCoded typed.shape typed.resolved program → IsAcceptedBy (λ telling. IsDueLines (IsDueFirst telling tree) typed.shape nothing_earlier text.now) result }
    ensures first { program.shape ≡ typed.shape → IfOk result (λ work. work.start ≡ first_start work.program.shape) }
{
    match read_script(alloc, &typed.shape, text) {
        Ok(script) => {
            let start = Start::first(alloc, &typed.shape)?;
            Ok(ready(typed, program, start, script))
        }
        Err(error) => Err(Refusal::Due(refused_script(alloc, &error)?)),
    }
}

/// A typed service with its code, and the text of a script.
pub fn accept_script(
    alloc: Global,
    typed: Typed,
    program: Verified,
    text: &[u8],
) -> Result<Runnable, Refusal>
    requires { IsShape typed.shape }
    ensures due { (tree : ServiceTree) → IsTypedTree tree typed → IsCoded typed.shape typed.resolved program → IsAcceptedBy (λ telling. IsDueScript (IsDueFirst telling) text.now tree) result }
    ensures first { program.shape ≡ typed.shape → IfOk result (λ work. work.start ≡ first_start work.program.shape) }
{
    if text.len() > SCRIPT_BYTES {
        return Err(Refusal::Due(refusal_answer(alloc, 4, b"TooLarge script")?));
    }
    accept_lines(alloc, typed, program, text)
}
