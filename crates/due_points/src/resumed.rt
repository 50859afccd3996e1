//! A service, a checkpoint and a script: accepted, or refused.

ghost use Rattle.std.specs.Prelude.{◌≡◌, ◌≢◌, ◌≤◌, length, IfOk};
ghost use Rattle.wave_base.specs.declared.limits.TheConstants.{LONG_INPUT_BYTES, PLACED_BYTES};
ghost use Rattle.wave_base.specs.Memory.{the_refusal};
ghost use Rattle.wave_base.specs.Names.{HasNames};
ghost use Rattle.wave_base.specs.Shapes.{IsShape};
ghost use Rattle.checkpoint_store.specs.declared.error.CheckError.{CheckError};
ghost use Rattle.checkpoint_store.specs.Points.{IsPoint};
ghost use Rattle.fault_notes.specs.Notes.{check_note};
ghost use Rattle.mace_ast.specs.Decls.{ServiceTree};
ghost use Rattle.due_parts.specs.Accepted.{IsAcceptedBy};
ghost use Rattle.due_parts.specs.Answers.{refusal};
ghost use Rattle.due_parts.specs.Coded.{IsCoded};
ghost use Rattle.due_parts.specs.Served.{IsTypedTree};
ghost use Rattle.due_points.specs.Resumed.{IsDueFrom, IsDuePoint, IsDueResumed};

use checkpoint_store::{CheckError, Checkpoint, read_checkpoint};
use context_types::Typed;
use due_parts::{
    Answer, Refusal, Runnable, ready, refusal_answer, refused_script, service_of_text, three_parts,
};
use fault_notes::check_note;
use script_reader::read_script_at;
use service_verify::Verified;
use std::alloc::Global;
use wave_base::{OutOfMemory, SCRIPT_BYTES};

fn refused_point(alloc: Global, error: &CheckError) -> Result<Answer, OutOfMemory>
    ensures refused { IfOk result (λ a. a ≡ refusal 8 (check_note error.now)) }
    ensures told { IfOk result (λ _. error.now ≢ CheckError.OutOfMemory the_refusal) }
{
    let note = check_note(alloc, error)?;
    refusal_answer(alloc, 8, note.as_slice())
}

/// Reads a service, a checkpoint and a script. A refusal that is due is the only answer that is, whatever is to be told; and where there is
/// something to run, what it gives when its calls run by its code, from the point on, is told by the only answer that is due.
pub fn accept_resumed(alloc: Global, input: &[u8]) -> Result<Runnable, Refusal>
    requires { length input.now ≤ LONG_INPUT_BYTES }
    ensures { IsAcceptedBy (λ telling. IsDueResumed telling input.now) result }
{
    let (text, parts) = three_parts(input);
    let Some((point, script)) = parts else {
        return Err(Refusal::Due(refusal_answer(alloc, 3, b"NoScript")?));
    };
    match service_of_text(alloc, text) {
        Ok((typed, program)) => accept_point(alloc, typed, program, point, script),
        Err(refusal) => Err(refusal),
    }
}

// A typed service with its code, and the texts of a checkpoint and a script.
fn accept_point(
    alloc: Global,
    typed: Typed,
    program: Verified,
    point: &[u8],
    script: &[u8],
) -> Result<Runnable, Refusal>
    requires shape { IsShape typed.shape }
    requires names { HasNames typed.shape }
    requires short { length point.now ≤ PLACED_BYTES }
    ensures { (tree : ServiceTree) → IsTypedTree tree typed → IsCoded typed.shape typed.resolved program → IsAcceptedBy (λ telling. IsDuePoint (IsDueFrom telling tree script.now) typed.shape point.now) result }
{
    match read_checkpoint(alloc, &typed.shape, point) {
        Ok(point) => accept_from(alloc, typed, program, point, script),
        Err(error) => Err(Refusal::Due(refused_point(alloc, &error)?)),
    }
}

// The text of a script, from a point on.
fn accept_from(
    alloc: Global,
    typed: Typed,
    program: Verified,
    point: Checkpoint,
    text: &[u8],
) -> Result<Runnable, Refusal>
    requires shape { IsShape typed.shape }
    requires point { IsPoint typed.shape point }
    ensures { (tree : ServiceTree) → IsTypedTree tree typed → IsCoded typed.shape typed.resolved program → IsAcceptedBy (λ telling. IsDueFrom telling tree text.now point) result }
{
    if text.len() > SCRIPT_BYTES {
        return Err(Refusal::Due(refusal_answer(alloc, 4, b"TooLarge script")?));
    }
    match read_script_at(alloc, &typed.shape, text, point.hosts, point.lines) {
        Ok(script) => Ok(ready(typed, program, point.start, script)),
        Err(error) => Err(Refusal::Due(refused_script(alloc, &error)?)),
    }
}
