//! An input of a service and a script: accepted, or refused.

ghost use Rattle.std.specs.Prelude.{◌≡◌, IfOk};
ghost use Rattle.wave_base.specs.Starts.{first_start};
ghost use Rattle.due_parts.specs.Accepted.{IsAccepted};

use crate::answer::refusal_answer;
use crate::refusal::Refusal;
use crate::runnable::Runnable;
use crate::script::accept_script;
use crate::service::service_of_text;
use input_parts::parts_of;
use std::alloc::Global;

/// Reads a service and a script. A refusal that is due is the only answer that is, whatever is to be told; and where there is something to run,
/// what it gives when its calls run by its code, from the first Start, is told by the only answer that is due.
pub fn accept(alloc: Global, input: &[u8]) -> Result<Runnable, Refusal>
    ensures due { IsAccepted input.now result }
    ensures first { IfOk result (λ work. work.start ≡ first_start work.program.shape) }
{
    let (text, script) = parts_of(input);
    let Some(script) = script else {
        return Err(Refusal::Due(refusal_answer(alloc, 3, b"NoScript")?));
    };
    match service_of_text(alloc, text) {
        Ok((typed, program)) => accept_script(alloc, typed, program, script),
        Err(refusal) => Err(refusal),
    }
}
