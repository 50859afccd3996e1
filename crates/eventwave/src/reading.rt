//! What a command reads, and what that comes to.

ghost use Rattle.std.specs.Prelude.{◌≡◌, true, false, IfErr, IfOk};
ghost use Rattle.command_words.specs.Inputs.{input_bytes, reads_input};
ghost use Rattle.eventwave.specs.Ends.{ReadsAll, Untouched};
ghost use Rattle.eventwave.specs.inner.Parts.{IsHindered, IsPreparedFor};
ghost use Rattle.wave_io.specs.Causes.{Rose};

use crate::ending::Ending;
use command_words::Command;
use due_answer::{Prepared, prepare};
use due_parts::too_large;
use std::alloc::Global;
use wave_io::{ReadError, Source, read_all};

/// Reads what a command reads, and prepares what it asks for.
pub fn prepare_input<S: Source>(
    alloc: Global,
    command: Command,
    input: &mut S,
) -> Result<Prepared, Ending>
    ensures prepared { IfOk result (IsPreparedFor command (S.left input.old)) }
    ensures end { reads_input command ≡ true → IfOk result (λ _. ReadsAll (input_bytes command) (S.left input.old) (S.left input.new)) }
    ensures unread { reads_input command ≡ false → Untouched (S.faults input.old) (S.faults input.new) (S.left input.old) (S.left input.new) }
    ensures hindered { IfErr result (λ e. IsHindered (reads_input command) (S.faults input.old) (S.faults input.new) e) }
{
    if !command.reads_input() {
        return Ok(prepare(alloc, command, b"")?);
    }
    match read_all(alloc, input, command.input_bytes()) {
        Ok(bytes) => Ok(prepare(alloc, command, bytes.as_slice())?),
        Err(ReadError::TooLarge) => Ok(Prepared::Given(too_large(alloc)?)),
        Err(ReadError::ReadFault) => Err(Ending::ReadFault),
        Err(ReadError::OutOfMemory(refused)) => Err(Ending::NoMemory(refused)),
    }
}
