//! What the loops have at their ends.

ghost use Rattle.std.specs.Prelude.{◌+◌, ◌<◌, ◌^◌, OnOk};
ghost use Rattle.code_scheme.specs.Scheme.{test_code};
ghost use Rattle.service_compiler.specs.inner.Drafts.{Puts};
ghost use Rattle.service_compiler.specs.inner.Fronts.{back_code, next_code};

use crate::code::Code;
use service_code::Instr;
use value_ops::rows::{ADD, LT};
use wave_base::{OutOfMemory, Span};

/// The way back to the start of a loop whose block goes on.
pub fn emit_back(code: &mut Code, ended: bool, start: u16, at: Span) -> Result<(), OutOfMemory>
    ensures { OnOk result (Puts code.old code.new (back_code ended start at)) }
{
    if ended {
        return Ok(());
    }
    code.put(Instr::Jump(start), at)
}

/// Whether another turn follows.
pub fn emit_test(code: &mut Code, counter: u16, at: Span) -> Result<(), OutOfMemory>
    requires { counter + 1 < 2 ^ 16 }
    ensures { OnOk result (Puts code.old code.new (test_code counter at)) }
{
    let bound = counter + 1;
    code.put(Instr::Load(counter), at)?;
    code.put(Instr::Load(bound), at)?;
    code.put(Instr::Op(LT as u16), at)
}

/// The next number.
pub fn emit_next(code: &mut Code, counter: u16, at: Span) -> Result<(), OutOfMemory>
    ensures { OnOk result (Puts code.old code.new (next_code counter at)) }
{
    code.put(Instr::Load(counter), at)?;
    code.put(Instr::PushInt(1), at)?;
    code.put(Instr::Op(ADD as u16), at)?;
    code.put(Instr::Store(counter), at)
}
