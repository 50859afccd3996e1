//! A run that is timed: one call of the counting event.

ghost use Rattle.std.specs.Prelude.{◌≡◌, [], ◌∷◌, IfOk};
ghost use Rattle.wave_base.specs.declared.value.Value.TheVariants as v;
ghost use Rattle.service_vm.specs.Spin.{spin};

use service_verify::Verified;
use service_vm::{EventBox, segment};
use std::alloc::Global;
use wave_base::{Call, Children, OutOfMemory, Pause, Record, Seq, Ticket, Value};

fn call_of(alloc: Global, n: i64) -> Result<Call, OutOfMemory>
    ensures { IfOk result (λ c. c ≡ record { event = 0; args = v.Int n ∷ []; generation = 0 }) }
{
    Ok(Call {
        event: 0,
        args: Seq::from_vec(vec![in alloc; Value::Int(n)]?),
        generation: 0,
    })
}

/// Runs a call that counts to a number, in one segment.
pub fn count(alloc: Global, program: &Verified, n: i64) -> Result<Pause, OutOfMemory>
    requires { program.now ≡ spin }
{
    let call = call_of(alloc, n)?;
    let mut event = match EventBox::new(alloc, program, Ticket(1), call) {
        Ok(event) => event,
        Err((_, e)) => return Err(e),
    };
    let mut body = Record {
        fields: Seq::new(alloc),
        children: Children::new(alloc),
    };
    segment(program, &mut event, &mut body)
}
