//! Inputs of a service and a script.

ghost use Rattle.std.specs.Prelude.{◌≡◌, ◌++◌, codes, IfOk};

use std::alloc::Global;
use wave_base::OutOfMemory;

/// A service's text and a script's, with the line between them.
pub fn input_of(alloc: Global, service: &[u8], script: &[u8]) -> Result<Vec<u8>, OutOfMemory>
    ensures { IfOk result (λ v. v.items ≡ (service.now ++ codes "\n----\n") ++ script.now) }
{
    let mut text = Vec::from_slice(alloc, service)?;
    text.extend_from_slice(b"\n----\n")?;
    text.extend_from_slice(script)?;
    Ok(text)
}
