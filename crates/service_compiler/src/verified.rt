//! The verified program of a service.

ghost use Rattle.std.specs.Prelude.{◌≡◌, ◌<◌, ◌+◌, ◌^◌, length, All, IfOk, IfErr};
ghost use Rattle.resolved_service.specs.Fits.{FitsService};
ghost use Rattle.service_code.specs.Listing.{CanList};
ghost use Rattle.service_verify.specs.Fit.{IsFit, IsSmall};
ghost use Rattle.code_scheme.specs.Programs.{scheme_program};
ghost use Rattle.code_scheme.specs.Typed.{IsTyped};
ghost use Rattle.service_compiler.specs.Faults.{Refuses};

use crate::error::CompileError;
use crate::program::compile;
use code_scheme::code_is_accepted;
use resolved_service::Resolved;
use service_verify::{Verified, VerifyError, verify};
use std::alloc::Global;
use wave_base::Shape;

/// The program of a typed service, verified. No code of such a service breaks a rule of the verifier, so that its refusals
/// are those of `compile` alone.
pub fn compile_verified(
    alloc: Global,
    shape: Shape,
    service: &Resolved,
) -> Result<Verified, CompileError>
    requires typed { IsTyped shape service.now }
    requires fits { FitsService shape service.now }
    requires few { length service.now.methods + length service.now.events < 2 ^ 16 }
    ensures program { IfOk result (λ p. p ≡ scheme_program shape service.now) }
    ensures fit { IfOk result IsFit }
    ensures small { IfOk result IsSmall }
    ensures listed { IfOk result (λ p. All (CanList p.shape) p.functions) }
    ensures refused { IfErr result (Refuses shape service.now) }
{
    code_is_accepted();
    let program = compile(alloc, shape, service)?;
    match verify(alloc, program) {
        Ok(verified) => Ok(verified),
        Err(VerifyError::OutOfMemory(refused)) => Err(CompileError::OutOfMemory(refused)),
        Err(_) => unreachable!(),
    }
}
