//! The laws of quietness: each is the contract of a function that does nothing. And one of them of each program that the verifier passes.

ghost use Rattle.service_code.specs.declared.program.Program.{Program};
ghost use Rattle.service_verify.specs.Points.{IsVerified};
ghost use Rattle.quiet_laws.specs.Harmless.{QuietOnesAreHarmless};
ghost use Rattle.quiet_laws.specs.Quietness.{Quietness};

use service_verify::Verified;

/// Of a verified program a function is quiet exactly where each of its instructions is, and a call is where the called function is; and
/// nothing else says so of all its functions.
pub fn quietness_is_its_equation()
    ensures { (program : Program) → IsVerified program → Quietness program }
{}

/// So it is of a program that the verifier passed.
pub fn verified_quietness(verified: &Verified)
    ensures { Quietness verified.now }
{
    let _program = verified.program();
    quietness_is_its_equation();
}

/// Calls apart, an instruction is quiet exactly where, wherever it stands, it leaves the fields and calls into no child.
pub fn quiet_ones_are_harmless()
    ensures { QuietOnesAreHarmless }
{}
