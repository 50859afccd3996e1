//! Scripts of a service, run by its code.

ghost use Rattle.std.specs.Prelude.{◌≡◌, ◌≤◌, ◌-◌, ◌^◌, length, IfOk};
ghost use Rattle.wave_base.specs.Scripts.{IsScript};
ghost use Rattle.wave_base.specs.Starts.{IsStart};
ghost use Rattle.wave_meaning.specs.Meaning.{results_at, results_of};
ghost use Rattle.code_runner.specs.Coded.{IsCode};

use crate::runner::CodeRunner;
use resolved_service::Resolved;
use service_verify::Verified;
use std::alloc::Global;
use wave_base::{Finished, OutOfMemory, Script, Start};

/// Runs a script by the code of a service, from a Start: its jobs in the order of their tickets, each whole.
pub fn run_script_at(
    alloc: Global,
    program: &Verified,
    service: &Resolved,
    start: &Start,
    script: &Script,
) -> Result<Finished, OutOfMemory>
    requires code { IsCode service.now program.now }
    requires start { IsStart program.now.shape script.now.hosts start.now }
    requires script { IsScript program.now.shape script.now }
    ensures finished { IfOk result (λ f. f ≡ results_at program.now.shape service.now start.now script.now) }
    ensures few { IfOk result (λ f. length f.results ≤ 2 ^ 32 - 1) }
{
    script_fold::run_script_at(alloc, &CodeRunner { program, service }, script, start)
}

/// Runs a script by the code of a service, from the root alone, with its initial values.
pub fn run_script(
    alloc: Global,
    program: &Verified,
    service: &Resolved,
    script: &Script,
) -> Result<Finished, OutOfMemory>
    requires code { IsCode service.now program.now }
    requires script { IsScript program.now.shape script.now }
    ensures finished { IfOk result (λ f. f ≡ results_of program.now.shape service.now script.now) }
    ensures few { IfOk result (λ f. length f.results ≤ 2 ^ 32 - 1) }
{
    script_fold::run_script(
        alloc,
        &CodeRunner { program, service },
        &program.program().shape,
        script,
    )
}
