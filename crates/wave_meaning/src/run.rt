//! Scripts of a service.

ghost use Rattle.std.specs.Prelude.{◌≡◌, ◌≤◌, ◌-◌, ◌^◌, length, IfOk};
ghost use Rattle.resolved_service.specs.Fits.{FitsService};
ghost use Rattle.wave_base.specs.Scripts.{IsScript};
ghost use Rattle.wave_base.specs.Shapes.{IsShape};
ghost use Rattle.wave_base.specs.Starts.{IsStart};
ghost use Rattle.wave_meaning.specs.Meaning.{results_at, results_of, IsWholeAt, IsWhole};

use crate::evaluator::Evaluator;
use resolved_service::Resolved;
use std::alloc::Global;
use wave_base::{Finished, OutOfMemory, Script, Shape, Start};

/// Runs a script on a service from a Start: its jobs in the order of their tickets, each whole.
pub fn run_script_at(
    alloc: Global,
    shape: &Shape,
    service: &Resolved,
    start: &Start,
    script: &Script,
) -> Result<Finished, OutOfMemory>
    requires shape { IsShape shape.now }
    requires fits { FitsService shape.now service.now }
    requires start { IsStart shape.now script.now.hosts start.now }
    requires script { IsScript shape.now script.now }
    ensures finished { IfOk result (λ f. f ≡ results_at shape.now service.now start.now script.now) }
    ensures over { IfOk result (λ _. IsWholeAt shape.now service.now start.now script.now) }
    ensures few { IfOk result (λ f. length f.results ≤ 2 ^ 32 - 1) }
{
    script_fold::run_script_at(alloc, &Evaluator { shape, service }, script, start)
}

/// Runs a script on a service from the root alone, with its initial values.
pub fn run_script(
    alloc: Global,
    shape: &Shape,
    service: &Resolved,
    script: &Script,
) -> Result<Finished, OutOfMemory>
    requires shape { IsShape shape.now }
    requires fits { FitsService shape.now service.now }
    requires script { IsScript shape.now script.now }
    ensures finished { IfOk result (λ f. f ≡ results_of shape.now service.now script.now) }
    ensures over { IfOk result (λ _. IsWhole shape.now service.now script.now) }
    ensures few { IfOk result (λ f. length f.results ≤ 2 ^ 32 - 1) }
{
    script_fold::run_script(alloc, &Evaluator { shape, service }, shape, script)
}
