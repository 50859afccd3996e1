//! A script, run whole.

ghost use Rattle.std.specs.Prelude.{◌≡◌, ◌≤◌, ◌-◌, ◌^◌, length, map, IfOk, IsTrue};
ghost use Rattle.wave_base.specs.declared.script.Script.{Script};
ghost use Rattle.wave_base.specs.declared.start.Start.{Start};
ghost use Rattle.wave_base.specs.Fold.{is_over};
ghost use Rattle.wave_base.specs.Scripts.{IsScript};
ghost use Rattle.wave_base.specs.Shapes.{IsShape};
ghost use Rattle.wave_base.specs.Starts.{IsStart, first_start};
ghost use Rattle.script_fold.specs.Runs.{finished_of, whole_run};
ghost use Rattle.script_fold.specs.inner.Standing.{Stands, Ended};

use crate::live::LiveStart;
use crate::runner::Runner;
use context_tree::trees_that_fit;
use std::alloc::Global;
use wave_base::{Finished, OutOfMemory, Script, Shape, Start};

/// Runs a script from a start: its jobs in the order of their tickets, each whole.
pub fn run_script_at<R: Runner>(
    alloc: Global,
    runner: &R,
    script: &Script,
    start: &Start,
) -> Result<Finished, OutOfMemory>
    requires sound { R.sound runner.now }
    requires script { IsScript (R.shape runner.now) script.now }
    requires start { IsStart (R.shape runner.now) script.now.hosts start.now }
    ensures finished { IfOk result (λ f. f ≡ finished_of (R.meaning runner.now) (R.shape runner.now) start.now script.now) }
    ensures places { IfOk result (λ f. map (λ x. x.path) f.places ≡ map (λ s. s.path) f.shots) }
    ensures few { IfOk result (λ f. length f.results ≤ 2 ^ 32 - 1) }
    ensures over { IfOk result (λ _. IsTrue (is_over (whole_run (R.meaning runner.now) (R.shape runner.now) start.now script.now))) }
{
    let live = LiveStart::begin(alloc, start)?;
    let (live, told) = live.run(alloc, runner, script.copy(alloc)?)?;
    live.finished_run(alloc, told)
}

/// Runs a script from the root alone, with its initial values.
pub fn run_script<R: Runner>(
    alloc: Global,
    runner: &R,
    shape: &Shape,
    script: &Script,
) -> Result<Finished, OutOfMemory>
    requires shape { IsShape shape.now }
    requires runner { R.shape runner.now ≡ shape.now }
    requires sound { R.sound runner.now }
    requires script { IsScript shape.now script.now }
    ensures finished { IfOk result (λ f. f ≡ finished_of (R.meaning runner.now) shape.now (first_start shape.now) script.now) }
    ensures places { IfOk result (λ f. map (λ x. x.path) f.places ≡ map (λ s. s.path) f.shots) }
    ensures few { IfOk result (λ f. length f.results ≤ 2 ^ 32 - 1) }
    ensures over { IfOk result (λ _. IsTrue (is_over (whole_run (R.meaning runner.now) shape.now (first_start shape.now) script.now))) }
{
    trees_that_fit();
    let start = Start::first(alloc, shape)?;
    run_script_at(alloc, runner, script, &start)
}
