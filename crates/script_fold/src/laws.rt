//! Laws of folds: each is the contract of a function that does nothing.

ghost use Rattle.std.specs.Prelude.{◌≡◌, ◌<◌, ℕ, true, List, length, All};
ghost use Rattle.wave_base.specs.declared.script.Line.{Line};
ghost use Rattle.wave_base.specs.declared.script.Script.{Script};
ghost use Rattle.wave_base.specs.declared.start.Start.{Start};
ghost use Rattle.wave_base.specs.declared.value.Value.{Value};
ghost use Rattle.wave_base.specs.Fold.{is_over};
ghost use Rattle.wave_base.specs.Scripts.{IsScript};
ghost use Rattle.wave_base.specs.Starts.{IsStart};
ghost use Rattle.wave_base.specs.Tree.{Tree};
ghost use Rattle.script_fold.specs.Lines.{Meaning};
ghost use Rattle.script_fold.specs.Moves.{MovesAside, jobs_run};
ghost use Rattle.script_fold.specs.Owed.{KeepsShape};
ghost use Rattle.script_fold.specs.Runs.{finished_of, start_after, IsFew};

use crate::runner::Runner;

/// With its moves taken out of a script, the results of the other jobs are the same, in the same order, and so is the
/// last tree, whatever calls do.
pub fn moves_change_no_other_result()
    ensures { (meaning : Meaning) (first : ℕ) (tree : Tree (List Value)) (batches : List (List Line)) (n : ℕ) → All (λ b. 0 < length b) batches → is_over (jobs_run meaning first tree batches n) ≡ true → MovesAside meaning first tree batches n }
{}

/// Where calls keep the shape of a tree, a run leaves what another can begin with: its contexts, their hosts, and the
/// ticket behind its last, as long as these are few enough for a start.
pub fn runs_go_on<R: Runner>(runner: &R)
    requires sound { R.sound runner.now }
    requires keeps { KeepsShape (R.shape runner.now) (R.meaning runner.now) (R.fits_tree runner.now) (R.fits_call runner.now) }
    ensures { (start : Start) (script : Script) → IsScript (R.shape runner.now) script → IsStart (R.shape runner.now) script.hosts start
        → IsFew (start_after start (finished_of (R.meaning runner.now) (R.shape runner.now) start script))
        → IsStart (R.shape runner.now) script.hosts (start_after start (finished_of (R.meaning runner.now) (R.shape runner.now) start script)) }
{}
