//! A job, run whole on the tree.

ghost use Rattle.std.specs.Prelude.{◌≡◌, ◌++◌, ◌∷◌, [], filter, map, IfOk, OnOk};
ghost use Rattle.context_tree.specs.Contexts.{tree_of, is_there};
ghost use Rattle.head_tickets.specs.Heads.{line_of};
ghost use Rattle.resolved_service.specs.Jobs.{fronts, move_ran, snapshot_ran, only};
ghost use Rattle.wave_base.specs.declared.shape.Shape.{Shape};
ghost use Rattle.script_fold.specs.Lines.{line_by, FitsJob, name_of};

use crate::runner::Runner;
use context_tree::Tree;
use head_tickets::Job;
use std::alloc::Global;
use wave_base::{EventResult, Host, OutOfMemory, Outcome, Path, Seq, Shot};

/// Runs a job. Gives its result, and the paths that it entered, in order.
pub fn run_job<R: Runner>(
    alloc: Global,
    runner: &R,
    contexts: &mut Tree,
    job: &Job,
) -> Result<(EventResult, Vec<Path>), OutOfMemory>
    requires sound { R.sound runner.now }
    requires tree { R.fits_tree runner.now (tree_of (R.shape runner.now) contexts.old) }
    requires job { FitsJob (R.fits_call runner.now) (line_of job.now) }
    ensures tree { OnOk result (tree_of (R.shape runner.now) contexts.new ≡ (line_by (R.meaning runner.now) 0 (tree_of (R.shape runner.now) contexts.old) (line_of job.now)).tree) }
    ensures outcome { IfOk result (λ r. r.0 ≡ (line_by (R.meaning runner.now) 0 (tree_of (R.shape runner.now) contexts.old) (line_of job.now)).result) }
    ensures entered { IfOk result (λ r. r.1.items ≡ (line_by (R.meaning runner.now) 0 (tree_of (R.shape runner.now) contexts.old) (line_of job.now)).entered) }
{
    match job {
        Job::Event(call) => runner.run(alloc, contexts, call),
        Job::Move(path, host) => run_move(alloc, contexts, path, *host),
        Job::Snapshot => run_snapshot(alloc, contexts),
    }
}

/// The number of an event; a move and a snapshot have none.
pub fn name_of(job: &Job) -> Option<u16>
    ensures { result ≡ name_of (line_of job.now) }
{
    match job {
        Job::Event(call) => Some(call.event),
        Job::Move(_, _) | Job::Snapshot => None,
    }
}

// A move enters what is there of its path.
fn run_move(
    alloc: Global,
    contexts: &Tree,
    path: &Path,
    host: Host,
) -> Result<(EventResult, Vec<Path>), OutOfMemory>
    ensures outcome { (shape : Shape) → IfOk result (λ r. r.0 ≡ (move_ran (tree_of shape contexts.now) path.now host).result) }
    ensures entered { (shape : Shape) → IfOk result (λ r. r.1.items ≡ (move_ran (tree_of shape contexts.now) path.now host).entered) }
{
    let entered = fronts_there(alloc, contexts, path)?;
    let outcome = if is_there(contexts, path) {
        Outcome::Moved(*path, host)
    } else {
        Outcome::Absent(*path)
    };
    Ok((only(alloc, outcome), entered))
}

// A snapshot enters all contexts.
fn run_snapshot(alloc: Global, contexts: &Tree) -> Result<(EventResult, Vec<Path>), OutOfMemory>
    ensures outcome { (shape : Shape) → IfOk result (λ r. r.0 ≡ (snapshot_ran (tree_of shape contexts.now)).result) }
    ensures entered { (shape : Shape) → IfOk result (λ r. r.1.items ≡ (snapshot_ran (tree_of shape contexts.now)).entered) }
{
    let shots = contexts.shots(alloc)?;
    let entered = paths_of(alloc, shots.as_slice())?;
    Ok((only(alloc, Outcome::Shots(shots)), entered))
}

fn paths_of(alloc: Global, shots: &[Shot]) -> Result<Vec<Path>, OutOfMemory>
    ensures { IfOk result (λ v. v.items ≡ map (λ s. s.path) shots.now) }
{
    let mut paths = Vec::new(alloc);
    for shot in shots {
        paths.push(shot.path)?;
    }
    Ok(paths)
}

// A result with nothing sent and nothing created.
fn only(alloc: Global, outcome: Outcome) -> EventResult
    ensures { result ≡ only outcome }
{
    EventResult {
        outcome,
        messages: Seq::new(alloc),
        created: Seq::new(alloc),
    }
}

fn is_there(contexts: &Tree, path: &Path) -> bool
    ensures { result ≡ is_there contexts.now path.now }
{
    contexts.get(path).is_some()
}

// Of a path and all above it those that are there, from the root.
fn fronts_there(alloc: Global, contexts: &Tree, path: &Path) -> Result<Vec<Path>, OutOfMemory>
    ensures { IfOk result (λ v. v.items ≡ filter (is_there contexts.now) (fronts path.now)) }
{
    let mut entered = Vec::new(alloc);
    let mut front = Path::root();
    push_there(contexts, &mut entered, &front)?;
    for i in 0..path.len() {
        front = front.child(path.step(i).unwrap());
        push_there(contexts, &mut entered, &front)?;
    }
    Ok(entered)
}

fn push_there(contexts: &Tree, entered: &mut Vec<Path>, path: &Path) -> Result<(), OutOfMemory>
    ensures { OnOk result (entered.new.items ≡ entered.old.items ++ filter (is_there contexts.now) (path.now ∷ [])) }
{
    if is_there(contexts, path) {
        entered.push(*path)?;
    }
    Ok(())
}
