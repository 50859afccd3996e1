//! A journal taken label by label, from a plan's first state.

ghost use Rattle.std.specs.Prelude.{◌<◌, ◌^◌, length, IfErr, IfOk, Ok};
ghost use Rattle.plan_actors.specs.Plans.{Fits};
ghost use Rattle.wave_effects.specs.Plans.{plan_of};
ghost use Rattle.journal_replay.specs.Replays.{IsOnlyOutcome};
ghost use Rattle.journal_replay.specs.inner.Walks.{StopsIn};

use crate::error::ReplayError;
use crate::walk::{first_walk, go};
use std::alloc::Global;
use wave_base::Seq;
use wave_effects::{Glance, Plan, contexts_have_owners};
use wave_labels::{Label, labels_tell};

/// A journal that is a run, and what is shown of it.
#[derive(Debug, Drop)]
pub struct Replayed {
    /// How many labels it has.
    pub steps: u32,
    /// Whether nothing can be done after the last of them, and no segment is out.
    pub finished: bool,
    /// After how many labels the machine is shown.
    pub shown: u32,
    /// What it is then.
    pub glance: Glance,
}

/// Takes the labels of a journal, one after the other, from where a plan's run begins with the root alone, on host 0, and ticket 1. Each
/// segment that a Start begins is run. Shows the machine after `show` labels, or after the last where there are fewer.
pub fn replay(
    alloc: Global,
    plan: &Plan,
    journal: &Seq<Label>,
    show: u32,
) -> Result<Replayed, ReplayError>
    requires fits { Fits (plan_of plan.now) }
    requires few { length journal.now < 2 ^ 32 }
    ensures { IsOnlyOutcome (plan_of plan.now) journal.now show result }
{
    labels_tell();
    let labels = journal.as_slice();
    match walk_through(alloc, plan, labels, show) {
        Ok(replayed) => Ok(replayed),
        Err(error) => Err(error),
    }
}

// Takes the labels, those that come before the glance first.
fn walk_through(
    alloc: Global,
    plan: &Plan,
    journal: &[Label],
    show: u32,
) -> Result<Replayed, ReplayError>
    requires fits { Fits (plan_of plan.now) }
    requires few { length journal.now < 2 ^ 32 }
    ensures only { IfOk result (λ r. IsOnlyOutcome (plan_of plan.now) journal.now show (Ok r)) }
    ensures stops { IfErr result (StopsIn (plan_of plan.now) journal.now) }
{
    contexts_have_owners();
    let count = journal.len();
    let shown = (show as usize).min(count);
    let mut walk = first_walk(alloc, plan)?;
    go(&mut walk, alloc, plan, journal, 0, shown)?;
    let glance = walk.machine.glance()?;
    go(&mut walk, alloc, plan, journal, shown, count)?;
    Ok(Replayed {
        steps: count as u32,
        finished: walk.machine.is_finished(),
        shown: shown as u32,
        glance,
    })
}
