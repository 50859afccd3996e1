//! A machine that takes the labels of a journal.

ghost use Rattle.std.specs.Prelude.{◌≤◌, ◌<◌, ◌+◌, ◌^◌, [], length, take, IfErr, IfOk, OnOk};
ghost use Rattle.plan_actors.specs.Plans.{Fits};
ghost use Rattle.wave_effects.specs.Plans.{plan_of};
ghost use Rattle.journal_replay.specs.inner.Walks.{IsWalking, StopsIn};

use crate::error::ReplayError;
use std::alloc::Global;
use wave_base::OutOfMemory;
use wave_drives::Walk;
use wave_effects::Plan;
use wave_labels::Label;
use wave_machine::Machine;

// Where a run begins.
pub(crate) fn first_walk<'p>(alloc: Global, plan: &'p Plan) -> Result<Walk<'p>, OutOfMemory>
    requires { Fits (plan_of plan.now) }
    ensures { IfOk result (IsWalking (plan_of plan.now) []) }
{
    let machine = Machine::new(alloc, plan)?;
    let walk = Walk::new(alloc, machine, plan.workers)?;
    Ok(walk)
}

// Takes the labels of a journal from one place to another, or stops at the first that can't be taken.
pub(crate) fn go(
    walk: &mut Walk,
    alloc: Global,
    plan: &Plan,
    journal: &[Label],
    from: usize,
    to: usize,
) -> Result<(), ReplayError>
    requires walking { IsWalking (plan_of plan.now) (take from journal.now) walk.old }
    requires order { from ≤ to }
    requires within { to ≤ length journal.now }
    requires few { length journal.now < 2 ^ 32 }
    ensures walking { OnOk result (IsWalking (plan_of plan.now) (take to journal.now) walk.new) }
    ensures stops { IfErr result (StopsIn (plan_of plan.now) journal.now) }
{
    for i in from..to {
        advance(walk, alloc, plan, journal, i)?;
    }
    Ok(())
}

// Takes the label at a place, or stops where it can't be taken.
fn advance(
    walk: &mut Walk,
    alloc: Global,
    plan: &Plan,
    journal: &[Label],
    i: usize,
) -> Result<(), ReplayError>
    requires walking { IsWalking (plan_of plan.now) (take i journal.now) walk.old }
    requires within { i < length journal.now }
    requires few { length journal.now < 2 ^ 32 }
    ensures walking { OnOk result (IsWalking (plan_of plan.now) (take (i + 1) journal.now) walk.new) }
    ensures stops { IfErr result (StopsIn (plan_of plan.now) journal.now) }
{
    let label = journal[i];
    if walk.machine.can_take(&label) {
        walk.take(alloc, plan, &label)?;
        return Ok(());
    }
    let enabled = walk.machine.enabled_labels()?;
    Err(ReplayError::Refused {
        step: i as u32 + 1,
        label,
        enabled,
    })
}
