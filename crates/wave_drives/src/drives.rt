//! Drives: the labels that a rule picks, one after the other, until none is left.

ghost use Rattle.std.specs.Prelude.{◌≡◌, ◌++◌, ◌∷◌, [], map, IfOk, OnOk, option_map};
ghost use Rattle.wave_base.specs.declared.start.Start as start;
ghost use Rattle.wave_base.specs.Starts.{first_start};
ghost use Rattle.wave_states.specs.Begins.{start_state};
ghost use Rattle.wave_states.specs.Runs as runs;
ghost use Rattle.wave_states.specs.Runs.{IsDrive};
ghost use Rattle.script_fold.specs.Runs.{finished_of};
ghost use Rattle.plan_actors.specs.Calls.{code_ran};
ghost use Rattle.plan_actors.specs.Plans.{Fits, FitsStart, begin_in};
ghost use Rattle.plan_actors.specs.PlanActors.{plan_actors};
ghost use Rattle.wave_labels.specs.Labels.{label_of};
ghost use Rattle.wave_effects.specs.Lengths.{IsMeasured};
ghost use Rattle.wave_effects.specs.Machines.{Stands, TheState};
ghost use Rattle.wave_effects.specs.Plans.{plan_of};
ghost use Rattle.wave_machine.specs.Readies.{enabled_in};
ghost use Rattle.wave_drives.specs.declared.rules.PickRule.TheVariants as rule;
ghost use Rattle.wave_drives.specs.Rules.{rule_number, rule_of};
ghost use Rattle.wave_drives.specs.Walks.{IsUnder};
ghost use Rattle.wave_drives.specs.inner.Driving.{first_state};

use crate::drivable::states_drive;
use crate::measured::drives_are_measured;
use crate::movers::by_movers;
use crate::rules::{PickRule, by_mail_last, by_newest, by_oldest, by_seed};
use crate::walk::Walk;
use context_tree::trees_that_fit;
use plan_actors::{PlanActors, runs_are_short};
use std::alloc::Global;
use wave_base::{Finished, Host, OutOfMemory, Seq, Start, Worker};
use wave_effects::{Plan, states_are_known};
use wave_labels::{Act, Label};
use wave_machine::Machine;
use wave_theory::{empty_at_end, rules_pick};

// What the rule picks of what can be done.
fn next(machine: &Machine, rule: PickRule, draw: &mut u64) -> Result<Option<Label>, OutOfMemory>
    ensures { IfOk result (λ o. (start : start.Start) (s : TheState) → Stands machine.now.kept start s → rule_of rule draw.old s (enabled_in machine.now.kept.plan s) ≡ (draw.new, option_map label_of o)) }
{
    let labels = machine.enabled_labels()?;
    Ok(pick(machine, rule, draw, labels.as_slice()))
}

fn pick(machine: &Machine, rule: PickRule, draw: &mut u64, labels: &[Label]) -> Option<Label>
    ensures { (start : start.Start) (s : TheState) → Stands machine.now.kept start s → map label_of labels.now ≡ enabled_in machine.now.kept.plan s → rule_of rule draw.old s (map label_of labels.now) ≡ (draw.new, option_map label_of result) }
{
    states_are_known();
    states_drive();
    match rule {
        PickRule::Seed(_) => by_seed(draw, labels),
        PickRule::Oldest => by_oldest(labels),
        PickRule::Newest => by_newest(labels),
        PickRule::Movers => by_movers(machine, labels),
        PickRule::MailLast => by_mail_last(labels),
    }
}

// Drives a machine from where a run begins to its end.
fn drive_on(
    alloc: Global,
    walk: &mut Walk,
    plan: &Plan,
    start: &Start,
    rule: PickRule,
) -> Result<Vec<Label>, OutOfMemory>
    requires under { IsUnder walk.old.machine.kept walk.old.ends.items start.now (first_state (plan_of plan.now) start.now) }
    requires plan { walk.old.machine.kept.plan ≡ plan_of plan.now }
    ensures driven { IfOk result (λ ls. IsDrive (plan_actors plan.now.program) plan.now.workers plan.now.script.hosts (rule_of rule) (rule_number rule) (first_state (plan_of plan.now) start.now) (map label_of ls.items)) }
    ensures finished { IfOk result (λ ls. (s : TheState) × Stands walk.new.machine.kept start.now s × runs.Finished (plan_actors plan.now.program) plan.now.workers s) }
    ensures plan { IfOk result (λ ls. walk.new.machine.kept.plan ≡ plan_of plan.now) }
{
    states_drive();
    runs_are_short();
    rules_pick::<PlanActors>();
    empty_at_end::<PlanActors>();
    let mut draw = rule_number(rule);
    let mut labels = Vec::new(alloc);
    while let Some(label) = next(&walk.machine, rule, &mut draw)? {
        walk.take(alloc, plan, &label)?;
        push(&mut labels, label.worker, label.host, label.act)?;
    }
    Ok(labels)
}

// Adds a label.
fn push(labels: &mut Vec<Label>, worker: Worker, host: Host, act: Act) -> Result<(), OutOfMemory>
    ensures { OnOk result (labels.new.items ≡ labels.old.items ++ record { worker = worker; host = host; act = act } ∷ []) }
{
    labels.push(Label { worker, host, act })?;
    Ok(())
}

// The number that a rule begins with.
fn rule_number(rule: PickRule) -> u64
    ensures { result ≡ rule_number rule }
{
    match rule {
        PickRule::Seed(number) => number,
        PickRule::Oldest | PickRule::Newest | PickRule::Movers | PickRule::MailLast => 0,
    }
}

/// Runs a plan from a Start on one thread: a rule picks from what can be done, until nothing is left. Gives what the run tells,
/// and the labels that were picked, in their order: as many as the plan's work asks for, and the Passes.
pub fn drive_with(
    alloc: Global,
    plan: &Plan,
    start: &Start,
    rule: PickRule,
) -> Result<(Finished, Seq<Label>), OutOfMemory>
    requires fits { Fits (plan_of plan.now) }
    requires begins { FitsStart (plan_of plan.now) start.now }
    ensures told { IfOk result (λ r. r.0 ≡ finished_of (code_ran plan.now.program) plan.now.program.shape start.now plan.now.script) }
    ensures driven { IfOk result (λ r. IsDrive (plan_actors plan.now.program) plan.now.workers plan.now.script.hosts (rule_of rule) (rule_number rule) (start_state (begin_in (plan_of plan.now) start.now) plan.now.script.batches) (map label_of r.1)) }
    ensures measured { IfOk result (λ r. IsMeasured (plan_of plan.now) start.now (map label_of r.1)) }
{
    drives_are_measured();
    let machine = Machine::new_at(alloc, plan, start)?;
    let mut walk = Walk::new(alloc, machine, plan.workers)?;
    let labels = drive_on(alloc, &mut walk, plan, start, rule)?;
    let finished = finished_of(walk.machine)?;
    Ok((finished, Seq::from_vec(labels)))
}

// What a finished run tells.
fn finished_of(machine: Machine) -> Result<Finished, OutOfMemory>
    requires { (start : start.Start) × (s : TheState) × Stands machine.kept start s × runs.Finished (plan_actors machine.kept.plan.program) machine.kept.plan.workers s }
    ensures { IfOk result (λ f. (start : start.Start) (s : TheState) → Stands machine.entry.kept start s → f ≡ finished_of (code_ran machine.entry.kept.plan.program) machine.entry.kept.plan.program.shape start machine.entry.kept.plan.script) }
{
    match machine.into_finished() {
        Ok(finished) => Ok(finished),
        Err((_, error)) => Err(error),
    }
}

/// The same, with labels picked by the generator from a seed.
pub fn drive_at(
    alloc: Global,
    plan: &Plan,
    start: &Start,
    seed: u64,
) -> Result<(Finished, Seq<Label>), OutOfMemory>
    requires fits { Fits (plan_of plan.now) }
    requires begins { FitsStart (plan_of plan.now) start.now }
    ensures told { IfOk result (λ r. r.0 ≡ finished_of (code_ran plan.now.program) plan.now.program.shape start.now plan.now.script) }
    ensures driven { IfOk result (λ r. IsDrive (plan_actors plan.now.program) plan.now.workers plan.now.script.hosts (rule_of (rule.Seed seed)) seed (start_state (begin_in (plan_of plan.now) start.now) plan.now.script.batches) (map label_of r.1)) }
    ensures measured { IfOk result (λ r. IsMeasured (plan_of plan.now) start.now (map label_of r.1)) }
{
    drive_with(alloc, plan, start, PickRule::Seed(seed))
}

/// The same, from where every run begins that no other went before: the root alone, on host 0, and ticket 1.
pub fn drive(alloc: Global, plan: &Plan, seed: u64) -> Result<(Finished, Seq<Label>), OutOfMemory>
    requires { Fits (plan_of plan.now) }
    ensures told { IfOk result (λ r. r.0 ≡ finished_of (code_ran plan.now.program) plan.now.program.shape (first_start plan.now.program.shape) plan.now.script) }
    ensures driven { IfOk result (λ r. IsDrive (plan_actors plan.now.program) plan.now.workers plan.now.script.hosts (rule_of (rule.Seed seed)) seed (start_state (begin_in (plan_of plan.now) (first_start plan.now.program.shape)) plan.now.script.batches) (map label_of r.1)) }
    ensures measured { IfOk result (λ r. IsMeasured (plan_of plan.now) (first_start plan.now.program.shape) (map label_of r.1)) }
{
    trees_that_fit();
    let start = Start::first(alloc, &plan.program.program().shape)?;
    drive_at(alloc, plan, &start, seed)
}
