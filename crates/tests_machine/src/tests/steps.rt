//! A machine label by label: the first label that can be taken is, and a segment is run and stopped as soon as it begins.

ghost use Rattle.std.specs.Prelude.{◌≡◌, true, IfOk, IfSome};
ghost use Rattle.plan_actors.specs.Plans.{Fits};
ghost use Rattle.wave_labels.specs.Labels.{label_of};
ghost use Rattle.wave_effects.specs.Machines.{IsEnabled};
ghost use Rattle.wave_effects.specs.Plans.{plan_of};
ghost use Rattle.wave_effects.specs.Acts.{is_start, is_step};

use super::cases::{plan_for, start_for};
use super::wants::{comes_to, move_outcome, reply};
use crate::Case;
use plan_actors::PlanActors;
use std::alloc::Global;
use std::process::Abort;
use std::test::Fail;
use tests_services::{MARKET, TICK, hall};
use wave_base::{Finished, Host, OutOfMemory, Outcome, Ticket, Worker};
use wave_effects::{Plan, run_lease};
use wave_labels::{Act, Label};
use wave_machine::{Machine, machine_stands};
use wave_theory::lists_are_exact;

// The first label that can be taken.
fn first_of(machine: &Machine) -> Result<Option<Label>, OutOfMemory>
    ensures { IfOk result (λ o. IfSome o (λ l. IsEnabled machine.now.kept (label_of l))) }
{
    machine_stands(machine);
    lists_are_exact::<PlanActors>();
    let labels = machine.enabled_labels()?;
    match labels.get(0) {
        Some(label) => Ok(Some(*label)),
        None => Ok(None),
    }
}

// Begins a segment, runs it and stops it.
fn run(alloc: Global, plan: &Plan, machine: &mut Machine, label: &Label) -> Result<(), OutOfMemory>
    requires fits { Fits (plan_of plan.now) }
    requires plan { machine.old.kept.plan ≡ plan_of plan.now }
    requires enabled { IsEnabled machine.old.kept (label_of label.now) }
    requires kind { is_start label.now.act ≡ true }
    ensures { machine.new.kept.plan ≡ machine.old.kept.plan }
{
    machine.reserve(label)?;
    let mut lease = machine.start(label);
    let pause = run_lease(alloc, &plan.program, &mut lease)?;
    match machine.stop(lease, pause) {
        Ok(_) => Ok(()),
        Err(refused) => Err(refused.error),
    }
}

// Takes what is neither a Start nor a Stop.
fn step(machine: &mut Machine, label: &Label) -> Result<(), OutOfMemory>
    requires enabled { IsEnabled machine.old.kept (label_of label.now) }
    requires kind { is_step label.now.act ≡ true }
    ensures { machine.new.kept.plan ≡ machine.old.kept.plan }
{
    machine.reserve(label)?;
    machine.step(label);
    Ok(())
}

// Takes the first label that can be taken, where there is one. It is no Stop: each of these is taken with its Start.
fn take_next(alloc: Global, plan: &Plan, machine: &mut Machine) -> Result<(), OutOfMemory>
    requires fits { Fits (plan_of plan.now) }
    requires plan { machine.old.kept.plan ≡ plan_of plan.now }
    ensures { machine.new.kept.plan ≡ machine.old.kept.plan }
{
    let Some(label) = first_of(machine)? else {
        return Ok(());
    };
    match label.act {
        Act::Start(_, _) => run(alloc, plan, machine, &label),
        Act::Stop(_, _) => Ok(()),
        _ => step(machine, &label),
    }
}

// So many labels, or fewer where nothing is left.
fn take_first(
    alloc: Global,
    plan: &Plan,
    machine: &mut Machine,
    count: u32,
) -> Result<(), OutOfMemory>
    requires fits { Fits (plan_of plan.now) }
    requires plan { machine.old.kept.plan ≡ plan_of plan.now }
    ensures { machine.new.kept.plan ≡ machine.old.kept.plan }
{
    for turn in 0..count {
        take_next(alloc, plan, machine)?;
    }
    Ok(())
}

// So many labels can be taken at once.
fn many_enabled(rt: &impl Abort, machine: &Machine, count: usize) -> Result<(), OutOfMemory> {
    assert_eq!(rt; machine.enabled_labels()?.len(), count);
    Ok(())
}

// So many by a worker.
fn many_for(
    rt: &impl Abort,
    machine: &Machine,
    worker: Worker,
    count: usize,
) -> Result<(), OutOfMemory> {
    assert_eq!(rt; machine.enabled_for(worker)?.len(), count);
    Ok(())
}

// So many tickets are committed, all of them are shown, and this is whether nothing is left to do.
fn has_come_to(
    rt: &impl Abort,
    machine: &Machine,
    committed: usize,
    finished: bool,
) -> Result<(), OutOfMemory> {
    assert_eq!(rt; machine.committed_count(), committed);
    assert_eq!(rt; machine.shown_lines(0, 64)?.len(), committed);
    assert_eq!(rt; machine.is_finished(), finished);
    Ok(())
}

// What a machine tells that is finished.
fn finished_of(rt: &impl Abort, machine: Machine) -> Result<Finished, OutOfMemory> {
    machine_stands(&machine);
    if machine.is_finished() {
        match machine.into_finished() {
            Ok(finished) => Ok(finished),
            Err((_, error)) => Err(error),
        }
    } else {
        panic!(rt; "not finished")
    }
}

const ONE_HIT: Case = Case {
    service: TICK,
    script: b"request hit()\n",
    workers: 2,
};

// A machine of a plan, as it begins.
fn begun<'p>(alloc: Global, plan: &'p Plan) -> Result<Machine<'p>, OutOfMemory>
    requires { Fits (plan_of plan.now) }
    ensures { IfOk result (λ m. m.kept.plan ≡ plan_of plan.now) }
{
    Machine::new(alloc, plan)
}

// One event can be admitted, by each of the two workers, and nothing else can be done.
fn can_admit(rt: &impl Abort, machine: &Machine) -> Result<(), OutOfMemory> {
    many_enabled(rt, machine, 1)?;
    many_for(rt, machine, Worker(0), 1)?;
    many_for(rt, machine, Worker(1), 1)?;
    many_for(rt, machine, Worker(2), 0)
}

#[test]
fn only_the_first_event_can_be_admitted(rt: HostRuntime) -> Result<(), Fail> {
    let plan = plan_for(&rt, rt.alloc(), &ONE_HIT);
    let machine = begun(rt.alloc(), &plan)?;
    can_admit(&rt, &machine)?;
    Ok(())
}

// The Admit, the Queue, the Grant, and the segment; then the Commit and the Free.
fn goes_all_the_way(
    rt: &impl Abort,
    alloc: Global,
    plan: &Plan,
    machine: &mut Machine,
) -> Result<(), OutOfMemory>
    requires fits { Fits (plan_of plan.now) }
    requires plan { machine.old.kept.plan ≡ plan_of plan.now }
{
    take_first(alloc, plan, machine, 4)?;
    has_come_to(rt, machine, 0, false)?;
    take_first(alloc, plan, machine, 2)?;
    has_come_to(rt, machine, 1, true)
}

#[test]
fn one_event_is_taken_label_by_label(rt: HostRuntime) -> Result<(), Fail> {
    let alloc = rt.alloc();
    let plan = plan_for(&rt, alloc, &ONE_HIT);
    let mut machine = begun(alloc, &plan)?;
    goes_all_the_way(&rt, alloc, &plan, &mut machine)?;
    comes_to(&rt, &finished_of(&rt, machine)?, &[reply(1)]);
    Ok(())
}

const MOVES: Case = Case {
    service: MARKET,
    script: b"hosts 2
request buy(1,1,3)
move /Hall[1] to 1
move /Hall[2] to 1
request buy(1,1,4)
",
    workers: 1,
};

// The root is on host 1, and what a sale makes stands there too.
fn moves(rt: &impl Abort, alloc: Global) -> Result<Finished, OutOfMemory> {
    let plan = plan_for(rt, alloc, &MOVES);
    let start = start_for(rt, alloc, &plan, Host(1), Ticket(8))?;
    let mut machine = Machine::new_at(alloc, &plan, &start)?;
    take_first(alloc, &plan, &mut machine, 100)?;
    finished_of(rt, machine)
}

#[test]
fn a_context_moves_to_where_it_is(rt: HostRuntime) -> Result<(), Fail> {
    let finished = moves(&rt, rt.alloc())?;
    let absent = Outcome::Absent(hall(2));
    comes_to(
        &rt,
        &finished,
        &[reply(7), move_outcome(hall(1), 1), absent, reply(3)],
    );
    Ok(())
}
