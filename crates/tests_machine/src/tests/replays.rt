//! Journals replayed, and what is reported of them.

use super::cases::plan_for;
use crate::Case;
use journal_replay::{ReplayError, refused_text, replay, replayed_text};
use std::alloc::Global;
use std::process::Abort;
use std::test::Fail;
use tests_services::{TICK, label, mail, one_event};
use wave_base::{Host, OutOfMemory, Path, Seq};
use wave_labels::{Act, Label};

const ONE_HIT: Case = Case {
    service: TICK,
    script: b"hosts 2\nrequest hit()\n",
    workers: 2,
};

// This is reported of the replay of a journal.
fn reports(
    rt: &impl Abort,
    alloc: Global,
    journal: &[Label],
    show: u32,
    wanted: &[u8],
) -> Result<(), OutOfMemory> {
    if journal.len() > 100 {
        panic!(rt; "a long journal");
    }
    let plan = plan_for(rt, alloc, &ONE_HIT);
    let labels = Seq::from_vec(journal.to_vec(alloc)?);
    let shape = &plan.program.program().shape;
    let text = match replay(alloc, &plan, &labels, show) {
        Ok(replayed) => replayed_text(alloc, shape, &replayed)?,
        Err(
            ReplayError::Refused {
                step,
                label: _,
                enabled,
            },
        ) => refused_text(alloc, shape, step, &enabled)?,
        Err(ReplayError::OutOfMemory(error)) => return Err(error),
    };
    assert_eq!(rt; text.as_slice(), wanted);
    Ok(())
}

#[test]
fn a_run_is_shown_after_any_of_its_labels(rt: HostRuntime) -> Result<(), Fail> {
    let alloc = rt.alloc();
    reports(
        &rt,
        alloc,
        &one_event(),
        4,
        b"run 7 finished\nstep 4 admitted 1 committed 0\nowner / 0\n",
    )?;
    reports(
        &rt,
        alloc,
        &one_event(),
        u32::MAX,
        b"run 7 finished\nstep 7 admitted 1 committed 1\nowner / 0\n",
    )?;
    reports(
        &rt,
        alloc,
        &[],
        0,
        b"run 0 unfinished\nstep 0 admitted 0 committed 0\nowner / 0\n",
    )?;
    Ok(())
}

#[test]
fn a_start_that_comes_too_early_is_refused(rt: HostRuntime) -> Result<(), Fail> {
    let [admit, queue, _, start, _, _, _] = one_event();
    reports(
        &rt,
        rt.alloc(),
        &[admit, queue, start],
        3,
        b"refused 3\nenabled 1\nw0 h0 Grant #1 /\n",
    )?;
    Ok(())
}

#[test]
fn a_stop_of_another_host_is_refused(rt: HostRuntime) -> Result<(), Fail> {
    let [admit, queue, grant, start, stop, _, _] = one_event();
    let elsewhere = Label {
        worker: stop.worker,
        host: Host(1),
        act: stop.act,
    };
    reports(
        &rt,
        rt.alloc(),
        &[admit, queue, grant, start, elsewhere],
        0,
        b"refused 5\nenabled 1\nw0 h0 Stop #1 /\n",
    )?;
    Ok(())
}

// An Enter is passed on, with each number at its bound.
fn far() -> Act {
    Act::Pass(mail(u32::MAX, u32::MAX), Path::root(), Host(u8::MAX))
}

#[test]
fn numbers_at_their_bounds_are_refused(rt: HostRuntime) -> Result<(), Fail> {
    let alloc = rt.alloc();
    let last = label(u8::MAX, u8::MAX, far());
    let wanted = b"refused 1\nenabled 1\nw0 h0 Admit #1\n";
    reports(&rt, alloc, &[last], 0, wanted)?;
    reports(&rt, alloc, &[label(0, 0, far())], 0, wanted)?;
    let [_, _, _, _, stop, _, _] = one_event();
    reports(&rt, alloc, &[stop], 0, wanted)?;
    Ok(())
}
