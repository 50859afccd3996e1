//! Moves, snapshots and created events, by all rules.

use super::cases::drive_case;
use super::wants::{comes_to, first_made, move_outcome, place, places_are, reply};
use crate::Case;
use std::alloc::Global;
use std::process::Abort;
use std::test::Fail;
use tests_services::{CHAIN, MARKET, TO_AND_FRO, hall, shot, stall};
use wave_base::{OutOfMemory, Outcome, Path, Place, Seq, Ticket};
use wave_drives::PickRule;

const RULES: [PickRule; 6] = [
    PickRule::Seed(0),
    PickRule::Seed(99),
    PickRule::Oldest,
    PickRule::Newest,
    PickRule::Movers,
    PickRule::MailLast,
];

const SALES: &[u8] = b"hosts 2
request buy(1,1,3)
move /Hall[1] to 1
request buy(1,2,4)
snapshot
request pair(1)
";

const ALONE: Case = Case {
    service: MARKET,
    script: SALES,
    workers: 1,
};

const TOGETHER: Case = Case {
    service: MARKET,
    script: SALES,
    workers: 16,
};

// What a snapshot after both sales tells.
fn sale_outcome(alloc: Global) -> Result<Outcome, OutOfMemory> {
    let shots = vec![in alloc;
        shot(alloc, Path::root(), 2)?,
        shot(alloc, hall(1), 7)?,
        shot(alloc, stall(1, 1), 7)?,
        shot(alloc, stall(1, 2), 6)?,
    ]?;
    Ok(Outcome::Shots(Seq::from_vec(shots)))
}

// Where the contexts are in the end.
fn sold_at() -> [Place; 4] {
    [
        place(Path::root(), 0),
        place(hall(1), 1),
        place(stall(1, 1), 0),
        place(stall(1, 2), 1),
    ]
}

// A hall moves between two sales, and all contexts are told after them.
fn sells(rt: &impl Abort, alloc: Global, case: &Case, rule: PickRule) -> Result<(), Fail> {
    let (finished, _) = drive_case(rt, alloc, case, rule)?;
    let told = sale_outcome(alloc)?;
    let outcomes = [
        reply(7),
        move_outcome(hall(1), 1),
        reply(6),
        told,
        reply(11),
    ];
    comes_to(rt, &finished, &outcomes);
    places_are(rt, &finished, &sold_at());
    Ok(())
}

#[test]
fn a_hall_moves_between_sales(rt: HostRuntime) -> Result<(), Fail> {
    let alloc = rt.alloc();
    for rule in RULES {
        sells(&rt, alloc, &ALONE, rule)?;
        sells(&rt, alloc, &TOGETHER, rule)?;
    }
    Ok(())
}

const SNAPSHOTS: Case = Case {
    service: MARKET,
    script: b"request buy(1,1,3)
snapshot
request buy(1,2,4)
snapshot
",
    workers: 4,
};

// What a snapshot after the first sale tells.
fn sold_once(alloc: Global) -> Result<Outcome, OutOfMemory> {
    let shots = vec![in alloc;
        shot(alloc, Path::root(), 1)?,
        shot(alloc, hall(1), 3)?,
        shot(alloc, stall(1, 1), 7)?,
    ]?;
    Ok(Outcome::Shots(Seq::from_vec(shots)))
}

// A snapshot shows what was sold before it.
fn tells_sales(rt: &impl Abort, alloc: Global, rule: PickRule) -> Result<(), Fail> {
    let (finished, _) = drive_case(rt, alloc, &SNAPSHOTS, rule)?;
    let first = sold_once(alloc)?;
    let second = sale_outcome(alloc)?;
    comes_to(rt, &finished, &[reply(7), first, reply(6), second]);
    Ok(())
}

#[test]
fn snapshots_stand_between_sales(rt: HostRuntime) -> Result<(), Fail> {
    let alloc = rt.alloc();
    for rule in RULES {
        tells_sales(&rt, alloc, rule)?;
    }
    Ok(())
}

const WALK: Case = Case {
    service: MARKET,
    script: TO_AND_FRO,
    workers: 4,
};

fn there_and_back() -> [Outcome; 7] {
    [
        reply(9),
        move_outcome(hall(1), 1),
        reply(8),
        move_outcome(hall(1), 0),
        reply(7),
        move_outcome(hall(1), 1),
        reply(6),
    ]
}

fn goes_to_and_fro(rt: &impl Abort, alloc: Global, rule: PickRule) -> Result<(), Fail> {
    let (finished, _) = drive_case(rt, alloc, &WALK, rule)?;
    comes_to(rt, &finished, &there_and_back());
    Ok(())
}

#[test]
fn a_hall_goes_to_and_fro(rt: HostRuntime) -> Result<(), Fail> {
    let alloc = rt.alloc();
    for rule in RULES {
        goes_to_and_fro(&rt, alloc, rule)?;
    }
    Ok(())
}

const SETTLED: Case = Case {
    service: CHAIN,
    script: b"request two()
settle
request one()
",
    workers: 4,
};

fn runs_created_calls(rt: &impl Abort, alloc: Global, rule: PickRule) -> Result<(), Fail> {
    let (finished, _) = drive_case(rt, alloc, &SETTLED, rule)?;
    comes_to(rt, &finished, &[reply(1), reply(11), reply(21), reply(31)]);
    first_made(rt, &finished, &[Ticket(2), Ticket(3)]);
    Ok(())
}

#[test]
fn created_calls_run_after_their_line(rt: HostRuntime) -> Result<(), Fail> {
    let alloc = rt.alloc();
    for rule in RULES {
        runs_created_calls(&rt, alloc, rule)?;
    }
    Ok(())
}
