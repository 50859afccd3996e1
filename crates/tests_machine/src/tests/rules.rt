//! Which of two labels each rule takes.

use super::cases::drive_case;
use crate::Case;
use std::alloc::Global;
use std::process::Abort;
use std::test::Fail;
use tests_services::{MARKET, mail};
use wave_base::{Path, Ticket};
use wave_drives::PickRule;
use wave_labels::Act;

const MOVE_AND_SALE: Case = Case {
    service: MARKET,
    script: b"move /Hall[1] to 0
request buy(1,1,1)
",
    workers: 4,
};

// After the Admit of the move a drive by this rule does this.
fn goes_on_by(rt: &impl Abort, alloc: Global, rule: PickRule, act: &Act) -> Result<(), Fail> {
    let (_, labels) = drive_case(rt, alloc, &MOVE_AND_SALE, rule)?;
    match labels.get(1) {
        Some(label) => assert!(rt; label.act == *act),
        None => panic!(rt; "no label"),
    }
    Ok(())
}

// The event behind the move can be admitted, and the move's Enter can be queued. Of two labels the first draw from seed 0 takes the
// second.
#[test]
fn each_rule_picks_its_own(rt: HostRuntime) -> Result<(), Fail> {
    let alloc = rt.alloc();
    let admit = Act::Admit(Ticket(2));
    let queue = Act::Queue(mail(1, 1), Path::root());
    goes_on_by(&rt, alloc, PickRule::Seed(0), &queue)?;
    goes_on_by(&rt, alloc, PickRule::Oldest, &queue)?;
    goes_on_by(&rt, alloc, PickRule::Newest, &admit)?;
    goes_on_by(&rt, alloc, PickRule::Movers, &queue)?;
    goes_on_by(&rt, alloc, PickRule::MailLast, &admit)?;
    Ok(())
}
