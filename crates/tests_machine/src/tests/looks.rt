//! Events that only look hold a context together.

use super::cases::drive_case;
use super::wants::{comes_before, comes_to, reply};
use crate::TWO_LOOKS;
use std::test::Fail;
use tests_services::hall;
use wave_base::Ticket;
use wave_drives::PickRule;
use wave_labels::Act;

fn start(ticket: u32) -> Act {
    Act::Start(Ticket(ticket), hall(1))
}

fn stop(ticket: u32) -> Act {
    Act::Stop(Ticket(ticket), hall(1))
}

// With mails last, both have their segment out at the hall before one is stopped.
#[test]
fn two_events_look_at_once(rt: HostRuntime) -> Result<(), Fail> {
    let (finished, labels) = drive_case(&rt, rt.alloc(), &TWO_LOOKS, PickRule::MailLast)?;
    comes_to(&rt, &finished, &[reply(5), reply(5)]);
    comes_before(&rt, &labels, &start(1), &stop(2));
    comes_before(&rt, &labels, &start(2), &stop(1));
    Ok(())
}
