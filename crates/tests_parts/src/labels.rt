//! Labels are compared by all that they have.

use std::test::Fail;
use tests_services::{hall, label, mail};
use wave_base::{Host, Path, Ticket};
use wave_labels::*;

#[test]
fn labels_are_compared(rt: HostRuntime) -> Result<(), Fail> {
    let root = Path::root();
    let hall = hall(-3);
    let labels = [
        label(0, 0, Act::Admit(Ticket(1))),
        label(1, 0, Act::Admit(Ticket(1))),
        label(0, 1, Act::Admit(Ticket(1))),
        label(0, 0, Act::Admit(Ticket(2))),
        label(0, 0, Act::Queue(mail(1, 1), hall)),
        label(0, 0, Act::Queue(mail(1, 2), hall)),
        label(0, 0, Act::Queue(mail(2, 1), hall)),
        label(0, 0, Act::Queue(mail(1, 1), root)),
        label(0, 0, Act::Grant(Ticket(1), hall)),
        label(0, 0, Act::Visit(mail(1, 1), hall)),
        label(0, 0, Act::Start(Ticket(1), hall)),
        label(0, 0, Act::Stop(Ticket(1), hall)),
        label(0, 0, Act::Free(mail(1, 1), hall)),
        label(0, 0, Act::Pass(mail(1, 1), hall, Host(1))),
        label(0, 0, Act::Pass(mail(1, 1), hall, Host(2))),
        label(0, 0, Act::Land(mail(1, 1), hall)),
        label(0, 0, Act::Commit(Ticket(1))),
    ];
    for (i, one) in labels.iter().enumerate() {
        for (j, other) in labels.iter().enumerate() {
            assert!(rt; (*one == *other) == (i == j));
        }
    }
    Ok(())
}
