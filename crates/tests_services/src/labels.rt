//! Labels of a journal, and what one event leaves there.

ghost use Rattle.std.specs.Prelude.{◌≡◌};

use wave_base::{Host, Path, Ticket, Worker};
use wave_labels::{Act, Label, MailId};

/// What a worker did on a host.
pub fn label(worker: u8, host: u8, act: Act) -> Label
    ensures { result ≡ record { worker = record { 0 = worker }; host = record { 0 = host }; act = act } }
{
    Label {
        worker: Worker(worker),
        host: Host(host),
        act,
    }
}

/// A mail of a ticket.
pub fn mail(ticket: u32, number: u32) -> MailId
    ensures { result ≡ record { ticket = record { 0 = ticket }; number = number } }
{
    let ticket = Ticket(ticket);
    MailId { ticket, number }
}

/// What worker 0 on host 0 does for one event that has one segment, at the root.
pub fn one_event() -> [Label; 7] {
    let (first, root) = (Ticket(1), Path::root());
    [
        label(0, 0, Act::Admit(first)),
        label(0, 0, Act::Queue(mail(1, 1), root)),
        label(0, 0, Act::Grant(first, root)),
        label(0, 0, Act::Start(first, root)),
        label(0, 0, Act::Stop(first, root)),
        label(0, 0, Act::Commit(first)),
        label(0, 0, Act::Free(mail(1, 2), root)),
    ]
}

/// The journal of that.
pub const ONE_EVENT: &[u8] = b"journal 7
1 w0 h0 Admit #1
2 w0 h0 Queue #1.1 /
3 w0 h0 Grant #1 /
4 w0 h0 Start #1 /
5 w0 h0 Stop #1 /
6 w0 h0 Commit #1
7 w0 h0 Free #1.2 /
";
