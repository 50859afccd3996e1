//! A label as a log keeps it: sixteen bytes, with its path by number.

ghost use Rattle.std.specs.Prelude.{◌≡◌};
ghost use Rattle.label_log.specs.Logs.{path_of};
ghost use Rattle.label_log.specs.inner.Entries.{act_at, label_at};

use wave_base::{Host, Path, Ticket, Worker};
use wave_labels::{Act, Label, MailId};

/// What kind of act it is, and of a Pass the host where it goes.
#[derive(Clone, Copy, Debug)]
pub(crate) enum Kind {
    Admit,
    Queue,
    Grant,
    Visit,
    Start,
    Stop,
    Free,
    Pass(Host),
    Land,
    Commit,
}

/// A label with the number of its path.
#[derive(Clone, Copy, Debug)]
pub(crate) struct Entry {
    /// The mail that it is about; where it is about none, number 0 of its ticket.
    pub mail: MailId,
    /// The number of its path.
    pub path: u32,
    /// The worker that does it.
    pub worker: Worker,
    /// The host where it is done.
    pub host: Host,
    /// What is done.
    pub kind: Kind,
}

const _: () = prove!(size_of::<Entry>() == 16);

impl Entry {
    /// A label whose path has this number.
    pub(crate) fn of(label: &Label, path: u32) -> Entry
        ensures path { result.path ≡ path }
        ensures label { label_at result (path_of label.now.act) ≡ label.now }
    {
        let (kind, mail) = kind_and_mail(&label.act);
        Entry {
            mail,
            path,
            worker: label.worker,
            host: label.host,
            kind,
        }
    }

    /// The label, whose path is this one.
    pub(crate) fn label(&self, path: Path) -> Label
        ensures { result ≡ label_at self.now path }
    {
        Label {
            worker: self.worker,
            host: self.host,
            act: act_at(self.kind, self.mail, path),
        }
    }
}

// An act as its kind and its mail.
fn kind_and_mail(act: &Act) -> (Kind, MailId)
    ensures { act_at result.0 result.1 (path_of act.now) ≡ act.now }
{
    match *act {
        Act::Admit(ticket) => (Kind::Admit, no_mail(ticket)),
        Act::Queue(mail, _) => (Kind::Queue, mail),
        Act::Grant(ticket, _) => (Kind::Grant, no_mail(ticket)),
        Act::Visit(mail, _) => (Kind::Visit, mail),
        Act::Start(ticket, _) => (Kind::Start, no_mail(ticket)),
        Act::Stop(ticket, _) => (Kind::Stop, no_mail(ticket)),
        Act::Free(mail, _) => (Kind::Free, mail),
        Act::Pass(mail, _, to) => (Kind::Pass(to), mail),
        Act::Land(mail, _) => (Kind::Land, mail),
        Act::Commit(ticket) => (Kind::Commit, no_mail(ticket)),
    }
}

fn no_mail(ticket: Ticket) -> MailId
    ensures { result.ticket ≡ ticket }
{
    MailId { ticket, number: 0 }
}

fn act_at(kind: Kind, mail: MailId, path: Path) -> Act
    ensures { result ≡ act_at kind mail path }
{
    match kind {
        Kind::Admit => Act::Admit(mail.ticket),
        Kind::Queue => Act::Queue(mail, path),
        Kind::Grant => Act::Grant(mail.ticket, path),
        Kind::Visit => Act::Visit(mail, path),
        Kind::Start => Act::Start(mail.ticket, path),
        Kind::Stop => Act::Stop(mail.ticket, path),
        Kind::Free => Act::Free(mail, path),
        Kind::Pass(to) => Act::Pass(mail, path, to),
        Kind::Land => Act::Land(mail, path),
        Kind::Commit => Act::Commit(mail.ticket),
    }
}
