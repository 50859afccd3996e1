//! Labels: who did what, and where.

ghost use Rattle.wave_labels.specs.Labels.{mail_eq, act_eq, label_eq};
ghost use Rattle.wave_labels.specs.LabelLaws.{mail_equiv, act_equiv, label_equiv};
ghost use Rattle.std.specs.Prelude.{◌++◌};
ghost use Rattle.std.proofs.Common.{rules};
ghost use Rattle.std.specs.Cmp.{partial_equiv_from_equiv};
ghost use Rattle.std.specs.Cmp.Rules.{hashing};
ghost use Rattle.std.specs.Hash as fed;

use std::alloc::Global;
use std::hash::{Hash, Hasher};
use wave_base::{Copied, Host, OutOfMemory, Path, Ticket, Worker};

/// A mail by the ticket of its event, and its number among the mails of that event, from 1.
#[derive(Clone, Copy, Debug)]
pub struct MailId {
    /// The ticket of the event that sent it.
    pub ticket: Ticket,
    /// Its number among that event's mails, from 1.
    pub number: u32,
}

/// What a worker does: one of the ten kinds of steps of the machine, with what it is done to.
#[derive(Clone, Copy, Debug)]
pub enum Act {
    /// The next ticket's event is made.
    Admit(Ticket),
    /// An Enter joins the line of a context.
    Queue(MailId, Path),
    /// The next in a context's line gets in.
    Grant(Ticket, Path),
    /// An event comes back to a context that it holds.
    Visit(MailId, Path),
    /// A segment begins.
    Start(Ticket, Path),
    /// A segment ends.
    Stop(Ticket, Path),
    /// A context is let go.
    Free(MailId, Path),
    /// An Enter follows a departure mark to a host.
    Pass(MailId, Path, Host),
    /// A context that moved arrives.
    Land(MailId, Path),
    /// The next result is committed.
    Commit(Ticket),
}

/// An act, with the worker that does it and the host where it is done.
#[derive(Clone, Copy, Debug)]
pub struct Label {
    /// The worker that does it.
    pub worker: Worker,
    /// The host where it is done.
    pub host: Host,
    /// What is done.
    pub act: Act,
}

impl PartialEq for MailId {
    ghost eq = { mail_eq };

    ghost laws = { partial_equiv_from_equiv mail_equiv };

    fn eq(&self, other: &MailId) -> bool {
        self.ticket == other.ticket && self.number == other.number
    }
}

impl Eq for MailId {
    ghost laws = { mail_equiv };
}

impl Hash for MailId {
    ghost hash_input = { λ m. fed.u32 m.ticket.0 ++ fed.u32 m.number };

    ghost respects_eq = { Prim.search (hashing, rules) };

    fn hash<H: Hasher>(&self, state: &mut H) {
        self.ticket.0.hash(state);
        self.number.hash(state);
    }
}

impl PartialEq for Act {
    ghost eq = { act_eq };

    ghost laws = { partial_equiv_from_equiv act_equiv };

    fn eq(&self, other: &Act) -> bool {
        match (self, other) {
            (Act::Admit(ticket), Act::Admit(ticket_2)) => ticket == ticket_2,
            (Act::Queue(mail, path), Act::Queue(mail_2, path_2)) => mail == mail_2
                && path == path_2,
            (Act::Grant(ticket, path), Act::Grant(ticket_2, path_2)) => ticket == ticket_2
                && path == path_2,
            (Act::Visit(mail, path), Act::Visit(mail_2, path_2)) => mail == mail_2
                && path == path_2,
            (Act::Start(ticket, path), Act::Start(ticket_2, path_2)) => ticket == ticket_2
                && path == path_2,
            (Act::Stop(ticket, path), Act::Stop(ticket_2, path_2)) => ticket == ticket_2
                && path == path_2,
            (Act::Free(mail, path), Act::Free(mail_2, path_2)) => mail == mail_2 && path == path_2,
            (Act::Pass(mail, path, to), Act::Pass(mail_2, path_2, to_2)) => mail == mail_2
                && path == path_2
                && to == to_2,
            (Act::Land(mail, path), Act::Land(mail_2, path_2)) => mail == mail_2 && path == path_2,
            (Act::Commit(ticket), Act::Commit(ticket_2)) => ticket == ticket_2,
            _ => false,
        }
    }
}

impl Eq for Act {
    ghost laws = { act_equiv };
}

impl PartialEq for Label {
    ghost eq = { label_eq };

    ghost laws = { partial_equiv_from_equiv label_equiv };

    fn eq(&self, other: &Label) -> bool {
        self.worker == other.worker && self.host == other.host && self.act == other.act
    }
}

impl Eq for Label {
    ghost laws = { label_equiv };
}

impl Copied for Label {
    fn copied(&self, _alloc: Global) -> Result<Label, OutOfMemory> {
        Ok(*self)
    }
}
