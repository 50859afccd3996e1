//! Mails between hosts.

use context_queue::Entry;
use wave_base::{Host, Path};
use wave_labels::MailId;

/// What a mail is for.
#[derive(Drop)]
pub enum Letter {
    /// An event comes to a context for the first time.
    Enter {
        /// Its entry number there.
        number: u64,
        /// The number of the last departure mark that was followed, from 1; 0 where none was.
        followed: u64,
        /// Whether the event only looks there.
        peek: bool,
    },
    /// An event comes down to a context that it holds.
    Visit,
    /// An event comes back from a call to a context that it holds.
    Back,
    /// An event lets a context go.
    Release,
    /// A context moves here, with all that a host keeps of it.
    Transfer(Entry),
}

/// A mail to a host, for a context.
#[derive(Drop)]
pub struct Mail {
    /// Its event's ticket, and its number among that event's mails.
    pub id: MailId,
    /// The context that it is for.
    pub path: Path,
    /// What it is for.
    pub letter: Letter,
}

/// Where an Enter goes.
#[derive(Clone, Copy, Debug, PartialEq, Eq)]
pub enum Route {
    /// Into the line of the context, whose entry is here.
    Deliver,
    /// The context is born here.
    Born,
    /// On to the host to which the context went from here.
    Forward(Host),
    /// It stays until the context lands here.
    Wait,
}
