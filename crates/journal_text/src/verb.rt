//! The words of the acts.

ghost use Rattle.std.specs.Prelude.{◌≡◌};
ghost use Rattle.journal_text.specs.inner.Verbs.{verb_of};

/// An act by its word.
#[derive(Clone, Copy)]
pub(crate) enum Verb {
    /// `admit`: the next ticket's event is made.
    Admit,
    /// `queue`: an Enter joins the line of a context.
    Queue,
    /// `grant`: the next in a context's line gets in.
    Grant,
    /// `visit`: an event comes back to a context that it holds.
    Visit,
    /// `start`: a segment begins.
    Start,
    /// `stop`: a segment ends.
    Stop,
    /// `free`: a context is let go.
    Free,
    /// `pass`: an Enter follows a departure mark to a host.
    Pass,
    /// `land`: a context that moved arrives.
    Land,
    /// `commit`: the next result is committed.
    Commit,
}

/// The act of a word.
pub(crate) fn verb_of(word: &[u8]) -> Option<Verb>
    ensures { result ≡ verb_of word.now }
{
    if word == b"Admit".as_slice() {
        Some(Verb::Admit)
    } else if word == b"Queue".as_slice() {
        Some(Verb::Queue)
    } else if word == b"Grant".as_slice() {
        Some(Verb::Grant)
    } else if word == b"Visit".as_slice() {
        Some(Verb::Visit)
    } else if word == b"Start".as_slice() {
        Some(Verb::Start)
    } else if word == b"Stop".as_slice() {
        Some(Verb::Stop)
    } else if word == b"Free".as_slice() {
        Some(Verb::Free)
    } else if word == b"Pass".as_slice() {
        Some(Verb::Pass)
    } else if word == b"Land".as_slice() {
        Some(Verb::Land)
    } else if word == b"Commit".as_slice() {
        Some(Verb::Commit)
    } else {
        None
    }
}
