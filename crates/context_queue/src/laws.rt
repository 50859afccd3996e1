//! A law of entries: the contract of a function that does nothing.

ghost use Rattle.context_queue.specs.declared.entry.Entry.{Entry};
ghost use Rattle.context_queue.specs.Entries.{StandsFor, entry_of};

/// Each entry stands for one of the theory, so that what is said of all that it stands for is said of one at least.
pub fn entries_stand()
    ensures { (e : Entry) → StandsFor e (entry_of e) }
{}
