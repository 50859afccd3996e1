//! What comes of the words, before it is written.

use crate::ending::Ending;
use command_words::Command;

/// What came of the words on one thread.
#[derive(Drop)]
pub enum Response {
    /// It was done, and this is how it ended.
    Done(Ending),
    /// This is for workers to do, and nothing was done.
    Crewed(Command),
}
