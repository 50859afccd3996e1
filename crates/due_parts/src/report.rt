//! What a command tells of a run that is over.

use command_words::Places;

/// What is told of a run.
#[derive(Clone, Copy, Debug, PartialEq, Eq)]
pub enum Report {
    /// All that was done, line by line.
    Listing(Places),
    /// How many events there were, and how they ended.
    Summary,
    /// The point that it leaves, as a checkpoint.
    Point,
}
