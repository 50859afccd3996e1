//! What a command tells of a run, and by whom it is run.

use crate::report::Report;
use command_words::{Crew, Places};

/// What is told of a run, and of which crew's.
#[derive(Clone, Copy, Debug, PartialEq, Eq)]
pub enum Telling {
    /// A report of what was done.
    Reports(Report),
    /// The listing, and behind it the journal of a run of this crew.
    Traces(Places, Crew),
}
