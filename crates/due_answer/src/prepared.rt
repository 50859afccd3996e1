//! What a command comes to before anything is run.

use crate::task::{Engine, Task};
use command_words::Places;
use due_parts::{Answer, Runnable};
use due_stages::StagedWork;

/// What a command comes to before anything is run.
#[derive(Debug, Drop)]
pub enum Prepared {
    /// An answer that is due.
    Given(Answer),
    /// A script to run, and for what.
    Run(Task, Runnable),
    /// A script with policies to run piece by piece and to list: with the places of the contexts or without, and by what.
    Stages(Places, Engine, StagedWork),
}
