//! What a ticket is given for.

ghost use Rattle.std.specs.Prelude.{◌≡◌};
ghost use Rattle.head_tickets.specs.Heads.{line_of};

use wave_base::{Call, Host, Line, Path};

/// What a ticket stands for.
#[derive(PartialEq, Eq, Debug, Drop)]
pub enum Job {
    /// An event of the service, requested or created.
    Event(Call),
    /// A move of the context at the path to the host.
    Move(Path, Host),
    /// A list of all contexts.
    Snapshot,
}

impl Job {
    /// The job that a line asks for.
    pub fn of_line(line: Line) -> Job
        ensures { line_of result ≡ line }
    {
        match line {
            Line::Request(call) => Job::Event(call),
            Line::Move(path, host) => Job::Move(path, host),
            Line::Snapshot => Job::Snapshot,
        }
    }
}
