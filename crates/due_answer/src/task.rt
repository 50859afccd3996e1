//! What a command runs a script for, and by what.

ghost use Rattle.std.specs.Prelude.{◌≡◌};
ghost use Rattle.due_parts.specs.Runs.{rule_by};
ghost use Rattle.due_answer.specs.Tasks.{engine_of, workers_of};

use command_words::{Crew, Schedule};
use due_parts::Telling;
use wave_drives::PickRule;

/// What runs a script.
#[derive(Clone, Copy, Debug, PartialEq, Eq)]
pub enum Engine {
    /// The plain evaluator.
    Evaluator,
    /// The machine on one thread: how many workers it has, and the rule that picks its labels.
    Drive(u8, PickRule),
    /// So many workers, each in a thread of its own.
    Workers(u8),
}

/// A script that is to be run: by what, and what is told of it.
#[derive(Clone, Copy, Debug, PartialEq, Eq)]
pub struct Task {
    /// What is told.
    pub telling: Telling,
    /// What runs it.
    pub engine: Engine,
}

impl Engine {
    /// What a crew runs a script by: a drive where it has a schedule, and else its workers.
    pub fn of_crew(crew: Crew) -> Engine
        ensures { result ≡ engine_of crew }
    {
        match crew.schedule {
            Some(schedule) => Engine::Drive(crew.workers, rule_by(schedule)),
            None => Engine::Workers(crew.workers),
        }
    }

    /// How many workers it has: one, where the evaluator runs it.
    pub fn workers(&self) -> u8
        ensures { result ≡ workers_of self.now }
    {
        match self {
            Engine::Evaluator => 1,
            Engine::Drive(workers, _) | Engine::Workers(workers) => *workers,
        }
    }
}

fn rule_by(schedule: Schedule) -> PickRule
    ensures { result ≡ rule_by schedule }
{
    match schedule {
        Schedule::Seed(seed) => PickRule::Seed(seed),
        Schedule::Oldest => PickRule::Oldest,
        Schedule::Newest => PickRule::Newest,
        Schedule::Movers => PickRule::Movers,
        Schedule::MailLast => PickRule::MailLast,
    }
}
