//! Which command a name and options ask for, and which of them go together.

ghost use Rattle.std.specs.Prelude.{◌≡◌, option_map};
ghost use Rattle.command_words.specs.Values.{number_of, schedule_of, workers_of};
ghost use Rattle.command_words.specs.Choice.{choice_of, crew_of, verb_of, given_value, command_with};

use crate::command::{Command, Crew, Places, Schedule};
use crate::values::{number_of, schedule_of, workers_of};

/// How many workers there are where the words don't say.
const DEFAULT_WORKERS: u8 = 4;

/// A command by its name.
#[derive(Clone, Copy)]
pub enum Verb {
    /// `run`: the script, by the machine.
    Run,
    /// `seq`: the script, by the plain evaluator.
    Seq,
    /// `trace`: as `run`, with the journal behind the listing.
    Trace,
    /// `save`: the point that a script leaves, as a checkpoint.
    Save,
    /// `resume`: a script from a checkpoint on.
    Resume,
    /// `replay`: a journal, label by label.
    Replay,
    /// `check`: whether the service is typed.
    Check,
    /// `print`: the service in canonical layout.
    Print,
    /// `code`: the service's code.
    Code,
    /// `gen`: the generated load of a number.
    Gen,
    /// `load`: a generated load, run and summed up.
    Load,
}

fn verb_of(word: &str) -> Option<Verb>
    ensures { result ≡ verb_of word.now }
{
    if word == "run" {
        Some(Verb::Run)
    } else if word == "seq" {
        Some(Verb::Seq)
    } else if word == "trace" {
        Some(Verb::Trace)
    } else if word == "save" {
        Some(Verb::Save)
    } else if word == "resume" {
        Some(Verb::Resume)
    } else if word == "replay" {
        Some(Verb::Replay)
    } else if word == "check" {
        Some(Verb::Check)
    } else if word == "print" {
        Some(Verb::Print)
    } else if word == "code" {
        Some(Verb::Code)
    } else if word == "gen" {
        Some(Verb::Gen)
    } else if word == "load" {
        Some(Verb::Load)
    } else {
        None
    }
}

fn crew_of(workers: Option<u8>, schedule: Option<Schedule>) -> Crew
    ensures { result ≡ crew_of workers schedule }
{
    Crew {
        workers: workers.unwrap_or(DEFAULT_WORKERS),
        schedule,
    }
}

// What is given with a command, where its row has room for all that is given.
fn command_with(
    verb: Verb,
    number: Option<u64>,
    workers: Option<u8>,
    schedule: Option<Schedule>,
    places: Places,
) -> Option<Command>
    ensures { result ≡ command_with verb number workers schedule places }
{
    match (verb, number, workers, schedule, places) {
        (Verb::Run, None, _, _, _) => Some(Command::Run(places, crew_of(workers, schedule))),
        (Verb::Seq, None, None, None, _) => Some(Command::Seq(places)),
        (Verb::Trace, None, _, _, _) => Some(Command::Trace(places, crew_of(workers, schedule))),
        (Verb::Save, None, _, None, Places::Unlisted) => {
            Some(Command::Save(crew_of(workers, None)))
        }
        (Verb::Resume, None, _, _, _) => {
            Some(Command::Resume(places, crew_of(workers, schedule)))
        }
        (Verb::Replay, Some(n), _, None, Places::Unlisted) => {
            Some(Command::Replay(n, crew_of(workers, None)))
        }
        (Verb::Check, None, None, None, Places::Unlisted) => Some(Command::Check),
        (Verb::Print, None, None, None, Places::Unlisted) => Some(Command::Print),
        (Verb::Code, None, None, None, Places::Unlisted) => Some(Command::Code),
        (Verb::Gen, Some(n), None, None, Places::Unlisted) => Some(Command::Gen(n)),
        (Verb::Load, Some(n), _, None, Places::Unlisted) => {
            Some(Command::Load(n, crew_of(workers, None)))
        }
        _ => None,
    }
}

fn given_number(word: Option<&str>) -> Option<Option<u64>>
    ensures { result ≡ given_value number_of (option_map (λ w. w.now) word.entry) }
{
    match word {
        Some(word) => Some(Some(number_of(word)?)),
        None => Some(None),
    }
}

fn given_workers(word: Option<&str>) -> Option<Option<u8>>
    ensures { result ≡ given_value workers_of (option_map (λ w. w.now) word.entry) }
{
    match word {
        Some(word) => Some(Some(workers_of(word)?)),
        None => Some(None),
    }
}

fn given_schedule(word: Option<&str>) -> Option<Option<Schedule>>
    ensures { result ≡ given_value schedule_of (option_map (λ w. w.now) word.entry) }
{
    match word {
        Some(word) => Some(Some(schedule_of(word)?)),
        None => Some(None),
    }
}

/// The command of this name with what is given, where each word stands for something and the command takes it.
pub fn choice_of(
    name: &str,
    number: Option<&str>,
    workers: Option<&str>,
    schedule: Option<&str>,
    places: Places,
) -> Option<Command>
    ensures { result ≡ choice_of name.now (option_map (λ w. w.now) number.entry) (option_map (λ w. w.now) workers.entry)
        (option_map (λ w. w.now) schedule.entry) places }
{
    let verb = verb_of(name)?;
    let number = given_number(number)?;
    let workers = given_workers(workers)?;
    let schedule = given_schedule(schedule)?;
    command_with(verb, number, workers, schedule, places)
}
