//! Words of command lines, with what they ask for.

use command_words::{Command, Crew, Places, Schedule, command_of};
use std::alloc::Global;
use std::process::Abort;
use std::test::Fail;
use tests_services::words;
use wave_base::{OutOfMemory, Words};

const FOUR: Crew = Crew {
    workers: 4,
    schedule: None,
};

const SIXTEEN: Crew = Crew {
    workers: 16,
    schedule: None,
};

/// Words, each with the command that they ask for.
const COMMANDS: [(&str, Command); 15] = [
    ("run", Command::Run(Places::Unlisted, FOUR)),
    ("seq", Command::Seq(Places::Unlisted)),
    ("--map seq", Command::Seq(Places::Listed)),
    ("trace", Command::Trace(Places::Unlisted, FOUR)),
    ("check", Command::Check),
    ("print", Command::Print),
    ("code", Command::Code),
    ("gen 7", Command::Gen(7)),
    ("gen -- 7", Command::Gen(7)),
    ("gen 00000000000000000007", Command::Gen(7)),
    ("gen 18446744073709551615", Command::Gen(u64::MAX)),
    ("load 7", Command::Load(7, FOUR)),
    ("load --workers 16 7", Command::Load(7, SIXTEEN)),
    ("-- run", Command::Run(Places::Unlisted, FOUR)),
    ("run --", Command::Run(Places::Unlisted, FOUR)),
];

/// Words that ask for a run without places, each with its crew.
const RUNS: [(&str, u8, Option<Schedule>); 9] = [
    ("run --workers=4", 4, None),
    ("run --workers 004", 4, None),
    ("--workers 1 run", 1, None),
    ("--workers=2 -- run", 2, None),
    ("run --schedule=0 --workers 1", 1, Some(Schedule::Seed(0))),
    ("run --schedule oldest", 4, Some(Schedule::Oldest)),
    ("run --schedule newest", 4, Some(Schedule::Newest)),
    ("run --schedule movers", 4, Some(Schedule::Movers)),
    ("run --schedule maillast", 4, Some(Schedule::MailLast)),
];

const BY_SEED: Crew = Crew {
    workers: 4,
    schedule: Some(Schedule::Seed(0)),
};

const NEWEST_OF_TWO: Crew = Crew {
    workers: 2,
    schedule: Some(Schedule::Newest),
};

/// Words of other commands with a crew.
const CREWS: [(&str, Command); 4] = [
    (
        "--map run --workers=16",
        Command::Run(Places::Listed, SIXTEEN),
    ),
    (
        "--map trace --workers 16",
        Command::Trace(Places::Listed, SIXTEEN),
    ),
    (
        "trace --schedule 0",
        Command::Trace(Places::Unlisted, BY_SEED),
    ),
    (
        "trace --schedule=newest --workers=2",
        Command::Trace(Places::Unlisted, NEWEST_OF_TWO),
    ),
];

/// Words that ask for none; an empty text is one empty word.
const REFUSED: [&str; 43] = [
    "",
    "walk",
    "Run",
    "Trace",
    "traced",
    "trace 7",
    "trace --workers 0",
    "help",
    "run run",
    "run 7",
    "gen",
    "load",
    "gen ",
    "gen x",
    "gen -7",
    "gen -- -7",
    "gen +7",
    "gen 7 7",
    "gen 18446744073709551616",
    "gen 000000000000000000007",
    "gen 7 --map",
    "load 7 --map",
    "load 7 --schedule 1",
    "seq --workers 2",
    "check --map",
    "run --map --map",
    "run --map=true",
    "run -w",
    "run -m",
    "run --help",
    "--help",
    "--version",
    "run --work 4",
    "run --workers",
    "run --workers=",
    "run --workers -",
    "run --workers 0",
    "run --workers 17",
    "run --workers -- 4",
    "run --workers 2 --workers 2",
    "run --schedule Oldest",
    "run --schedule -1",
    "-- run --map",
];

// These words ask for this. Commands are compared here alone, not in each test.
fn asks(
    rt: &impl Abort,
    alloc: Global,
    text: &str,
    wanted: Option<Command>,
) -> Result<(), OutOfMemory> {
    let asked = command_of(alloc, &words(alloc, text)?)?;
    assert_eq!(rt; asked, wanted, "at {text}");
    Ok(())
}

#[test]
fn commands_are_read(rt: HostRuntime) -> Result<(), Fail> {
    let alloc = rt.alloc();
    for (text, command) in &COMMANDS {
        asks(&rt, alloc, text, Some(*command))?;
    }
    Ok(())
}

#[test]
fn other_words_are_refused(rt: HostRuntime) -> Result<(), Fail> {
    let alloc = rt.alloc();
    for text in &REFUSED {
        asks(&rt, alloc, text, None)?;
    }
    assert!(rt; command_of(alloc, &Words::new(alloc))?.is_none());
    Ok(())
}

#[test]
fn crews_are_read(rt: HostRuntime) -> Result<(), Fail> {
    let alloc = rt.alloc();
    for (text, workers, schedule) in &RUNS {
        let crew = Crew {
            workers: *workers,
            schedule: *schedule,
        };
        let run = Command::Run(Places::Unlisted, crew);
        asks(&rt, alloc, text, Some(run))?;
    }
    for (text, command) in &CREWS {
        asks(&rt, alloc, text, Some(*command))?;
    }
    Ok(())
}
