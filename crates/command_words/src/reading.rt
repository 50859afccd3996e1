//! The words of a command line, as they are read.

ghost use Rattle.std.specs.Prelude.{◌≡◌, List, ℕ, Some, IfOk, map, option_map};
ghost use Rattle.clap.specs.Words.{app_of, found_of, rows_of};
ghost use Rattle.command_words.specs.ByHand.{AreKept, by_hand};
ghost use Rattle.command_words.specs.Reading.{asked_by, command_line, command_of, places_of};

use crate::choice::choice_of;
use crate::command::{Command, Places};
use clap::{Arg, ArgAction, ArgMatches};
use std::alloc::Global;
use wave_base::{OutOfMemory, Words};

// A name, perhaps a number, and the options; no help and no version.
fn command_line<'a>(alloc: Global) -> Result<clap::Command<'a>, OutOfMemory>
    ensures { IfOk result (λ c. app_of c ≡ command_line) }
{
    let name = Arg::new(alloc, "command").required(true);
    let number = Arg::new(alloc, "number");
    let workers = Arg::new(alloc, "workers").long("workers");
    let schedule = Arg::new(alloc, "schedule").long("schedule");
    let map = Arg::new(alloc, "map")
        .long("map")
        .action(ArgAction::SetTrue);
    Ok(
        clap::Command::new(alloc, "eventwave")
            .no_binary_name(true)
            .disable_help_flag(true)
            .disable_version_flag(true)
            .arg(name)?
            .arg(number)?
            .arg(workers)?
            .arg(schedule)?
            .arg(map)?,
    )
}

fn places_of(map: Option<&str>) -> Places
    ensures { result ≡ places_of (option_map (λ w. w.now) map.entry) }
{
    match map {
        Some(word) if word == "true" => Places::Listed,
        _ => Places::Unlisted,
    }
}

// The command that the values ask for.
fn asked_by(matches: &ArgMatches) -> Option<Command>
    ensures { result ≡ asked_by (rows_of (found_of matches.now)) }
{
    let name = matches.get_str("command")?;
    choice_of(
        name,
        matches.get_str("number"),
        matches.get_str("workers"),
        matches.get_str("schedule"),
        places_of(matches.get_str("map")),
    )
}

// The same of words as texts.
fn command_in<'a>(alloc: Global, words: &'a [&'a str]) -> Result<Option<Command>, OutOfMemory>
    ensures { IfOk result (λ c. c ≡ command_of (map (λ w. w.now) words.entry.now)) }
{
    match command_line(alloc)?.try_get_matches_from(words) {
        Ok(matches) => Ok(asked_by(&matches)),
        Err(error) => match OutOfMemory::of_words(error.kind()) {
            Some(refused) => Err(refused),
            None => Ok(None),
        },
    }
}

// The words as texts.
fn texts(alloc: Global, words: &Words) -> Result<Vec<&str>, OutOfMemory>
    ensures { IfOk result (λ ts. map (λ w. w.now) ts.items ≡ words.now) }
{
    let mut texts = Vec::new(alloc);
    for i in 0..words.len() {
        texts.push(words.get(i).unwrap())?;
    }
    Ok(texts)
}

/// The command that the words ask for, where they ask for one.
pub fn command_of(alloc: Global, words: &Words) -> Result<Option<Command>, OutOfMemory>
    ensures { IfOk result (λ c. c ≡ command_of words.now) }
{
    let texts = texts(alloc, words)?;
    command_in(alloc, texts.as_slice())
}

/// Words that were read by hand ask for the same still.
pub fn words_by_hand_are_kept()
    ensures { AreKept by_hand }
{}
