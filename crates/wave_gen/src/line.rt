//! A drawn line of a load.

ghost use Rattle.std.specs.Prelude.{◌≡◌, ◌++◌, ◌<◌, ◌≤◌, OnOk};
ghost use Rattle.std.specs.Fmt.{decimal};
ghost use Rattle.wave_base.specs.Draws.{after};
ghost use Rattle.wave_gen.specs.Lines.{choice, draws_for, line_from, line_text};

use std::alloc::Global;
use wave_base::{Draws, OutOfMemory};
use wave_text::{put_bytes, put_number};

// How many halls a load speaks of, and how many stalls of one.
const HALLS: u64 = 24;

const STALLS: u64 = 25;

const HOSTS: u64 = 4;

// How much is bought at most.
const MOST: u64 = 9;

/// A line of a load's script.
#[derive(Clone, Copy, Debug, PartialEq, Eq)]
pub enum Line {
    /// The hall moves to the host.
    Move { hall: u64, host: u64 },
    /// A pair is taken in the hall.
    Pair { hall: u64 },
    /// The end of a batch.
    Settle,
    /// So much is bought in the hall, at the stall.
    Buy { hall: u64, stall: u64, count: u64 },
}

impl Line {
    /// The line that the next draws say.
    pub fn draw(draws: &mut Draws) -> Line
        ensures line { result ≡ line_from draws.old.state }
        ensures state { draws.new.state ≡ after (draws_for (choice draws.old.state)) draws.old.state }
    {
        match draws.draw_below(20) {
            0..=2 => Line::Move {
                hall: draws.draw_below(HALLS),
                host: draws.draw_below(HOSTS),
            },
            3 => Line::Pair {
                hall: draws.draw_below(HALLS),
            },
            4 => Line::Settle,
            _ => Line::Buy {
                hall: draws.draw_below(HALLS),
                stall: draws.draw_below(STALLS),
                count: draws.draw_below(MOST) + 1,
            },
        }
    }

    /// Appends the line, with its line feed.
    pub fn put(&self, alloc: Global, out: &mut Vec<u8>) -> Result<(), OutOfMemory>
        ensures { OnOk result (out.new.items ≡ out.old.items ++ line_text self.now) }
    {
        match *self {
            Line::Move { hall, host } => {
                put_counted(alloc, out, b"move /Hall[", hall)?;
                put_counted(alloc, out, b"] to ", host)?;
                put_bytes(out, b"\n")
            }
            Line::Pair { hall } => {
                put_counted(alloc, out, b"request pair(", hall)?;
                put_bytes(out, b")\n")
            }
            Line::Settle => put_bytes(out, b"settle\n"),
            Line::Buy { hall, stall, count } => {
                put_counted(alloc, out, b"request buy(", hall)?;
                put_counted(alloc, out, b",", stall)?;
                put_counted(alloc, out, b",", count)?;
                put_bytes(out, b")\n")
            }
        }
    }
}

// Appends bytes, and a number behind them.
fn put_counted(alloc: Global, out: &mut Vec<u8>, before: &[u8], n: u64) -> Result<(), OutOfMemory>
    ensures { OnOk result (out.new.items ≡ (out.old.items ++ before.now) ++ decimal n) }
{
    put_bytes(out, before)?;
    put_number(alloc, out, n)
}
