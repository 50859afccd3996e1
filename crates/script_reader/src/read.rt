//! A whole script, as it is read.

ghost use Rattle.std.specs.Prelude.{◌≡◌, ◌+◌, ◌≤◌, ◌<◌, ◌^◌, length, IfOk, IfErr, OnOk};
ghost use Rattle.wave_base.specs.declared.limits.TheConstants.{PLACED_BYTES};
ghost use Rattle.wave_base.specs.Scripts.{IsScript};
ghost use Rattle.wave_base.specs.Shapes.{IsShape};
ghost use Rattle.script_reader.specs.Judged.{nothing_earlier, script_earlier};
ghost use Rattle.script_reader.specs.Scripts.{IsAnswer};
ghost use Rattle.script_reader.specs.inner.Steps.{MayRead, IsStep, IsStop};

use crate::earlier::Earlier;
use crate::error::ScriptError;
use crate::judge::judgment;
use crate::named::NamedShape;
use crate::progress::Progress;
use crate::refusal::error_of_refusal;
use crate::said::said_by;
use std::alloc::Global;
use wave_base::{EVENT_LINES, HOSTS, Script, Shape};
use wave_text::first_line;

// Takes one line, which has this number.
fn take_line(
    alloc: Global,
    shape: &NamedShape<'_>,
    progress: &mut Progress,
    line: &[u8],
    number: u32,
) -> Result<(), ScriptError>
    requires shape { IsShape shape.now }
    requires few { progress.old.events + 1 < 2 ^ 64 }
    ensures ok { OnOk result (IsStep shape.now line.now progress.old progress.new) }
    ensures err { IfErr result (IsStop shape.now line.now progress.old number) }
{
    let said = said_by(alloc, line)?;
    match judgment(alloc, shape, progress, &said) {
        Ok(taken) => {
            progress.take(alloc, taken)?;
            Ok(())
        }
        Err(refusal) => Err(error_of_refusal(refusal, number)),
    }
}

// Reads a text line by line, after what was said before.
fn read_lines(
    alloc: Global,
    shape: &NamedShape<'_>,
    text: &[u8],
    earlier: Earlier,
) -> Result<Script, ScriptError>
    requires { MayRead shape.now earlier text.now }
    ensures answer { IsAnswer shape.now earlier text.now result }
    ensures fits { IfOk result (IsScript shape.now) }
{
    let mut progress = Progress::new(alloc, earlier);
    let mut number = 0u32;
    let mut rest = text;
    loop {
        let (line, after) = first_line(rest);
        number += 1;
        take_line(alloc, shape, &mut progress, line, number)?;
        let Some(after) = after else {
            break;
        };
        rest = after;
    }
    Ok(progress.into_script()?)
}

// The script that a text stands for, after what was said before.
fn read_after(
    alloc: Global,
    shape: &Shape,
    text: &[u8],
    earlier: Earlier,
) -> Result<Script, ScriptError>
    requires { MayRead shape.now earlier text.now }
    ensures answer { IsAnswer shape.now earlier text.now result }
    ensures fits { IfOk result (IsScript shape.now) }
{
    let named = NamedShape::of(alloc, shape)?;
    read_lines(alloc, &named, text, earlier)
}

/// The script that a text stands for, or the first line that is refused with its fault.
pub fn read_script(alloc: Global, shape: &Shape, text: &[u8]) -> Result<Script, ScriptError>
    requires shape { IsShape shape.now }
    requires short { length text.now ≤ PLACED_BYTES }
    ensures answer { IsAnswer shape.now nothing_earlier text.now result }
    ensures fits { IfOk result (IsScript shape.now) }
{
    let earlier = Earlier {
        hosts: 1,
        begun: false,
        events: 0,
    };
    read_after(alloc, shape, text, earlier)
}

/// The same after a script with so many hosts and event lines: each `hosts` line is late, and these lines are counted.
pub fn read_script_at(
    alloc: Global,
    shape: &Shape,
    text: &[u8],
    hosts: u8,
    lines: u32,
) -> Result<Script, ScriptError>
    requires shape { IsShape shape.now }
    requires short { length text.now ≤ PLACED_BYTES }
    requires some_host { 1 ≤ hosts }
    requires few_hosts { hosts ≤ HOSTS }
    requires few_lines { lines ≤ EVENT_LINES }
    ensures answer { IsAnswer shape.now (script_earlier hosts lines) text.now result }
    ensures fits { IfOk result (IsScript shape.now) }
{
    let earlier = Earlier {
        hosts,
        begun: true,
        events: lines as usize,
    };
    read_after(alloc, shape, text, earlier)
}
