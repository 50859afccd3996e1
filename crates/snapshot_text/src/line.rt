//! The next line of a snapshot, as it is read.

ghost use Rattle.std.specs.Prelude.{◌≡◌, true, [], List, IfOk, IfErr};
ghost use Rattle.wave_base.specs.Names.{HasNames};
ghost use Rattle.wave_base.specs.Shapes.{IsShape};
ghost use Rattle.wave_base.specs.declared.shot.Shot.{Shot};
ghost use Rattle.snapshot_text.specs.Shots.{are_in_order, paths_of};
ghost use Rattle.snapshot_text.specs.Verdicts.{IsLineOfNone};
ghost use Rattle.snapshot_text.specs.inner.Tails.{IsNextLine, IsOnlyFault, IsRefusal};

use crate::error::{Fault, ShotError, error_at};
use crate::form::form_of;
use crate::order::comes_next;
use crate::shot::shot_of;
use path_text::{ClassNames, resolve_steps};
use std::alloc::Global;
use wave_base::{OutOfMemory, Shot};

// What is wrong with a line that is none of a shot.
fn fault_of(alloc: Global, classes: &ClassNames<'_>, line: &[u8]) -> Result<Fault, OutOfMemory>
    requires shape { IsShape classes.now }
    requires none { IsLineOfNone classes.now line.now }
    ensures { IfOk result (λ f. (before : List Shot) → IsOnlyFault classes.now before line.now f) }
{
    let Some(steps) = form_of(alloc, line)? else {
        return Ok(Fault::Syntax);
    };
    match resolve_steps(classes, steps.as_slice()) {
        Some(_) => Ok(Fault::Field),
        None => Ok(Fault::Class),
    }
}

/// The shot of the next line, or what is wrong with that line, which has this number.
pub(crate) fn read_line(
    alloc: Global,
    classes: &ClassNames<'_>,
    before: &[Shot],
    number: u32,
    line: &[u8],
) -> Result<Shot, ShotError>
    requires shape { IsShape classes.now }
    requires names { HasNames classes.now }
    requires order { are_in_order [] (paths_of before.now) ≡ true }
    ensures ok { IfOk result (IsNextLine classes.now before.now line.now) }
    ensures err { IfErr result (IsRefusal classes.now before.now line.now number) }
{
    let Some(shot) = shot_of(alloc, classes, line)? else {
        let fault = fault_of(alloc, classes, line)?;
        return Err(error_at(fault, number));
    };
    if comes_next(before, &shot.path) {
        Ok(shot)
    } else {
        Err(ShotError::Order { line: number })
    }
}
