//! A whole snapshot, as it is read.

ghost use Rattle.std.specs.Prelude.{◌≡◌, ◌≤◌, length};
ghost use Rattle.wave_base.specs.declared.limits.TheConstants.{PLACED_BYTES};
ghost use Rattle.wave_base.specs.Names.{HasNames};
ghost use Rattle.wave_base.specs.Shapes.{IsShape};
ghost use Rattle.snapshot_text.specs.Verdicts.{IsOnlyVerdict};
ghost use Rattle.snapshot_text.specs.inner.Tails.{AreRead};

use crate::error::ShotError;
use crate::line::read_line;
use path_text::ClassNames;
use std::alloc::Global;
use wave_base::{Seq, Shape, Shot};
use wave_text::{behind_head, split_at};

// The shots of the lines behind a head, or the first of these lines that has a fault.
fn read_shots(alloc: Global, classes: &ClassNames<'_>, tail: &[u8]) -> Result<Seq<Shot>, ShotError>
    requires shape { IsShape classes.now }
    requires names { HasNames classes.now }
    requires short { length tail.now ≤ PLACED_BYTES }
    ensures { AreRead classes.now tail.now result }
{
    let mut shots = Seq::new(alloc);
    let mut number = 1u32;
    let mut rest = tail;
    while !rest.is_empty() {
        let Some((line, after)) = split_at(rest, b'\n') else {
            return Err(ShotError::Syntax { line: number + 1 });
        };
        match read_line(alloc, classes, shots.as_slice(), number + 1, line) {
            Ok(shot) => shots.add(shot)?,
            Err(error) => return Err(error),
        }
        rest = after;
        number += 1;
    }
    Ok(shots)
}

/// The shots of a snapshot's text, or its first line that is not as it has to be.
pub fn read_snapshot(alloc: Global, shape: &Shape, text: &[u8]) -> Result<Seq<Shot>, ShotError>
    requires shape { IsShape shape.now }
    requires names { HasNames shape.now }
    requires short { length text.now ≤ PLACED_BYTES }
    ensures { IsOnlyVerdict shape.now text.now result }
{
    let Some(tail) = behind_head(alloc, b"snapshot ", text)? else {
        return Err(ShotError::Syntax { line: 1 });
    };
    if tail.is_empty() {
        return Err(ShotError::Order { line: 1 });
    }
    let classes = ClassNames::of(alloc, shape)?;
    read_shots(alloc, &classes, tail)
}
