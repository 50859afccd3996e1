//! A whole checkpoint, as it is read.

ghost use Rattle.std.specs.Prelude.{◌≤◌, length, IfOk};
ghost use Rattle.wave_base.specs.declared.limits.TheConstants.{PLACED_BYTES};
ghost use Rattle.wave_base.specs.Names.{HasNames};
ghost use Rattle.wave_base.specs.Shapes.{IsShape};
ghost use Rattle.checkpoint_store.specs.Points.{IsPoint};
ghost use Rattle.checkpoint_store.specs.Verdicts.{IsOnlyVerdict};

use crate::error::CheckError;
use crate::front::read_front;
use crate::point::Checkpoint;
use crate::shots::{read_shots, snapshot_parts};
use crate::tail::read_tail;
use std::alloc::Global;
use wave_base::{Shape, Start, Ticket};

/// The point of a checkpoint's text, or its first line that is not as it has to be. A text has one point, and a point one text.
pub fn read_checkpoint(alloc: Global, shape: &Shape, text: &[u8]) -> Result<Checkpoint, CheckError>
    requires shape { IsShape shape.now }
    requires names { HasNames shape.now }
    requires short { length text.now ≤ PLACED_BYTES }
    ensures verdict { IsOnlyVerdict shape.now text.now result }
    ensures fits { IfOk result (IsPoint shape.now) }
{
    let (numbers, rest) = read_front(alloc, shape, text)?;
    let before = 3 + shape.classes.len() as u32;
    let (snapshot, tail) = snapshot_parts(rest);
    let shots = read_shots(alloc, shape, snapshot, before)?;
    let behind = before + 1 + shots.len() as u32;
    let places = read_tail(alloc, shape, numbers.hosts, shots.as_slice(), tail, behind)?;
    let next = Ticket(numbers.next);
    Ok(Checkpoint {
        hosts: numbers.hosts,
        lines: numbers.lines,
        start: Start {
            shots,
            places,
            next,
        },
    })
}
