//! The lines behind the snapshot, as they are read.

ghost use Rattle.std.specs.Prelude.{◌+◌, ◌<◌, ◌^◌, [], length, codes, All, OnOk, IfOk, IfErr};
ghost use Rattle.wave_base.specs.Names.{HasNames};
ghost use Rattle.wave_text.specs.Splits.{IsSplit};
ghost use Rattle.snapshot_text.specs.Shots.{IsShot, paths_of};
ghost use Rattle.checkpoint_store.specs.Verdicts.{HasTail};
ghost use Rattle.checkpoint_store.specs.inner.Steps.{IsLastRefusal, IsTailRefusal};

use crate::error::CheckError;
use crate::form::Form;
use crate::place::place_of;
use crate::step::{read_line, refusal};
use std::alloc::Global;
use wave_base::{Place, Seq, Shape, Shot};
use wave_text::split_at;

// Whether the last line begins a text, and nothing stands behind it. So many lines stand before.
fn read_last(alloc: Global, text: &[u8], before: u32) -> Result<(), CheckError>
    requires { before < 2 ^ 31 }
    ensures ok { OnOk result (IsSplit 10 text.now (codes "end") []) }
    ensures err { IfErr result (IsLastRefusal text.now before) }
{
    let rest = read_line(alloc, Form::Word, b"end", text, before + 1)?;
    if rest.is_empty() {
        Ok(())
    } else {
        Err(CheckError::Syntax { line: before + 2 })
    }
}

/// The places of these contexts, behind which the last line stands and then nothing. So many lines stand before.
pub(crate) fn read_tail(
    alloc: Global,
    shape: &Shape,
    hosts: u8,
    shots: &[Shot],
    text: &[u8],
    before: u32,
) -> Result<Seq<Place>, CheckError>
    requires names { HasNames shape.now }
    requires shots { All (IsShot shape.now) shots.now }
    requires few { before + length shots.now < 2 ^ 31 }
    ensures ok { IfOk result (λ places. HasTail shape.now hosts (paths_of shots.now) places text.now []) }
    ensures err { IfErr result (IsTailRefusal shape.now hosts (paths_of shots.now) text.now before) }
{
    let mut places = Seq::new(alloc);
    let mut number = before;
    let mut rest = text;
    for shot in shots {
        number += 1;
        let Some((line, after)) = split_at(rest, b'\n') else {
            return Err(refusal(alloc, Form::Place, rest, number));
        };
        match place_of(alloc, shape, hosts, &shot.path, line)? {
            Some(place) => places.add(place)?,
            None => return Err(refusal(alloc, Form::Place, rest, number)),
        }
        rest = after;
    }
    match read_last(alloc, rest, number) {
        Ok(()) => Ok(places),
        Err(error) => Err(error),
    }
}
