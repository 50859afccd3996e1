//! The line of a context's host, as it is read.

ghost use Rattle.std.specs.Prelude.{IfOk, IfSome, IfNone};
ghost use Rattle.wave_base.specs.Names.{HasNames};
ghost use Rattle.path_text.specs.Found.{IsPath};
ghost use Rattle.checkpoint_store.specs.inner.Steps.{IsHostOf, IsPlaceLineOf, HasNoPlace};

use path_text::put_place;
use std::alloc::Global;
use wave_base::{Host, OutOfMemory, Path, Place, Shape};
use wave_text::{byte_of, parts_at};

// The host that a line can be written for.
fn host_in(line: &[u8]) -> Option<u8>
    ensures { IsHostOf line.now result }
{
    let (_, rest) = parts_at(line, b' ');
    let (_, host) = parts_at(rest, b' ');
    byte_of(host)
}

/// The place of the context at a path, where the line is written just so and the host is there.
pub(crate) fn place_of(
    alloc: Global,
    shape: &Shape,
    hosts: u8,
    path: &Path,
    line: &[u8],
) -> Result<Option<Place>, OutOfMemory>
    requires names { HasNames shape.now }
    requires path { IsPath shape.now path.now }
    ensures some { IfOk result (λ o. IfSome o (IsPlaceLineOf shape.now hosts path.now line.now)) }
    ensures none { IfOk result (λ o. IfNone o (HasNoPlace shape.now hosts path.now line.now)) }
{
    let Some(host) = host_in(line) else {
        return Ok(None);
    };
    if host >= hosts {
        return Ok(None);
    }
    let place = Place {
        path: *path,
        host: Host(host),
    };
    let mut written = Vec::new(alloc);
    put_place(alloc, &mut written, shape, &place)?;
    if written.as_slice() == line {
        Ok(Some(place))
    } else {
        Ok(None)
    }
}
