//! A whole snapshot, as it is written.

ghost use Rattle.std.specs.Prelude.{IfOk};
ghost use Rattle.snapshot_text.specs.Shots.{AreShots};
ghost use Rattle.snapshot_text.specs.SnapshotTexts.{IsSnapshotText};

use path_text::put_shot;
use std::alloc::Global;
use wave_base::{OutOfMemory, Seq, Shape, Shot};
use wave_text::put_head;

/// The text of a snapshot, which `read_snapshot` reads back.
pub fn write_snapshot(
    alloc: Global,
    shape: &Shape,
    shots: &Seq<Shot>,
) -> Result<Seq<u8>, OutOfMemory>
    requires { AreShots shape.now shots.now }
    ensures { IfOk result (λ text. IsSnapshotText shape.now text shots.now) }
{
    let shots = shots.as_slice();
    let mut out = Vec::new(alloc);
    put_head(alloc, &mut out, b"snapshot ", shots.len() as u64)?;
    out.push(b'\n')?;
    for shot in shots {
        put_shot(alloc, &mut out, shape, shot)?;
        out.push(b'\n')?;
    }
    Ok(Seq::from_vec(out))
}
