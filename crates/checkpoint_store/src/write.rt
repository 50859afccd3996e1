//! A whole checkpoint, as it is written.

ghost use Rattle.std.specs.Prelude.{◌≡◌, ◌++◌, IfOk, OnOk, map};
ghost use Rattle.path_text.specs.PlaceTexts.{place_text};
ghost use Rattle.checkpoint_store.specs.CheckpointTexts.{lines_text, class_text, front_text, tail_text, IsCheckpointText};
ghost use Rattle.checkpoint_store.specs.Points.{IsPoint};

use crate::class::{put_class, put_count};
use crate::numbers::{Numbers, put_numbers};
use crate::point::Checkpoint;
use path_text::put_place;
use snapshot_text::{values_fit, write_snapshot};
use std::alloc::Global;
use wave_base::{ClassInfo, OutOfMemory, Place, Seq, Shape};
use wave_text::put_bytes;

// Appends a line for each class.
fn put_classes(out: &mut Vec<u8>, shape: &Shape, classes: &[ClassInfo]) -> Result<(), OutOfMemory>
    ensures { OnOk result (out.new.items ≡ out.old.items ++ lines_text (map (class_text shape.now) classes.now)) }
{
    for class in classes {
        put_class(out, shape, class)?;
        out.push(b'\n')?;
    }
    Ok(())
}

// Appends the lines before the snapshot.
fn put_front(
    alloc: Global,
    out: &mut Vec<u8>,
    shape: &Shape,
    numbers: Numbers,
) -> Result<(), OutOfMemory>
    ensures { OnOk result (out.new.items ≡ out.old.items ++ front_text shape.now numbers) }
{
    put_bytes(out, b"checkpoint 1\n")?;
    put_numbers(alloc, out, numbers)?;
    put_bytes(out, b"\n")?;
    put_count(alloc, out, shape)?;
    put_bytes(out, b"\n")?;
    put_classes(out, shape, shape.classes.as_slice())
}

// Appends a line for each place.
fn put_places(
    alloc: Global,
    out: &mut Vec<u8>,
    shape: &Shape,
    places: &[Place],
) -> Result<(), OutOfMemory>
    ensures { OnOk result (out.new.items ≡ out.old.items ++ lines_text (map (place_text shape.now) places.now)) }
{
    for place in places {
        put_place(alloc, out, shape, place)?;
        out.push(b'\n')?;
    }
    Ok(())
}

/// The text of a checkpoint, which `read_checkpoint` reads back as that point.
pub fn write_checkpoint(
    alloc: Global,
    shape: &Shape,
    point: &Checkpoint,
) -> Result<Seq<u8>, OutOfMemory>
    requires { IsPoint shape.now point.now }
    ensures { IfOk result (λ text. IsCheckpointText shape.now text point.now) }
{
    values_fit(point.start.shots.as_slice());
    let numbers = Numbers {
        hosts: point.hosts,
        lines: point.lines,
        next: point.start.next.0,
    };
    let mut out = Vec::new(alloc);
    put_front(alloc, &mut out, shape, numbers)?;
    let snapshot = write_snapshot(alloc, shape, &point.start.shots)?;
    put_bytes(&mut out, snapshot.as_slice())?;
    put_places(alloc, &mut out, shape, point.start.places.as_slice())?;
    put_bytes(&mut out, b"end\n")?;
    Ok(Seq::from_vec(out))
}
