//! The lines before the snapshot, as they are read.

ghost use Rattle.std.specs.Prelude.{◌≡◌, ◌<◌, ◌^◌, ◌++◌, length, map, IfOk, IfErr};
ghost use Rattle.wave_base.specs.declared.shape.Shape.{Shape};
ghost use Rattle.wave_text.specs.Splits.{IsSplit};
ghost use Rattle.checkpoint_store.specs.CheckpointTexts.{count_text, class_text, lines_text};
ghost use Rattle.checkpoint_store.specs.Dues.{Counts, Classes, ClassOf, front_dues};
ghost use Rattle.checkpoint_store.specs.Verdicts.{HasFront};
ghost use Rattle.checkpoint_store.specs.inner.Steps.{BeginsWithNumbers, IsRefusal, StopsWith};

use crate::class::{put_class, put_count};
use crate::error::CheckError;
use crate::form::Form;
use crate::numbers::{Numbers, numbers_of};
use crate::step::{read_line, refusal};
use std::alloc::Global;
use wave_base::{ClassInfo, Shape};
use wave_text::split_at;

// The numbers of the second line, and what stands behind it.
fn read_numbers(alloc: Global, text: &[u8]) -> Result<(Numbers, &[u8]), CheckError>
    ensures ok { IfOk result (λ x. BeginsWithNumbers text.now x.0 x.1.now) }
    ensures err { IfErr result (λ e. (shape : Shape) → IsRefusal shape 0 Counts text.now 2 e) }
{
    let Some((line, rest)) = split_at(text, b'\n') else {
        return Err(refusal(alloc, Form::Numbers, text, 2));
    };
    match numbers_of(alloc, line)? {
        Some(numbers) => Ok((numbers, rest)),
        None => Err(refusal(alloc, Form::Numbers, text, 2)),
    }
}

// What stands behind the line that tells how many classes there are.
fn read_count<'t>(alloc: Global, shape: &Shape, text: &'t [u8]) -> Result<&'t [u8], CheckError>
    ensures ok { IfOk result (λ rest. IsSplit 10 text.now (count_text shape.now) rest.now) }
    ensures err { IfErr result (λ e. IsRefusal shape.now 0 Classes text.now 3 e) }
{
    let mut count = Vec::new(alloc);
    put_count(alloc, &mut count, shape)?;
    read_line(alloc, Form::Count, count.as_slice(), text, 3)
}

// What stands behind the line of a class.
fn read_class<'t>(
    alloc: Global,
    shape: &Shape,
    class: &ClassInfo,
    text: &'t [u8],
    number: u32,
) -> Result<&'t [u8], CheckError>
    ensures ok { IfOk result (λ rest. IsSplit 10 text.now (class_text shape.now class.now) rest.now) }
    ensures err { IfErr result (λ e. IsRefusal shape.now 0 (ClassOf class.now) text.now number e) }
{
    let mut written = Vec::new(alloc);
    put_class(&mut written, shape, class)?;
    read_line(alloc, Form::Class, written.as_slice(), text, number)
}

// What stands behind the lines of the classes.
fn read_classes<'t>(alloc: Global, shape: &Shape, text: &'t [u8]) -> Result<&'t [u8], CheckError>
    requires { length shape.now.classes < 2 ^ 16 }
    ensures ok { IfOk result (λ rest. text.now ≡ lines_text (map (class_text shape.now) shape.now.classes) ++ rest.now) }
    ensures err { IfErr result (StopsWith shape.now 0 (map (λ c. ClassOf c) shape.now.classes) text.now 3) }
{
    let classes = shape.classes.as_slice();
    let mut number = 4u32;
    let mut rest = text;
    for class in classes {
        rest = read_class(alloc, shape, class, rest, number)?;
        number += 1;
    }
    Ok(rest)
}

/// The numbers of the front, and what stands behind it.
pub(crate) fn read_front<'t>(
    alloc: Global,
    shape: &Shape,
    text: &'t [u8],
) -> Result<(Numbers, &'t [u8]), CheckError>
    requires { length shape.now.classes < 2 ^ 16 }
    ensures ok { IfOk result (λ x. HasFront shape.now x.0 text.now x.1.now) }
    ensures err { IfErr result (StopsWith shape.now 0 (front_dues shape.now) text.now 0) }
{
    let rest = read_line(alloc, Form::Word, b"checkpoint 1", text, 1)?;
    let (numbers, rest) = read_numbers(alloc, rest)?;
    let rest = read_count(alloc, shape, rest)?;
    let rest = read_classes(alloc, shape, rest)?;
    Ok((numbers, rest))
}
