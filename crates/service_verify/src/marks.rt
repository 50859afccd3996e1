//! Which fields of each class are read from below.

ghost use Rattle.std.specs.Prelude.{◌≡◌, ◌&&◌, ◌==◌, Some, map, option_map, slice_get, IfOk};
ghost use Rattle.service_verify.specs.Points.{point_in};
ghost use Rattle.service_verify.specs.Reads.{reads_at, code_reads};
ghost use Rattle.service_verify.specs.inner.Surveys.{IsMarked, unmarked_fields};

use crate::asks::ancestor;
use crate::point::Point;
use service_code::Instr;
use std::alloc::Global;
use wave_base::{Class, OutOfMemory, Seq, Shape};

/// For each class, and each of its fields, no mark.
pub fn unmarked_fields(alloc: Global, shape: &Shape) -> Result<Vec<Seq<bool>>, OutOfMemory>
    ensures { IfOk result (λ marks. marks.items ≡ map unmarked_fields shape.now.classes) }
{
    let mut marks = Vec::new(alloc);
    for class in shape.classes.as_slice() {
        let fields = vec![in alloc; false; class.fields.len()]?;
        marks.push(Seq::from_vec(fields))?;
    }
    Ok(marks)
}

/// Marks what the instructions of a code read, which have these points.
pub fn mark_reads(
    shape: &Shape,
    code: &[Instr],
    points: &[Option<Point>],
    marks: &mut Vec<Seq<bool>>,
)
    ensures { IsMarked marks.old.items (λ c f. code_reads shape.now c f code.now points.now) marks.new.items }
{
    for (n, instr) in code.iter().enumerate() {
        mark_read(shape, *instr, point_at(points, n), marks);
    }
}

// The point of an instruction.
fn point_at(points: &[Option<Point>], n: usize) -> Option<&Point>
    ensures { option_map (λ p. p.now) result ≡ point_in (slice_get points.now n) }
{
    match points.get(n) {
        Some(Some(point)) => Some(point),
        _ => None,
    }
}

// Marks what an instruction reads, at its point.
fn mark_read(shape: &Shape, instr: Instr, point: Option<&Point>, marks: &mut Vec<Seq<bool>>)
    ensures { IsMarked marks.old.items (λ c f. reads_at shape.now c f instr (option_map (λ p. p.now) point.entry)) marks.new.items }
{
    match (instr, point) {
        (Instr::Above(level, field), Some(point)) => mark_above(shape, level, field, point, marks),
        _ => {}
    }
}

// Marks a field of the ancestor at a level.
fn mark_above(shape: &Shape, level: u16, field: u16, point: &Point, marks: &mut Vec<Seq<bool>>)
    ensures { IsMarked marks.old.items (λ c f. reads_at shape.now c f (Instr.Above level field) (Some point.now)) marks.new.items }
{
    if let Some(class) = ancestor(shape, point.class, level as usize) {
        mark(marks, class, field as usize);
    }
}

// Marks a field of a class, where it is there.
fn mark(marks: &mut Vec<Seq<bool>>, class: Class, field: usize)
    ensures { IsMarked marks.old.items (λ c f. (field == f) && (class.0 == c)) marks.new.items }
{
    if let Some(fields) = marks.get_mut(class.0 as usize) {
        if field < fields.len() {
            let _ = fields.set(field, true);
        }
    }
}
