//! The lines of a checkpoint that tell which classes its service has, so that it fits no other service.

ghost use Rattle.std.specs.Prelude.{◌≡◌, ◌++◌, map, OnOk, IfOk};
ghost use Rattle.checkpoint_store.specs.CheckpointTexts.{kind_text, fields_text, parent_text, class_text, count_text};

use std::alloc::Global;
use wave_base::{ClassInfo, FieldInfo, Kind, OutOfMemory, Seq, Shape};
use wave_text::{put_bytes, put_number};

fn kind_text(kind: Kind) -> &'static [u8]
    ensures { result.now ≡ kind_text kind }
{
    match kind {
        Kind::Int => b"int",
        Kind::Bool => b"bool",
        Kind::Text => b"text",
        Kind::Map => b"map",
    }
}

// Appends the names and kinds of fields.
fn put_fields(out: &mut Vec<u8>, fields: &[FieldInfo]) -> Result<(), OutOfMemory>
    ensures { OnOk result (out.new.items ≡ out.old.items ++ fields_text (map (λ f. (f.name, f.kind)) fields.now)) }
{
    for field in fields {
        put_bytes(out, b" ")?;
        put_bytes(out, field.name.bytes())?;
        put_bytes(out, b":")?;
        put_bytes(out, kind_text(field.kind))?;
    }
    Ok(())
}

fn put_parent(out: &mut Vec<u8>, shape: &Shape, class: &ClassInfo) -> Result<(), OutOfMemory>
    ensures { OnOk result (out.new.items ≡ out.old.items ++ parent_text shape.now class.now.parent) }
{
    match class.parent {
        Some(parent) => put_bytes(out, shape.class_name(parent)),
        None => put_bytes(out, b"-"),
    }
}

/// Appends the line of a class, without a line feed.
pub(crate) fn put_class(
    out: &mut Vec<u8>,
    shape: &Shape,
    class: &ClassInfo,
) -> Result<(), OutOfMemory>
    ensures { OnOk result (out.new.items ≡ out.old.items ++ class_text shape.now class.now) }
{
    put_bytes(out, b"class ")?;
    put_bytes(out, class.name.bytes())?;
    put_bytes(out, b" ")?;
    put_parent(out, shape, class)?;
    put_fields(out, class.fields.as_slice())
}

/// Appends the line of the number of classes, without a line feed.
pub(crate) fn put_count(alloc: Global, out: &mut Vec<u8>, shape: &Shape) -> Result<(), OutOfMemory>
    ensures { OnOk result (out.new.items ≡ out.old.items ++ count_text shape.now) }
{
    put_bytes(out, b"classes ")?;
    put_number(alloc, out, shape.classes.len() as u64)
}
