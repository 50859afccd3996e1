//! Paths, and contexts with their fields or their hosts, as they are written.

ghost use Rattle.std.specs.Prelude.{◌≡◌, ◌≤◌, ◌++◌, true, length, All, IfOk, OnOk, FitsSigned};
ghost use Rattle.std.specs.Int.{w64};
ghost use Rattle.wave_base.specs.Names.{HasNames};
ghost use Rattle.wave_base.specs.Shapes.{IsShape, is_path};
ghost use Rattle.wave_base.specs.declared.path.Step.{Step};
ghost use Rattle.path_text.specs.PathTexts.{written_step, path_text, IsPathText};
ghost use Rattle.path_text.specs.PlaceTexts.{place_text};
ghost use Rattle.path_text.specs.ShotTexts.{field_text, fields_text, shot_text};
ghost use Rattle.path_text.specs.Steps.{step_text};

use crate::fields::fields_at;
use std::alloc::Global;
use wave_base::{CLASS_DEPTH, FieldInfo, OutOfMemory, Path, Place, Seq, Shape, Shot, Step, Value};
use wave_text::{put_bytes, put_number, put_value, put_whole};

// Appends one step of a path.
fn put_step(alloc: Global, out: &mut Vec<u8>, shape: &Shape, step: &Step) -> Result<(), OutOfMemory>
    ensures text { OnOk result (out.new.items ≡ out.old.items ++ step_text (written_step shape.now step.now)) }
    ensures key { FitsSigned w64 step.now.key }
{
    let key = step.key;
    put_bytes(out, b"/")?;
    put_bytes(out, shape.class_name(step.class))?;
    put_bytes(out, b"[")?;
    put_whole(alloc, out, key)?;
    put_bytes(out, b"]")
}

/// Appends the text of a path.
pub fn put_path(
    alloc: Global,
    out: &mut Vec<u8>,
    shape: &Shape,
    path: &Path,
) -> Result<(), OutOfMemory>
    ensures text { OnOk result (out.new.items ≡ out.old.items ++ path_text shape.now path.now) }
    ensures keys { OnOk result (All (λ (s : Step). FitsSigned w64 s.key) path.now) }
    ensures short { length path.now ≤ CLASS_DEPTH }
{
    if path.len() == 0 {
        return put_bytes(out, b"/");
    }
    for i in 0..path.len() {
        let step = path.step(i).unwrap();
        put_step(alloc, out, shape, &step)?;
    }
    Ok(())
}

/// The text of a path, which `parse_path` reads back as that path.
pub fn write_path(alloc: Global, shape: &Shape, path: &Path) -> Result<Seq<u8>, OutOfMemory>
    requires shape { IsShape shape.now }
    requires names { HasNames shape.now }
    requires path { is_path shape.now path.now ≡ true }
    ensures text { IfOk result (λ text. text ≡ path_text shape.now path.now) }
    ensures again { IfOk result (λ text. IsPathText shape.now text path.now) }
{
    let mut out = Vec::new(alloc);
    put_path(alloc, &mut out, shape, path)?;
    Ok(Seq::from_vec(out))
}

// Appends a field with its value.
fn put_field(
    alloc: Global,
    out: &mut Vec<u8>,
    field: &FieldInfo,
    value: &Value,
) -> Result<(), OutOfMemory>
    ensures { OnOk result (out.new.items ≡ out.old.items ++ field_text field.now value.now) }
{
    put_bytes(out, b" ")?;
    put_bytes(out, field.name.bytes())?;
    put_bytes(out, b"=")?;
    put_value(alloc, out, value)
}

// Appends the fields of a class with their values.
fn put_fields(
    alloc: Global,
    out: &mut Vec<u8>,
    fields: &[FieldInfo],
    values: &[Value],
) -> Result<(), OutOfMemory>
    ensures { OnOk result (out.new.items ≡ out.old.items ++ fields_text fields.now values.now) }
{
    let mut values = values;
    for field in fields {
        let [value, others @ ..] = values else {
            return Ok(());
        };
        put_field(alloc, out, field, value)?;
        values = others;
    }
    Ok(())
}

/// Appends a context with its fields.
pub fn put_shot(
    alloc: Global,
    out: &mut Vec<u8>,
    shape: &Shape,
    shot: &Shot,
) -> Result<(), OutOfMemory>
    ensures { OnOk result (out.new.items ≡ out.old.items ++ shot_text shape.now shot.now) }
{
    put_bytes(out, b"at ")?;
    put_path(alloc, out, shape, &shot.path)?;
    let fields = fields_at(shape, &shot.path);
    put_fields(alloc, out, fields, shot.fields.as_slice())
}

/// Appends a context with its host.
pub fn put_place(
    alloc: Global,
    out: &mut Vec<u8>,
    shape: &Shape,
    place: &Place,
) -> Result<(), OutOfMemory>
    ensures { OnOk result (out.new.items ≡ out.old.items ++ place_text shape.now place.now) }
{
    put_bytes(out, b"place ")?;
    put_path(alloc, out, shape, &place.path)?;
    put_bytes(out, b" ")?;
    put_number(alloc, out, u64::from(place.host.0))
}
