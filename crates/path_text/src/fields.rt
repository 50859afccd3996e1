//! The fields of the context at a path.

ghost use Rattle.std.specs.Prelude.{◌≡◌};
ghost use Rattle.wave_base.specs.Shapes.{class_of, declared_fields};

use wave_base::{FieldInfo, Path, Shape};

/// The fields that the context at a path is declared with; none where the shape has no such class.
pub fn fields_at<'s>(shape: &'s Shape, path: &Path) -> &'s [FieldInfo]
    ensures { result.now ≡ declared_fields shape.now (class_of path.now) }
{
    match shape.classes.as_slice().get(usize::from(path.class().0)) {
        Some(info) => info.fields.as_slice(),
        None => &[],
    }
}
