//! The fields of contexts, read where they are.

ghost use Rattle.std.specs.Prelude.{◌≡◌, ℕ, ◌<◌, ◌↔◌, true, IsTrue, List};
ghost use Rattle.context_tree.specs.Contexts.{Contexts, tree_of, is_there, with_field, HasField};
ghost use Rattle.service_eval.specs.inner.Answers.{value_in};
ghost use Rattle.wave_base.specs.declared.shape.Shape.{Shape};
ghost use Rattle.resolved_service.specs.World.{nothing};
ghost use Rattle.wave_base.specs.Shapes.{initial_fields, class_of};
ghost use Rattle.std.specs.Prelude.{get_or};

use crate::operand::Operand;
use context_tree::Tree;
use wave_base::{Path, Shape, Value};

/// A field of the context at a path, which is looked for in a slot first: the initial one where the context is not there.
pub fn field<'v>(
    shape: &'v Shape,
    tree: &'v Tree,
    near: usize,
    path: &Path,
    field: usize,
) -> Operand<'v>
    ensures { value_in result ≡ get_or ((tree_of shape.now tree.now).fields path.now) field nothing }
{
    match tree.get_near(near, path) {
        Some(record) => item(record.fields.as_slice(), field),
        None => initial(shape, path, field),
    }
}

/// A value of a list, or a number where there is none.
#[inline(always)]
pub fn item<'v>(values: &'v [Value], at: usize) -> Operand<'v>
    ensures { value_in result ≡ get_or values.now at nothing }
{
    match values.get(at) {
        Some(value) => Operand::Held(value),
        None => Operand::Made(Value::Int(0)),
    }
}

// What a field begins with.
fn initial<'v>(shape: &'v Shape, path: &Path, field: usize) -> Operand<'v>
    ensures { value_in result ≡ get_or (initial_fields shape.now path.now) field nothing }
{
    let Some(class) = shape.classes.get(usize::from(path.class().0)) else {
        return Operand::Made(Value::Int(0));
    };
    match class.fields.get(field) {
        Some(info) => Operand::Held(&info.initial),
        None => Operand::Made(Value::Int(0)),
    }
}
