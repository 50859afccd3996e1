//! Steps with names as steps of a shape.

ghost use Rattle.std.specs.Prelude.{◌≡◌, ◌<◌, ◌^◌, true, length, IfSome};
ghost use Rattle.std.specs.List.{list_all};
ghost use Rattle.wave_base.specs.Shapes.{IsShape, is_path};
ghost use Rattle.wave_text.specs.Words.{is_whole};
ghost use Rattle.path_text.specs.Paths.{step_below, path_of};
ghost use Rattle.path_text.specs.Steps.{is_step};

use crate::classes::ChildClasses;
use crate::written::Written;
use wave_base::{CLASS_DEPTH, Class, Path, Step};
use wave_text::whole_of;

// The step from a context of a class.
fn step_below<C: ChildClasses>(classes: &C, class: Class, step: &Written) -> Option<Step>
    requires classes { length (C.shape classes.now).classes < 2 ^ 16 }
    requires key { is_whole step.now.key ≡ true }
    ensures { result ≡ step_below (C.shape classes.now) class.0 step.now }
{
    let class = classes.child_class(class, step.name.as_slice())?;
    let key = whole_of(step.key.as_slice())?;
    Some(Step {
        class: Class(class as u16),
        key,
    })
}

/// The path with these steps; none where a class is not a child class of the one before it, a key does not fit, or
/// there are more than `CLASS_DEPTH` steps.
pub fn resolve_steps<C: ChildClasses>(classes: &C, steps: &[Written]) -> Option<Path>
    requires shape { IsShape (C.shape classes.now) }
    requires form { list_all is_step steps.now ≡ true }
    ensures path { result ≡ path_of (C.shape classes.now) steps.now }
    ensures of_shape { IfSome result (λ p. is_path (C.shape classes.now) p ≡ true) }
{
    if steps.len() > CLASS_DEPTH {
        return None;
    }
    let mut path = Path::root();
    let mut class = Class(0);
    for written in steps {
        let step = step_below(classes, class, written)?;
        path = path.child(step);
        class = step.class;
    }
    Some(path)
}
