//! The path that a text was written for.

ghost use Rattle.std.specs.Prelude.{IfOk, IfSome};
ghost use Rattle.wave_base.specs.Names.{HasNames};
ghost use Rattle.wave_base.specs.Shapes.{IsShape};
ghost use Rattle.path_text.specs.Found.{IsPath, IsPathOf};

use crate::classes::ChildClasses;
use crate::parse::{PathError, parse_path};
use std::alloc::Global;
use wave_base::{OutOfMemory, Path};

/// The one path that a text can be written for.
pub fn path_for<C: ChildClasses>(
    alloc: Global,
    classes: &C,
    text: &[u8],
) -> Result<Option<Path>, OutOfMemory>
    requires shape { IsShape (C.shape classes.now) }
    requires names { HasNames (C.shape classes.now) }
    ensures only { IfOk result (IsPathOf (C.shape classes.now) text.now) }
    ensures path { IfOk result (λ o. IfSome o (IsPath (C.shape classes.now))) }
{
    match parse_path(alloc, classes, text) {
        Ok(path) => Ok(Some(path)),
        Err(PathError::Syntax) => Ok(None),
        Err(PathError::UnknownClass) => Ok(None),
        Err(PathError::OutOfMemory(refused)) => Err(refused),
    }
}
