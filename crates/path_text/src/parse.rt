//! The path that a text stands for, in whatever way its numbers are written.

ghost use Rattle.wave_base.specs.Shapes.{IsShape};
ghost use Rattle.path_text.specs.Verdicts.{IsOnlyVerdict};

use crate::classes::ChildClasses;
use crate::resolve::resolve_steps;
use crate::written::written_steps;
use std::alloc::Global;
use thiserror::Error;
use wave_base::{OutOfMemory, Path};

/// Why a text is no path of a shape.
#[derive(Clone, Copy, Debug, PartialEq, Eq, Error)]
pub enum PathError {
    /// The text has not the form of a path.
    #[error("no path's form")]
    Syntax,
    /// A class that is not a child class of the one before it, a key that does not fit, or too many steps.
    #[error("no such path")]
    UnknownClass,
    /// Memory was wanting, and nothing is said of the text.
    #[error("out of memory")]
    OutOfMemory(OutOfMemory),
}

/// The path that a text stands for.
pub fn parse_path<C: ChildClasses>(
    alloc: Global,
    classes: &C,
    text: &[u8],
) -> Result<Path, PathError>
    requires { IsShape (C.shape classes.now) }
    ensures { IsOnlyVerdict (C.shape classes.now) text.now result }
{
    let steps = match written_steps(alloc, text) {
        Ok(Some(steps)) => steps,
        Ok(None) => return Err(PathError::Syntax),
        Err(refused) => return Err(PathError::OutOfMemory(refused)),
    };
    match resolve_steps(classes, steps.as_slice()) {
        Some(path) => Ok(path),
        None => Err(PathError::UnknownClass),
    }
}
