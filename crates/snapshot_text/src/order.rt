//! The order of the contexts in a snapshot.

ghost use Rattle.std.specs.Prelude.{◌≡◌, true, []};
ghost use Rattle.snapshot_text.specs.Shots.{are_in_order, comes_next, paths_of};

use wave_base::{Path, Shot};

/// Whether a path comes next behind these shots. The paths in between lie below the parent, where that is there.
pub(crate) fn comes_next(before: &[Shot], path: &Path) -> bool
    requires { are_in_order [] (paths_of before.now) ≡ true }
    ensures { result ≡ comes_next (paths_of before.now) path.now }
{
    match (before.last(), path.parent()) {
        (None, parent) => parent.is_none(),
        (Some(_), None) => false,
        (Some(last), Some(parent)) => last.path < *path && parent.is_above(&last.path),
    }
}
