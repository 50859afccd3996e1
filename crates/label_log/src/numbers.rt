//! The numbers of paths: a path has the number of its place in the order in which paths were first seen.

ghost use Rattle.std.specs.Prelude.{◌≡◌, IfOk, IsTrue, Some, slice_get};
ghost use Rattle.label_log.specs.inner.Entries.{Grows, path_in};

use indexmap::IndexSet;
use wave_base::{OutOfMemory, Path};

/// The number of a path, which it gets where it has none.
pub(crate) fn path_number(paths: &mut IndexSet<Path>, path: &Path) -> Result<usize, OutOfMemory>
    ensures more { Grows paths.old.keys paths.new.keys }
    ensures number { IfOk result (λ n. slice_get paths.new.keys n ≡ Some path.now) }
{
    let (number, _) = paths.insert_full(*path)?;
    Ok(number)
}

/// Whether this is the number of a path.
pub(crate) fn has_number(paths: &IndexSet<Path>, number: usize, path: &Path) -> bool
    ensures { IsTrue result → slice_get paths.now.keys number ≡ Some path.now }
{
    match paths.get_index(number) {
        Some(found) => found == path,
        None => false,
    }
}

/// The path that has this number, and the root's where none has it.
pub(crate) fn path_at(paths: &IndexSet<Path>, number: u32) -> Path
    ensures { result ≡ path_in paths.now.keys number }
{
    match paths.get_index(number as usize) {
        Some(path) => *path,
        None => Path::root(),
    }
}
