//! The paths of acts.

ghost use Rattle.std.specs.Prelude.{◌≡◌, []};
ghost use Rattle.label_log.specs.Logs.{path_of};

use wave_base::Path;
use wave_labels::Act;

/// The path of the context that an act is done to, where it stands in the act; `root`, which is the root's path, where it is done to none.
pub fn path_in<'a>(act: &'a Act, root: &'a Path) -> &'a Path
    requires { root.now ≡ [] }
    ensures { result.now ≡ path_of act.now }
{
    match act {
        Act::Admit(_) | Act::Commit(_) => root,
        Act::Grant(_, path) | Act::Start(_, path) | Act::Stop(_, path) => path,
        Act::Queue(_, path) | Act::Visit(_, path) | Act::Free(_, path) => path,
        Act::Pass(_, path, _) | Act::Land(_, path) => path,
    }
}
