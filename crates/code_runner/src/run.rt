//! A whole call by its code.

ghost use Rattle.std.specs.Prelude.{◌≡◌, ◌≤◌, [], true, Some, All, IfOk, OnOk};
ghost use Rattle.context_tree.specs.Contexts.{tree_of, is_there};
ghost use Rattle.wave_base.specs.declared.path.Path.{Path};
ghost use Rattle.wave_base.specs.declared.limits.TheConstants.{GENERATION};
ghost use Rattle.wave_base.specs.Scripts.{IsCall};
ghost use Rattle.wave_base.specs.Tree.{there};
ghost use Rattle.wave_base.specs.Trees.{FitsShape};
ghost use Rattle.service_verify.specs.Fit.{IsFit};
ghost use Rattle.service_verify.specs.Tours.{code_tour};
ghost use Rattle.code_runner.specs.Coded.{IsTree, IsJob};

use crate::walk::Walk;
use context_tree::Tree;
use service_verify::Verified;
use std::alloc::Global;
use wave_base::{Call, EventResult, OutOfMemory, Path, Seq};

/// What a call gives besides its changes of the tree: its result, the contexts that it entered, in order, and how many
/// segments it ran.
#[derive(Debug, Drop)]
pub struct CallRan {
    /// How the event ended, with its messages and the calls that it created.
    pub result: EventResult,
    /// The paths that it entered, the first one first.
    pub entered: Seq<Path>,
    /// How many segments ran, from 1.
    pub segments: u64,
}

/// Runs a call of an event by its code, segment by segment, on a tree of contexts. Where memory is wanting, the tree has all
/// contexts that it had, may have more, and may hold a part of the changes; memory may be wanting wherever a context joins, a
/// value is made, or room for what is entered, copied or sent.
pub fn run_call(
    alloc: Global,
    program: &Verified,
    contexts: &mut Tree,
    call: &Call,
) -> Result<CallRan, OutOfMemory>
    requires fit { IsFit program.now }
    requires call { IsCall program.now.shape call.now }
    requires generation { call.now.generation ≤ GENERATION }
    requires tree { FitsShape program.now.shape (tree_of program.now.shape contexts.old) }
    requires root { there (tree_of program.now.shape contexts.old) [] ≡ true }
    ensures result { IfOk result (λ ran. (code_tour program.now call.now (tree_of program.now.shape contexts.old)).result ≡ Some ran.result) }
    ensures tree { IfOk result (λ ran. tree_of program.now.shape contexts.new ≡ (code_tour program.now call.now (tree_of program.now.shape contexts.old)).tree) }
    ensures entered { IfOk result (λ ran. ran.entered ≡ (code_tour program.now call.now (tree_of program.now.shape contexts.old)).entered) }
    ensures stays { (p : Path) → is_there contexts.old p ≡ true → is_there contexts.new p ≡ true }
    ensures fits { OnOk result (IsTree program.now.shape (tree_of program.now.shape contexts.new)) }
    ensures created { IfOk result (λ ran. All (IsJob program.now) ran.result.created) }
    ensures segments { IfOk result (λ ran. ran.segments ≡ (code_tour program.now call.now (tree_of program.now.shape contexts.old)).segments) }
{
    let mut walk = Walk::start(alloc, program, contexts, call)?;
    'under_way: loop {
        if let Some(result) = walk.step(alloc, program, contexts)? {
            return Ok(CallRan {
                result,
                entered: Seq::from_vec(walk.entered),
                segments: walk.segments,
            });
        }
    }
}
