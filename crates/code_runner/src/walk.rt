//! A call by its code, a segment at a time.

ghost use Rattle.std.specs.Prelude.{◌≡◌, ◌<◌, ◌≤◌, ◌^◌, suc, [], ◌∷◌, true, None, IfOk, OnOk};
ghost use Rattle.std.specs.List.{list_any};
ghost use Rattle.context_tree.specs.Contexts.{tree_of, is_there};
ghost use Rattle.wave_base.specs.declared.limits.TheConstants.{GENERATION};
ghost use Rattle.wave_base.specs.Paths.{path_eq, parent_of};
ghost use Rattle.wave_base.specs.Scripts.{IsCall};
ghost use Rattle.wave_base.specs.Shapes.{is_path};
ghost use Rattle.wave_base.specs.Tree.{there};
ghost use Rattle.wave_base.specs.declared.path.Path.{Path};
ghost use Rattle.service_verify.specs.Copies.{first_trip, next_trip};
ghost use Rattle.service_verify.specs.Fit.{IsFit};
ghost use Rattle.service_verify.specs.Points.{IsVerified};
ghost use Rattle.code_runner.specs.inner.Walks.{Walks, trip_of, paths_into, tree_into};

use crate::records::{join, put_record, take_record};
use context_tree::Tree;
use service_verify::Verified;
use service_vm::{EventBox, segment};
use std::alloc::Global;
use wave_base::{Call, EventResult, OutOfMemory, Path, Pause, Shape, Ticket};

/// A call under way: its event, the contexts that it entered, in order, and how many segments it has run.
#[derive(Debug, Drop)]
pub struct Walk {
    /// The event between two of its segments.
    pub event: EventBox,
    /// The paths that it has entered, the first one first.
    pub entered: Vec<Path>,
    /// How many segments have run.
    pub segments: u64,
}

impl Walk {
    /// A call that begins, at the root.
    pub fn start(
        alloc: Global,
        program: &Verified,
        contexts: &mut Tree,
        call: &Call,
    ) -> Result<Walk, OutOfMemory>
        requires fit { IsFit program.now }
        requires call { IsCall program.now.shape call.now }
        requires generation { call.now.generation ≤ GENERATION }
        requires root { is_there contexts.old [] ≡ true }
        ensures verified { IsVerified program.now }
        ensures first { IfOk result (λ w. trip_of w (tree_of program.now.shape contexts.new) None ≡ first_trip program.now call.now (tree_of program.now.shape contexts.old)) }
        ensures stays { (p : Path) → is_there contexts.old p ≡ true → is_there contexts.new p ≡ true }
    {
        let root = Path::root();
        join(alloc, &program.program().shape, contexts, &root)?;
        let mut entered = Vec::new(alloc);
        entered.push(root)?;
        match EventBox::new(alloc, program, Ticket(0), call.copy(alloc)?) {
            Ok(event) => Ok(Walk {
                event,
                entered,
                segments: 0,
            }),
            Err((_, e)) => Err(e),
        }
    }

    /// Runs a segment. Gives the event's result once it is over.
    pub fn step(
        &mut self,
        alloc: Global,
        program: &Verified,
        contexts: &mut Tree,
    ) -> Result<Option<EventResult>, OutOfMemory>
        requires fit { IsFit program.now }
        requires walks { Walks program.now (trip_of self.old (tree_of program.now.shape contexts.old) None) }
        requires few { self.old.segments < 2 ^ 63 }
        ensures segments { OnOk result (self.new.segments ≡ suc self.old.segments) }
        ensures next { IfOk result (λ over. trip_of self.new (tree_of program.now.shape contexts.new) over ≡ next_trip program.now (trip_of self.old (tree_of program.now.shape contexts.old) None)) }
        ensures stays { (p : Path) → is_there contexts.old p ≡ true → is_there contexts.new p ≡ true }
    {
        let here = self.event.path();
        let mut record = take_record(alloc, contexts, &here);
        let paused = segment(program, &mut self.event, &mut record);
        put_record(contexts, &here, record);
        let pause = paused?;
        self.segments += 1;
        match pause {
            Pause::Go(_) | Pause::Down(_) => {
                self.enter(alloc, &program.program().shape, contexts)?;
                Ok(None)
            }
            Pause::Back => Ok(None),
            Pause::Over(result) => Ok(Some(result)),
        }
    }

    // Into the context where the event is now, which joins the tree where the event enters it for the first time.
    fn enter(
        &mut self,
        alloc: Global,
        shape: &Shape,
        contexts: &mut Tree,
    ) -> Result<(), OutOfMemory>
        requires path { is_path shape.now self.old.event.event.box.path ≡ true }
        requires parent { is_there contexts.old (parent_of self.old.event.event.box.path) ≡ true }
        ensures event { OnOk result (self.new.event ≡ self.old.event) }
        ensures segments { OnOk result (self.new.segments ≡ self.old.segments) }
        ensures entered { OnOk result (self.new.entered.items ≡ paths_into (list_any (path_eq self.old.event.event.box.path) self.old.entered.items) self.old.entered.items self.old.event.event.box.path) }
        ensures tree { OnOk result (tree_of shape.now contexts.new ≡ tree_into (list_any (path_eq self.old.event.event.box.path) self.old.entered.items) (tree_of shape.now contexts.old) self.old.event.event.box.path) }
        ensures stays { (p : Path) → is_there contexts.old p ≡ true → is_there contexts.new p ≡ true }
    {
        let path = self.event.path();
        if self.entered.as_slice().contains(&path) {
            return Ok(());
        }
        join(alloc, shape, contexts, &path)?;
        self.entered.push(path)?;
        Ok(())
    }
}
