//! All that an event has while it runs.

ghost use Rattle.std.specs.Prelude.{◌≡◌, ◌<◌, ◌^◌, ◌∷◌, [], List, Some, None, true, false, suc, nat_lt, Err, IfOk, IfErr, OnOk};
ghost use Rattle.std.specs.BTreeSet.{insert_key};
ghost use Rattle.wave_base.specs.declared.limits.TheConstants.{CONTEXTS, TICKS};
ghost use Rattle.wave_base.specs.declared.value.Value.{Value};
ghost use Rattle.wave_base.specs.Paths.{path_cmp};
ghost use Rattle.deferred_out.specs.Kept.{nothing};
ghost use Rattle.service_verify.specs.Steps.{is_held, trap_move, end_move};
ghost use Rattle.service_vm.specs.Boxes.{box_of};
ghost use Rattle.service_vm.specs.inner.Acts.{next_move, Settled, Stays};
ghost use Rattle.service_vm.specs.inner.Stacks.{moved_on};

use crate::flow::Flow;
use crate::frames::Frames;
use crate::held::Held;
use deferred_out::Outputs;
use downgrade_views::Views;
use std::alloc::Global;
use value_ops::OpError;
use wave_base::{
    CONTEXTS, EventResult, OutOfMemory, Outcome, Path, Pause, Seq, Span, TICKS, Trap, TrapKind,
    Value,
};

/// An event that isn't over: its frames, its copies of what stands above it, what it sent and created, the ticks that it
/// has left, where it is, what it holds, how many contexts it has entered, and its generation.
#[derive(Debug, Drop)]
pub struct Run {
    /// The functions under way, with their values.
    pub frames: Frames,
    /// Copies of what stands above, from the root on.
    pub views: Views,
    /// The messages that it has sent and the calls that it has created.
    pub outputs: Outputs,
    /// The ticks that it has left.
    pub ticks: u32,
    /// The context where it is.
    pub path: Path,
    /// The contexts that it holds.
    pub held: Held,
    /// How many contexts it has entered.
    pub entered: usize,
    /// Its generation: 0 for a request, and one more for each event that led to it.
    pub generation: u8,
    /// The allocator.
    pub alloc: Global,
}

impl Run {
    /// A function that begins with its locals, in an event at the root: all its ticks are left, and nothing is copied,
    /// sent or created yet.
    pub fn first(alloc: Global, number: u16, locals: Vec<Value>, held: Held, generation: u8) -> Run
        ensures { result ≡ record { frames = record { top = record { function = number; place = 0; stack = []; locals = locals.items; down = false }; below = [] }; views = []; outputs = nothing; ticks = TICKS; path = []; held = held; entered = 1; generation = generation; alloc = alloc } }
    {
        Run {
            frames: Frames::first(alloc, number, locals),
            views: Views::new(alloc),
            outputs: Outputs::new(alloc),
            ticks: TICKS,
            path: Path::root(),
            held,
            entered: 1,
            generation,
            alloc,
        }
    }

    /// Puts a value on the stack, and goes on.
    pub fn put(&mut self, x: Value) -> Result<Flow, OutOfMemory>
        requires { self.old.frames.top.place < 2 ^ 63 }
        ensures put { OnOk result (self.new ≡ record self.old { frames = moved_on self.old.frames (x ∷ self.old.frames.top.stack) }) }
        ensures runs { IfOk result (λ flow. flow ≡ Flow.On) }
        ensures stays { Stays self.old self.new }
    {
        self.frames.push(x)?;
        self.frames.advance();
        Ok(Flow::On)
    }

    /// The end by a trap at a place of the service text, which throws away what the event sent and created.
    pub fn trap(&mut self, kind: TrapKind, at: Span) -> Pause
        ensures trapped { (fields : List Value) → trap_move kind at (box_of self.old) fields ≡ next_move (Some result) self.new fields }
        ensures stays { Stays self.old self.new }
    {
        self.outputs.discard();
        Pause::Over(EventResult {
            outcome: Outcome::Trapped(Trap { kind, at }),
            messages: Seq::new(self.alloc),
            created: Seq::new(self.alloc),
        })
    }

    /// Goes on, or traps, after a change of a map.
    pub fn settle(&mut self, changed: Result<(), OpError>) -> Result<Flow, OutOfMemory>
        requires { self.old.frames.top.place < 2 ^ 63 }
        ensures settled { IfOk result (λ flow. Settled changed self.old flow self.new) }
        ensures wants { IfErr result (λ refused. changed ≡ Err (OpError.OutOfMemory refused)) }
        ensures stays { Stays self.old self.new }
    {
        match changed {
            Ok(()) => {
                self.frames.advance();
                Ok(Flow::On)
            }
            Err(OpError::Trap(kind)) => Ok(Flow::Traps(kind)),
            Err(OpError::OutOfMemory(refused)) => Err(refused),
        }
    }

    /// The end by itself, with what the event sent and created.
    pub fn finish(&mut self, outcome: Outcome) -> Pause
        ensures finished { (fields : List Value) → end_move outcome (box_of self.old) fields ≡ next_move (Some result) self.new fields }
        ensures stays { Stays self.old self.new }
    {
        let (messages, created) = self.outputs.take();
        Pause::Over(EventResult {
            outcome,
            messages,
            created,
        })
    }

    /// Enters a context that isn't held yet. It says no where the event has entered as many as it may.
    pub fn enter(&mut self, path: Path) -> Result<bool, OutOfMemory>
        ensures entered { IfOk result (λ entered. is_held self.old.held path ≡ false → entered ≡ nat_lt self.old.entered CONTEXTS) }
        ensures is_held { IfOk result (λ entered. is_held self.old.held path ≡ true → entered ≡ true) }
        ensures held { OnOk result (is_held self.old.held path ≡ true → self.new ≡ self.old) }
        ensures full { OnOk result (is_held self.old.held path ≡ false → nat_lt self.old.entered CONTEXTS ≡ false → self.new ≡ self.old) }
        ensures new { OnOk result (is_held self.old.held path ≡ false → nat_lt self.old.entered CONTEXTS ≡ true → self.new ≡ record self.old { held = insert_key path_cmp self.old.held path; entered = suc self.old.entered }) }
        ensures stays { Stays self.old self.new }
    {
        if self.held.contains(&path) {
            return Ok(true);
        }
        if self.entered >= CONTEXTS {
            return Ok(false);
        }
        self.held.insert(path)?;
        self.entered += 1;
        Ok(true)
    }
}
