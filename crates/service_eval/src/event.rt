//! Whole events.

ghost use Rattle.std.specs.Prelude.{◌≡◌, ◌≤◌, [], slice_get, IsSome, IfOk, OnOk, OnErr, All, ◌∷◌};
ghost use Rattle.context_tree.specs.Contexts.{tree_of as shown};
ghost use Rattle.resolved_service.specs.Fits.{FitsMethod, FitsService, FitsEvent, FitsPhases, FitsLast, FitsSteps, FitsTree, IsChildClass};
ghost use Rattle.resolved_service.specs.Jobs.{call_meaning, meant_by, first_world, outcome_of_reply};
ghost use Rattle.resolved_service.specs.Meaning.{call_act, effects, value, last_value, phases_run, event_run, with_blanks};
ghost use Rattle.resolved_service.specs.Steps.{steps_in};
ghost use Rattle.resolved_service.specs.View.{tree_of};
ghost use Rattle.resolved_service.specs.World.{child, key_of};
ghost use Rattle.service_eval.specs.Events.{Means};
ghost use Rattle.service_eval.specs.inner.Parts.{Rests, Comes, event_act, went_down};
ghost use Rattle.service_eval.specs.inner.Machines.{mach_of, state_of};
ghost use Rattle.service_eval.specs.Worlds.{Holds};
ghost use Rattle.wave_base.specs.declared.limits.TheConstants.{GENERATION, TICKS};
ghost use Rattle.wave_base.specs.declared.outcome.Outcome.{Outcome};
ghost use Rattle.wave_base.specs.Shapes.{IsShape, class_of};

use crate::block::block;
use crate::calls::{enter, with_blanks};
use crate::code::Code;
use crate::eval::found_value;
use crate::machine::Machine;
use crate::parts::first_of;
use crate::run::run;
use crate::stop::Stop;
use crate::trace::Trace;
use crate::work::Work;
use context_tree::Tree;
use resolved_service::{Event, Expr, Last, Phase, Resolved, Stmt};
use std::alloc::Global;
use wave_base::{
    Call, EventResult, OutOfMemory, Outcome, Path, Seq, Shape, Step, TICKS, Trap, Value,
};

/// What an event leaves behind besides its changes of the tree, and the contexts that it entered, in order.
#[derive(Debug, Drop)]
pub struct EventRan {
    /// How it ended, with its messages and the calls that it created.
    pub result: EventResult,
    /// The paths that it entered, the first one first.
    pub entered: Seq<Path>,
}

/// Runs an event on a tree of contexts. Where memory is wanting, the tree may hold a part of its changes. An event that the service
/// hasn't takes none.
pub fn run_event(
    alloc: Global,
    shape: &Shape,
    service: &Resolved,
    contexts: &mut Tree,
    call: &Call,
) -> Result<EventRan, OutOfMemory>
    requires shape { IsShape shape.now }
    requires fits { FitsService shape.now service.now }
    requires holds { Holds shape.now (shown shape.now contexts.old) }
    requires early { call.now.generation ≤ GENERATION }
    ensures means { IfOk result (λ ran. Means (call_meaning service.now (shown shape.now contexts.old) call.now) ran (shown shape.now contexts.new)) }
    ensures holds { Holds shape.now (shown shape.now contexts.new) }
    ensures memory { OnErr result (IsSome (slice_get service.now.events call.now.event)) }
{
    let code = Code {
        alloc,
        shape,
        methods: service.methods.as_slice(),
    };
    match service.events.get(call.event as usize) {
        Some(event) => run_as(code, contexts, event, call),
        None => Ok(EventRan {
            result: only(alloc, Outcome::Done),
            entered: Seq::new(alloc),
        }),
    }
}

// A result without messages and created calls.
fn only(alloc: Global, outcome: Outcome) -> EventResult
    ensures { result ≡ record { outcome = outcome; messages = []; created = [] } }
{
    EventResult {
        outcome,
        messages: Seq::new(alloc),
        created: Seq::new(alloc),
    }
}

// An event of the service, with its arguments.
fn run_as<'s>(
    code: Code<'s>,
    contexts: &mut Tree,
    event: &'s Event,
    call: &Call,
) -> Result<EventRan, OutOfMemory>
    requires shape { IsShape code.shape.now }
    requires methods { All (FitsMethod code.shape.now code.methods.now) code.methods.now }
    requires fits { FitsEvent code.shape.now code.methods.now event.now }
    requires holds { Holds code.shape.now (shown code.shape.now contexts.old) }
    requires early { call.now.generation ≤ GENERATION }
    ensures means { IfOk result (λ ran. Means (meant_by (event_run code.entry.methods.now TICKS event.now call.now.args (first_world call.now.generation (shown code.entry.shape.now contexts.old)))) ran (shown code.entry.shape.now contexts.new)) }
    ensures holds { Holds code.entry.shape.now (shown code.entry.shape.now contexts.new) }
{
    let mut m = match start(code.alloc, event, call) {
        Ok(m) => m,
        Err(e) => return Err(e),
    };
    match perform(code, contexts, &mut m, event) {
        Ok(reply) => Ok(event_end(m, reply)),
        Err(Stop::Trapped(trap)) => Ok(stopped_run(code.alloc, m, trap)),
        Err(Stop::OutOfMemory(refused)) => Err(refused),
        Err(Stop::Ended(reply)) => Ok(event_end(m, reply)),
    }
}

// An event that came to its end.
fn event_end(m: Machine<'_>, reply: Option<Value>) -> EventRan
    ensures result { result.result ≡ record { outcome = outcome_of_reply reply; messages = m.entry.trace.messages.items; created = m.entry.trace.created.items } }
    ensures entered { result.entered ≡ m.entry.trace.entered.items }
{
    let Machine {
        work: _,
        values: _,
        locals: _,
        path: _,
        near: _,
        trace,
    } = m;
    let Trace {
        generation: _,
        ticks: _,
        entered,
        held: _,
        messages,
        created,
    } = trace;
    EventRan {
        result: EventResult {
            outcome: outcome_of_reply(reply),
            messages: Seq::from_vec(messages),
            created: Seq::from_vec(created),
        },
        entered: Seq::from_vec(entered),
    }
}

// An event that trapped: what it sent and created is dropped.
fn stopped_run(alloc: Global, m: Machine<'_>, trap: Trap) -> EventRan
    ensures result { result.result ≡ record { outcome = Outcome.Trapped trap; messages = []; created = [] } }
    ensures entered { result.entered ≡ m.entry.trace.entered.items }
{
    let Machine {
        work: _,
        values: _,
        locals: _,
        path: _,
        near: _,
        trace,
    } = m;
    EventRan {
        result: only(alloc, Outcome::Trapped(trap)),
        entered: Seq::from_vec(trace.entered),
    }
}

fn outcome_of_reply(reply: Option<Value>) -> Outcome
    ensures { result ≡ outcome_of_reply reply }
{
    match reply {
        Some(value) => Outcome::Reply(value),
        None => Outcome::Done,
    }
}

// The machine of an event at the root.
fn start<'s>(alloc: Global, event: &'s Event, call: &Call) -> Result<Machine<'s>, OutOfMemory>
    ensures { IfOk result (λ m. (tree : _) → mach_of tree m ≡ record { items = []; values = []; path = []; state = record { locals = with_blanks call.now.args event.now.locals; world = first_world call.now.generation tree } }) }
{
    let given = call.args.copy(alloc)?.into_vec();
    let locals = with_blanks(alloc, given, event.locals.as_slice())?;
    let entered = root_alone(alloc)?;
    let held = root_alone(alloc)?;
    let trace = Trace {
        generation: call.generation,
        ticks: TICKS,
        entered,
        held,
        messages: Vec::new(alloc),
        created: Vec::new(alloc),
    };
    Ok(Machine {
        work: Vec::new(alloc),
        values: Vec::new(alloc),
        locals,
        path: Path::root(),
        near: 0,
        trace,
    })
}

// The root alone, with room for some contexts below it.
fn root_alone(alloc: Global) -> Result<Vec<Path>, OutOfMemory>
    ensures { IfOk result (λ paths. paths.items ≡ [] ∷ []) }
{
    let mut paths = Vec::with_capacity(alloc, 4)?;
    paths.push(Path::root())?;
    Ok(paths)
}

// The root's statements, and then the phases and the reply.
fn perform<'s>(
    code: Code<'s>,
    contexts: &mut Tree,
    m: &mut Machine<'s>,
    event: &'s Event,
) -> Result<Option<Value>, Stop>
    requires shape { IsShape code.shape.now }
    requires methods { All (FitsMethod code.shape.now code.methods.now) code.methods.now }
    requires fits { FitsEvent code.shape.now code.methods.now event.now }
    requires rests { Rests code contexts.old m.old }
    requires root { m.old.path ≡ [] }
    ensures comes { Comes (event_act (call_act code.entry.methods.now TICKS) TICKS event.now (state_of (shown code.entry.shape.now contexts.old) m.old)) result (state_of (shown code.entry.shape.now contexts.new) m.new) }
    ensures rests { OnOk result (Rests code.entry contexts.new m.new) }
    ensures holds { Holds code.entry.shape.now (shown code.entry.shape.now contexts.new) }
{
    match part(code, contexts, m, event.here.as_slice()) {
        Ok(()) => phases_from(code, contexts, m, event.phases.as_slice(), &event.last),
        Err(e) => Err(e),
    }
}

// The phases from here on, and then the reply.
fn phases_from<'s>(
    code: Code<'s>,
    contexts: &mut Tree,
    m: &mut Machine<'s>,
    phases: &'s [Phase],
    last: &'s Option<Last>,
) -> Result<Option<Value>, Stop>
    requires shape { IsShape code.shape.now }
    requires methods { All (FitsMethod code.shape.now code.methods.now) code.methods.now }
    requires fits { FitsPhases code.shape.now code.methods.now (class_of m.old.path) phases.now last.now }
    requires rests { Rests code contexts.old m.old }
    ensures comes { Comes (phases_run (call_act code.entry.methods.now TICKS) TICKS phases.now last.now m.old.path (state_of (shown code.entry.shape.now contexts.old) m.old)) result (state_of (shown code.entry.shape.now contexts.new) m.new) }
    ensures rests { OnOk result (Rests code.entry contexts.new m.new) }
    ensures holds { Holds code.entry.shape.now (shown code.entry.shape.now contexts.new) }
{
    match first_of(phases) {
        None => reply(code, contexts, m, last),
        Some((phase, others)) => {
            let key = match value_of(code, contexts, m, &phase.key) {
                Ok(key) => key,
                Err(e) => return Err(e),
            };
            match go_down(code, contexts, m, phase, &key) {
                Ok(()) => {}
                Err(e) => return Err(e),
            }
            match part(code, contexts, m, phase.body.as_slice()) {
                Ok(()) => {}
                Err(e) => return Err(e),
            }
            phases_from(code, contexts, m, others, last)
        }
    }
}

// Statements at the context where the event is.
fn part<'s>(
    code: Code<'s>,
    contexts: &mut Tree,
    m: &mut Machine<'s>,
    stmts: &'s [Stmt],
) -> Result<(), Stop>
    requires shape { IsShape code.shape.now }
    requires methods { All (FitsMethod code.shape.now code.methods.now) code.methods.now }
    requires fits { FitsSteps code.shape.now code.methods.now (class_of m.old.path) (steps_in stmts.now) }
    requires rests { Rests code contexts.old m.old }
    ensures comes { Comes (effects (call_act code.entry.methods.now TICKS) TICKS m.old.path (steps_in stmts.now) (state_of (shown code.entry.shape.now contexts.old) m.old)) result (state_of (shown code.entry.shape.now contexts.new) m.new) }
    ensures rests { OnOk result (Rests code.entry contexts.new m.new) }
    ensures place { OnOk result (m.new.path ≡ m.old.path) }
    ensures holds { Holds code.entry.shape.now (shown code.entry.shape.now contexts.new) }
{
    match block(code, contexts, m, stmts) {
        Ok(()) => run(code, contexts, m),
        Err(e) => Err(e),
    }
}

// The value of an expression at the context where the event is: at once, where no call is met.
fn value_of<'s>(
    code: Code<'s>,
    contexts: &mut Tree,
    m: &mut Machine<'s>,
    e: &'s Expr,
) -> Result<Value, Stop>
    requires shape { IsShape code.shape.now }
    requires methods { All (FitsMethod code.shape.now code.methods.now) code.methods.now }
    requires fits { FitsTree code.shape.now code.methods.now (class_of m.old.path) (tree_of e.now) }
    requires rests { Rests code contexts.old m.old }
    ensures comes { Comes (value (call_act code.entry.methods.now TICKS) m.old.path (tree_of e.now) (state_of (shown code.entry.shape.now contexts.old) m.old)) result (state_of (shown code.entry.shape.now contexts.new) m.new) }
    ensures rests { OnOk result (Rests code.entry contexts.new m.new) }
    ensures place { OnOk result (m.new.path ≡ m.old.path) }
    ensures holds { Holds code.entry.shape.now (shown code.entry.shape.now contexts.new) }
{
    match found_value(code, contexts, m, e) {
        Ok(Some(value)) => Ok(value),
        Ok(None) => value_by_parts(code, contexts, m, e),
        Err(e) => Err(e),
    }
}

// The same, part by part.
fn value_by_parts<'s>(
    code: Code<'s>,
    contexts: &mut Tree,
    m: &mut Machine<'s>,
    e: &'s Expr,
) -> Result<Value, Stop>
    requires shape { IsShape code.shape.now }
    requires methods { All (FitsMethod code.shape.now code.methods.now) code.methods.now }
    requires fits { FitsTree code.shape.now code.methods.now (class_of m.old.path) (tree_of e.now) }
    requires rests { Rests code contexts.old m.old }
    ensures comes { Comes (value (call_act code.entry.methods.now TICKS) m.old.path (tree_of e.now) (state_of (shown code.entry.shape.now contexts.old) m.old)) result (state_of (shown code.entry.shape.now contexts.new) m.new) }
    ensures rests { OnOk result (Rests code.entry contexts.new m.new) }
    ensures place { OnOk result (m.new.path ≡ m.old.path) }
    ensures holds { Holds code.entry.shape.now (shown code.entry.shape.now contexts.new) }
{
    match m.push(Work::Eval(e)) {
        Ok(()) => {}
        Err(e) => return Err(e),
    }
    match run(code, contexts, m) {
        Ok(()) => Ok(m.take(0)),
        Err(e) => Err(e),
    }
}

// The event goes down into a child, and gives up all that lies outside.
fn go_down(
    code: Code<'_>,
    contexts: &mut Tree,
    m: &mut Machine<'_>,
    phase: &Phase,
    key: &Value,
) -> Result<(), Stop>
    requires shape { IsShape code.shape.now }
    requires fits { IsChildClass code.shape.now (class_of m.old.path) phase.now.class.0 }
    requires rests { Rests code contexts.old m.old }
    ensures comes { Comes (went_down (child m.old.path phase.now.class.0 key.now) phase.now.at (state_of (shown code.entry.shape.now contexts.old) m.old)) result (state_of (shown code.entry.shape.now contexts.new) m.new) }
    ensures rests { OnOk result (Rests code.entry contexts.new m.new) }
    ensures place { OnOk result (m.new.path ≡ child m.old.path phase.now.class.0 key.now) }
    ensures holds { Holds code.entry.shape.now (shown code.entry.shape.now contexts.new) }
{
    let path = m.path.child(Step {
        class: phase.class,
        key: key_of(key),
    });
    match enter(code, contexts, &mut m.trace, &path, phase.at) {
        Ok(()) => {}
        Err(e) => return Err(e),
    }
    m.trace.release(&path);
    m.near = contexts.slot(&path).unwrap_or(0);
    m.path = path;
    Ok(())
}

// The key that a value tells.
fn key_of(value: &Value) -> i64
    ensures { result ≡ key_of value.now }
{
    match value {
        Value::Int(key) => *key,
        _ => 0,
    }
}

// What the event replies, if anything.
fn reply<'s>(
    code: Code<'s>,
    contexts: &mut Tree,
    m: &mut Machine<'s>,
    last: &'s Option<Last>,
) -> Result<Option<Value>, Stop>
    requires shape { IsShape code.shape.now }
    requires methods { All (FitsMethod code.shape.now code.methods.now) code.methods.now }
    requires fits { FitsLast code.shape.now code.methods.now (class_of m.old.path) last.now }
    requires rests { Rests code contexts.old m.old }
    ensures comes { Comes (last_value (call_act code.entry.methods.now TICKS) TICKS m.old.path last.now (state_of (shown code.entry.shape.now contexts.old) m.old)) result (state_of (shown code.entry.shape.now contexts.new) m.new) }
    ensures rests { OnOk result (Rests code.entry contexts.new m.new) }
    ensures holds { Holds code.entry.shape.now (shown code.entry.shape.now contexts.new) }
{
    match last {
        None => Ok(None),
        Some(last) => match value_of(code, contexts, m, &last.value) {
            Ok(value) => Ok(Some(value)),
            Err(e) => Err(e),
        },
    }
}
