//! An event between its segments.

ghost use Rattle.std.specs.Prelude.{◌≡◌, ◌<◌, ◌≤◌, ℕ, [], length, map, drop, Some, IsSome, IfOk, IfErr, OnOk, OnErr, slice_get};
ghost use Rattle.wave_base.specs.declared.path.Path.{Path};
ghost use Rattle.wave_base.specs.declared.limits.TheConstants.{GENERATION};
ghost use Rattle.wave_base.specs.Scripts.{IsCall};
ghost use Rattle.service_verify.specs.Boxes.{first_box, blank_of};
ghost use Rattle.service_verify.specs.Fit.{IsFit};
ghost use Rattle.service_verify.specs.Looks.{is_peeking, frames_peek};
ghost use Rattle.service_verify.specs.Points.{IsVerified};
ghost use Rattle.service_verify.specs.Standing.{HasFields, Stands, Leaves};
ghost use Rattle.service_vm.specs.Boxes.{Segment, frames_left};
ghost use Rattle.service_vm.specs.Wants.{MayWantIn};

use crate::act::function;
use crate::frames::add_blanks;
use crate::held::Held;
use crate::run::Run;
use service_code::{Function, Program};
use service_verify::Verified;
use std::alloc::Global;
use std::marker::Model;
use wave_base::{Call, OutOfMemory, Path, Pause, Record, Seq, Ticket, Value};

/// An event between its segments. It is of one program, which each of its calls is given.
#[derive(Debug, Drop)]
pub struct EventBox {
    run: Run,
    ended: bool,
    ticket: Ticket,
    peeking: bool,
}

impl Model for EventBox {
    ghost use Rattle.deferred_out.specs.Kept.{IsKept};
    ghost use Rattle.service_vm.specs.Boxes.{Boxed, boxed_run};

    ghost Value = { Boxed };

    ghost view = { λ e. boxed_run e.ended e.run e.ticket e.peeking };

    ghost invariant = { λ e. IsKept e.run.outputs };
}

impl EventBox {
    /// The event that a call begins, at the root, under a ticket. Where memory is wanting the call comes back.
    pub fn new(
        alloc: Global,
        program: &Verified,
        ticket: Ticket,
        call: Call,
    ) -> Result<EventBox, (Call, OutOfMemory)>
        requires fit { IsFit program.now }
        requires call { IsCall program.now.shape call }
        requires generation { call.generation ≤ GENERATION }
        ensures event { IfOk result (λ e. e.event ≡ record { box = first_box program.now call; levels = [] }) }
        ensures ticket { IfOk result (λ e. e.ticket ≡ ticket) }
        ensures peeking { IfOk result (λ e. e.peeking ≡ is_peeking program.now e.event.box) }
        ensures stands { IfOk result (λ e. Stands program.now [] 0 e.event) }
        ensures back { IfErr result (λ e. e.0 ≡ call) }
    {
        let verified = program;
        let program = program.program();
        let number = event_function(program, call.event);
        let function = function(program, number);
        let mut blanks = match blanks(alloc, function, call.args.len()) {
            Ok(blanks) => blanks,
            Err(e) => return Err((call, e)),
        };
        let held = match Held::root(alloc) {
            Ok(held) => held,
            Err(e) => return Err((call, e)),
        };
        let Call {
            event,
            args,
            generation,
        } = call;
        let mut locals = args.into_vec();
        if let Err(refused) = locals.append(&mut blanks) {
            let args = Seq::from_vec(locals);
            return Err((
                Call {
                    event,
                    args,
                    generation,
                },
                OutOfMemory::from(refused),
            ));
        }
        let run = Run::first(alloc, number, locals, held, generation);
        let peeking = is_peeking(verified, &run, false);
        Ok(EventBox {
            run,
            ended: false,
            ticket,
            peeking,
        })
    }

    /// The context where it runs next, or where it ended.
    pub fn path(&self) -> Path
        ensures { result ≡ self.now.event.box.path }
    {
        self.run.path
    }

    /// The ticket of its call.
    pub fn ticket(&self) -> Ticket
        ensures { result ≡ self.now.ticket }
    {
        self.ticket
    }

    /// The ticks that it has left.
    pub fn ticks(&self) -> u32
        ensures { result ≡ self.now.event.box.ticks }
    {
        self.run.ticks
    }

    /// Whether it stands after its function's last Go, and from there on only looks: its next segment changes no field,
    /// goes into no child, and ends it.
    pub fn peeking(&self) -> bool
        ensures { result ≡ self.now.peeking }
    {
        self.peeking
    }
}

/// Runs an event to its next pause, on the record of the context where it is. After want of memory event and record are
/// only to be dropped. Memory is asked for by an instruction that it comes to, and for a copy of what it leaves on its way down.
pub fn segment(
    program: &Verified,
    event: &mut EventBox,
    body: &mut Record,
) -> Result<Pause, OutOfMemory>
    requires fit { IsFit program.now }
    requires stands { (path : Path) × (calls : ℕ) × Stands program.now path calls event.old.event × HasFields program.now.shape path body.old.fields }
    ensures segment { IfOk result (λ why. Segment program.now event.old.event body.old.fields event.new.event body.new.fields why) }
    ensures leaves { IfOk result (λ why. (path : Path) (calls : ℕ) → Stands program.now path calls event.old.event → HasFields program.now.shape path body.old.fields → HasFields program.now.shape path body.new.fields × Leaves program.now path calls event.new.event why) }
    ensures peeking { OnOk result (event.new.peeking ≡ is_peeking program.now event.new.event.box) }
    ensures ticket { OnOk result (event.new.ticket ≡ event.old.ticket) }
    ensures children { body.new.children ≡ body.old.children }
    ensures wants { OnErr result (MayWantIn program.now event.old.event body.old.fields) }
{
    run_to_pause(program, event, body)
}

fn run_to_pause(
    program: &Verified,
    event: &mut EventBox,
    body: &mut Record,
) -> Result<Pause, OutOfMemory>
    requires fit { IsFit program.now }
    requires stands { (path : Path) × (calls : ℕ) × Stands program.now path calls event.old.event × HasFields program.now.shape path body.old.fields }
    ensures segment { IfOk result (λ why. Segment program.now event.old.event body.old.fields event.new.event body.new.fields why) }
    ensures peeking { OnOk result (event.new.peeking ≡ is_peeking program.now event.new.event.box) }
    ensures ticket { OnOk result (event.new.ticket ≡ event.old.ticket) }
    ensures children { body.new.children ≡ body.old.children }
    ensures wants { OnErr result (MayWantIn program.now event.old.event body.old.fields) }
    ensures verified { IsVerified program.now }
{
    let class = event.run.path.class();
    let why = event
        .run
        .pause(program.program(), program.links(), &mut body.fields)?;
    match &why {
        Pause::Go(_) | Pause::Down(_) => event.run.views.leave(body, program.kept_fields(class))?,
        Pause::Back => event.run.views.back(),
        Pause::Over(_) => event.ended = true,
    }
    event.peeking = is_peeking(program, &event.run, event.ended);
    Ok(why)
}

// Whether it isn't over, and stands where its function only looks.
fn is_peeking(program: &Verified, run: &Run, ended: bool) -> bool
    ensures { result ≡ frames_peek program.now (frames_left ended run.now) }
{
    if ended {
        return false;
    }
    match program.looks_from(run.frames.function()) {
        Some(start) => start <= run.frames.place(),
        None => false,
    }
}

// The function of an event.
fn event_function(program: &Program, event: u16) -> u16
    requires { IsSome (slice_get program.now.events event) }
    ensures { slice_get program.now.events event ≡ Some result }
{
    program.events.as_slice()[event as usize]
}

// The locals of a function that come after so many arguments, as they begin.
fn blanks(alloc: Global, function: &Function, count: usize) -> Result<Vec<Value>, OutOfMemory>
    requires { count ≤ length function.now.locals }
    ensures { IfOk result (λ locals. locals.items ≡ map blank_of (drop count function.now.locals)) }
{
    let mut locals = Vec::new(alloc);
    add_blanks(alloc, &mut locals, &function.locals.as_slice()[count..])?;
    Ok(locals)
}
