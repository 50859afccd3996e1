//! The code of a snapshot.

ghost use Rattle.std.specs.Prelude.{◌≡◌, ◌<◌, ◌≤◌, ◌++◌, ◌∷◌, [], length, Some, None, IfOk, OnOk};
ghost use Rattle.snapshot_events.specs.Walks.{pause_of};
ghost use Rattle.wave_states.specs.States.{steps_of};
ghost use Rattle.wave_states.specs.Walkers.{walk, leave, copied_now, last_step};

use std::alloc::Global;
use std::marker::Model;
use wave_base::{EventResult, OutOfMemory, Outcome, Path, Pause, Record, Seq, Shot, Step, Ticket};

/// The code of a snapshot: where it is, the child that it came back from, which is none at its first visit, and what it copied.
#[derive(Drop)]
pub struct Walker {
    ticket: Ticket,
    at: Path,
    from: Option<Step>,
    copied: Vec<Shot>,
}

impl Model for Walker {
    ghost use Rattle.std.specs.Prelude.{map};
    ghost use Rattle.snapshot_events.specs.Walks.{Walking, as_pair};

    ghost Value = { Walking };

    ghost view = { λ a. record { ticket = a.ticket.0; walker = record { at = a.at; from = a.from; copied = map as_pair a.copied.items } } };
}

impl Walker {
    /// The walker of a ticket, at the root.
    pub fn new(alloc: Global, ticket: Ticket) -> Walker
        ensures { result ≡ record { ticket = ticket.0; walker = record { at = []; from = None; copied = [] } } }
    {
        Walker {
            ticket,
            at: Path::root(),
            from: None,
            copied: Vec::new(alloc),
        }
    }

    /// Its ticket.
    pub fn ticket(&self) -> Ticket
        ensures { result.0 ≡ self.now.ticket }
    {
        self.ticket
    }

    // Copies the context where it is, at its first visit there.
    fn visit(&mut self, alloc: Global, body: &Record) -> Result<(), OutOfMemory>
        ensures ticket { self.new.ticket ≡ self.old.ticket }
        ensures at { self.new.walker.at ≡ self.old.walker.at }
        ensures from { self.new.walker.from ≡ self.old.walker.from }
        ensures copied { OnOk result (self.new.walker.copied ≡ copied_now self.old.walker body.now.fields) }
    {
        if self.from.is_some() {
            return Ok(());
        }
        let fields = body.fields.copy(alloc)?;
        let path = self.at;
        self.copied.push(Shot { path, fields })?;
        Ok(())
    }

    // Down to a child.
    fn go_down(&mut self, step: Step) -> Pause
        requires { length self.old.walker.at < 8 }
        ensures ticket { self.new.ticket ≡ self.old.ticket }
        ensures walker { self.new.walker ≡ record { at = self.old.walker.at ++ step ∷ []; from = None; copied = self.old.walker.copied } }
        ensures pause { result ≡ Pause.Down step }
    {
        self.at = self.at.child(step);
        self.from = None;
        Pause::Down(step)
    }

    // Back from a child, or over at the root.
    fn leave(&mut self, alloc: Global) -> Pause
        ensures ticket { self.new.ticket ≡ self.old.ticket }
        ensures walker { self.new.walker ≡ (leave self.old.walker.at self.old.walker.from [] self.old.walker.copied (last_step self.old.walker.at)).actor }
        ensures pause { result ≡ pause_of (leave self.old.walker.at self.old.walker.from [] self.old.walker.copied (last_step self.old.walker.at)).pause }
    {
        match self.at.parent() {
            Some(parent) => {
                self.from = last(&self.at);
                self.at = parent;
                Pause::Back
            }
            None => {
                let copied = std::mem::replace(&mut self.copied, Vec::new(alloc));
                Pause::Over(EventResult {
                    outcome: Outcome::Shots(Seq::from_vec(copied)),
                    messages: Seq::new(alloc),
                    created: Seq::new(alloc),
                })
            }
        }
    }
}

/// One segment of a walker, at the context where it is: at its first visit there it copies the context; then it goes down to the
/// next child, else back, else it is over. After want of memory it can only be dropped.
pub fn walk(alloc: Global, walker: &mut Walker, body: &Record) -> Result<Pause, OutOfMemory>
    requires { 8 ≤ length walker.old.walker.at → body.now.children ≡ [] }
    ensures ticket { walker.new.ticket ≡ walker.old.ticket }
    ensures walker { OnOk result (walker.new.walker ≡ (walk walker.old.walker body.now.fields (steps_of body.now.children)).actor) }
    ensures pause { IfOk result (λ p. p ≡ pause_of (walk walker.old.walker body.now.fields (steps_of body.now.children)).pause) }
{
    walker.visit(alloc, body)?;
    match body.children.after(walker.from) {
        Some(step) => Ok(walker.go_down(step)),
        None => Ok(walker.leave(alloc)),
    }
}

// The last step of a path.
fn last(path: &Path) -> Option<Step>
    ensures { result ≡ last_step path.now }
{
    let n = path.len();
    if n == 0 { None } else { path.step(n - 1) }
}
