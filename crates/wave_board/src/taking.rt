//! What a worker is given to do by a board.

ghost use Rattle.std.specs.Prelude.{◌≡◌, true, false, None, IfOk, OnErr};
ghost use Rattle.wave_effects.specs.Acts.{is_start, is_step};
ghost use Rattle.wave_board.specs.Boards.{IsStanding, StandsStill, history_of};
ghost use Rattle.wave_board.specs.Taking.{MayTake, Took};
ghost use Rattle.wave_board.specs.inner.Doing.{Appends, CanAppend, Chooses};

use crate::board::Board;
use crate::holder::Holder;
use crate::known::{idle_hands_are_empty, lists_are_known};
use crate::parcel::Parcel;
use crate::turn::Turn;
use label_log::path_in;
use std::alloc::Global;
use wave_base::{OutOfMemory, Path, Worker};
use wave_labels::{Act, Label};

impl<'p> Board<'p> {
    /// Takes a label of this worker, where there is one. After want of memory the board is as before.
    pub fn take(&mut self, worker: Worker) -> Result<Turn, OutOfMemory>
        requires stands { IsStanding self.old }
        requires may { MayTake self.old worker }
        ensures stands { StandsStill self.old self.new }
        ensures took { IfOk result (λ work. Took self.old worker self.new work) }
        ensures same { OnErr result (history_of self.new ≡ history_of self.old) }
    {
        match self.word {
            Some(word) => Ok(Turn::Stopped(word.why)),
            None => self.go_on(worker),
        }
    }

    // The same, where the workers were not stopped.
    fn go_on(&mut self, worker: Worker) -> Result<Turn, OutOfMemory>
        requires stands { IsStanding self.old }
        requires may { MayTake self.old worker }
        requires goes_on { self.old.word ≡ None }
        ensures stands { StandsStill self.old self.new }
        ensures took { IfOk result (λ work. Took self.old worker self.new work) }
        ensures same { OnErr result (history_of self.new ≡ history_of self.old) }
    {
        if self.machine.is_finished() {
            return Ok(Turn::Finished);
        }
        match self.choice(worker) {
            None => Ok(Turn::Nothing),
            Some(label) => self.append(&label),
        }
    }

    // What this worker takes next, where it can take something. Which of several labels that is no clause says.
    fn choice(&self, worker: Worker) -> Option<Label>
        requires stands { IsStanding self.now }
        requires may { MayTake self.now worker }
        ensures { Chooses self.now worker result }
    {
        idle_hands_are_empty();
        lists_are_known();
        self.machine.some_for(worker)
    }

    // Takes a label: all that wants memory comes first.
    fn append(&mut self, label: &Label) -> Result<Turn, OutOfMemory>
        requires can { CanAppend self.old label.now }
        requires kind { is_start label.now.act ≡ false → is_step label.now.act ≡ true }
        ensures stands { StandsStill self.old self.new }
        ensures took { IfOk result (λ work. Appends self.old label.now self.new work) }
        ensures same { OnErr result (history_of self.new ≡ history_of self.old) }
    {
        let root = Path::root();
        self.journal.reserve(path_in(&label.act, &root))?;
        if is_start(&label.act) {
            let holder = holder_for(self.alloc, &mut self.spare)?;
            let lease = self.machine.take_start(label)?;
            self.journal.push_reserved(label);
            return Ok(Turn::Segment(Parcel::of(holder, lease)));
        }
        self.machine.take(label)?;
        self.journal.push_reserved(label);
        Ok(Turn::Stepped(*label))
    }
}

// A box for a segment: the one that is spare, or a new one.
fn holder_for(alloc: Global, spare: &mut Option<Box<Holder>>) -> Result<Box<Holder>, OutOfMemory> {
    match spare.take() {
        Some(holder) => Ok(holder),
        None => {
            let empty = Holder {
                lease: None,
                pause: None,
            };
            Ok(Box::new(alloc, empty)?)
        }
    }
}

fn is_start(act: &Act) -> bool
    ensures { result ≡ is_start act.now }
{
    matches!(act, Act::Start(_, _))
}
