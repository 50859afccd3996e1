//! What is given back to a board.

ghost use Rattle.std.specs.Prelude.{◌≡◌, IfErr, OnErr, OnOk};
ghost use Rattle.wave_board.specs.Boards.{StandsStill, history_of};
ghost use Rattle.wave_board.specs.Giving.{CanGive, Gives, IsGiven};

use crate::board::Board;
use crate::reply::Reply;
use crate::returned::Returned;
use wave_effects::Refused;

impl<'p> Board<'p> {
    /// Takes the Stop of a segment that is out: lease and pause are what one segment gave on what the lease's worker has in its hand.
    /// After want of memory they come back as they were, and the board is as before.
    pub fn give(&mut self, reply: Reply) -> Result<(), Returned>
        requires { CanGive self.old reply.lease reply.pause }
        ensures stands { OnOk result (Gives self.old reply.lease reply.pause self.new) }
        ensures given { OnOk result (IsGiven self.old self.new reply.lease) }
        ensures refused { IfErr result (λ r. r.reply ≡ reply) }
        ensures still { OnErr result (StandsStill self.old self.new) }
        ensures same { OnErr result (history_of self.new ≡ history_of self.old) }
    {
        if let Err(error) = self.journal.reserve(&reply.lease().path) {
            return Err(Returned { reply, error });
        }
        let (holder, lease, pause) = reply.open();
        match self.machine.stop(lease, pause) {
            Ok(label) => {
                self.journal.push_reserved(&label);
                self.spare = Some(holder);
                Ok(())
            }
            Err(
                Refused {
                    lease,
                    pause,
                    error,
                },
            ) => {
                let reply = Reply::of(holder, lease, pause);
                Err(Returned { reply, error })
            }
        }
    }
}
