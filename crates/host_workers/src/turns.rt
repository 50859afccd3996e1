// What a worker does at the board in one visit.
ghost use Rattle.std.specs.Prelude.{◌≡◌, ◌⊎◌, IfOk, OnErr, OnOk};
ghost use Rattle.wave_board.specs.Boards.{IsStanding, StandsStill, history_of};
ghost use Rattle.wave_board.specs.Taking.{MayTake};
ghost use Rattle.host_workers.specs.inner.Calls.{IsIdle, Leaves, Naps};
ghost use Rattle.host_workers.specs.inner.Visits.{CanBring, CanTellTo, HasFound, HasTurned, IsBrought, MayTurn, TellsTo};

use crate::calls::{is_for_another, leave, may_rest, with_ticks};
use crate::offer::Offer;
use crate::packet::Packet;
use crate::takes::take;
use crate::task::Task;
use crate::told::Told;
use kept_lock::{Parting, Wakes};
use wave_base::{OutOfMemory, Seq, Shown, Worker};
use wave_board::{Board, Crew};

/// Gives back what the worker brings, finds something for it, and says whom it wakes as it leaves. Lines go to the worker that writes, which
/// tells of how many tickets they are written.
pub(crate) fn turn(
    board: &mut Board,
    number: Worker,
    packet: Option<Packet>,
    written: Option<u32>,
) -> Parting<Told>
    requires { MayTurn board.old number packet written }
    ensures { HasTurned board.old number packet written board.new result.told.offer }
{
    match bring(board, packet) {
        Ok(ticks) => {
            let crew = with_ticks(board.crew(), ticks);
            let offer = find(board, number, written, &crew);
            let more = is_for_another(board, &crew, &offer);
            let wakes = leave(board, number, written, crew, &offer, more);
            let told = Told { offer, more };
            Parting { told, wakes }
        }
        Err(refused) => Parting {
            told: Told {
                offer: Err(refused),
                more: false,
            },
            wakes: Wakes::Nobody,
        },
    }
}

// Gives back a segment, where there is one, and tells its ticks.
fn bring(board: &mut Board, packet: Option<Packet>) -> Result<Option<u32>, OutOfMemory>
    requires { CanBring board.old packet }
    ensures brought { OnOk result (IsBrought board.old packet board.new) }
    ensures stands { OnErr result (StandsStill board.old board.new) }
    ensures same { OnErr result (history_of board.new ≡ history_of board.old) }
{
    match packet {
        None => Ok(None),
        Some(Packet { reply, ticks }) => match board.give(reply) {
            Ok(()) => Ok(Some(ticks)),
            Err(refused) => Err(refused.error),
        },
    }
}

// Lines that are new, or else what there is for the worker.
fn find(
    board: &mut Board,
    number: Worker,
    written: Option<u32>,
    crew: &Crew,
) -> Result<Offer, OutOfMemory>
    requires stands { IsStanding board.old }
    requires may { MayTake board.old number }
    requires can { CanTellTo board.old written }
    ensures stands { StandsStill board.old board.new }
    ensures found { HasFound board.old number board.new written result }
    ensures naps { Naps result → Leaves board.old crew.now number ⊎ IsIdle board.new number }
{
    match fresh(board, written) {
        Ok(Some(lines)) => Ok(Offer::Lines(lines)),
        Ok(None) => {
            if may_rest(board, crew, number) {
                return Ok(Offer::Task(Task::Rest));
            }
            match take(board, number) {
                Ok(task) => Ok(Offer::Task(task)),
                Err(refused) => Err(refused),
            }
        }
        Err(refused) => Err(refused),
    }
}

// Lines that are new to the worker that writes; for another there are none.
fn fresh(board: &Board, written: Option<u32>) -> Result<Option<Seq<Shown>>, OutOfMemory>
    requires { CanTellTo board.now written }
    ensures { IfOk result (TellsTo board.now written) }
{
    match written {
        Some(written) => board.fresh(written),
        None => Ok(None),
    }
}
