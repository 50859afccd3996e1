// A worker's visits to the board.
ghost use Rattle.std.specs.Prelude.{◌≡◌};
ghost use Rattle.kept_lock.specs.Locks.{name_of, knowledge, IsPassOf};
ghost use Rattle.host_workers.specs.Endings.{IsHalted};
ghost use Rattle.host_workers.specs.Passes.{GoesOn, OnlyHalts};
ghost use Rattle.host_workers.specs.inner.Rounds.{Brings, IsCalm};
ghost use Rattle.host_workers.specs.inner.Visits.{HasStopped, HasTurned, MayTurn};
ghost use Rattle.host_workers.specs.inner.Writing.{AreToldOf, Offered};

use crate::packet::Packet;
use crate::post::Post;
use crate::told::Told;
use crate::turns::turn;
use kept_lock::{Parting, Pass};
use plan_actors::finished_states_tell;
use std::sync::Wait;
use wave_board::{Board, StopCause, leases_stay, results_stay};
use wave_effects::heads_are_known;

/// Gives back what the worker brings, and asks for lines and for work.
pub(crate) fn visit<'l, 'p, R: Wait, G>(
    post: &Post<'l, 'p, R, G>,
    pass: &mut Pass<Board<'p>>,
    packet: Option<Packet>,
    written: Option<u32>,
) -> Told
    requires of_lock { IsPassOf post.now.lock.now pass.old }
    requires brings { Brings (name_of post.now.lock.now) (knowledge pass.old) post.now.number packet }
    requires committed { AreToldOf (name_of post.now.lock.now) (knowledge pass.old) written }
    ensures of_lock { IsPassOf post.now.lock.now pass.new }
    ensures on { GoesOn (knowledge pass.old) (knowledge pass.new) }
    ensures offered { Offered (name_of post.now.lock.now) (knowledge pass.new) post.now.number written result.offer }
{
    finished_states_tell();
    heads_are_known();
    results_stay();
    leases_stay();
    let number = post.number;
    let left = post.lock.attempt(
        post.rt,
        pass,
        move |board: &mut Board| -> Parting<Told>
            requires { MayTurn board.now number packet written }
            ensures { HasTurned board.entry.now number packet written board.exit.now result.told.offer }
        { turn(board, number, packet, written) },
    );
    left.told
}

/// Stops the workers. Worker 0 alone stops them for a sink, since no other writes.
pub(crate) fn halt<'l, 'p, R: Wait, G>(
    post: &Post<'l, 'p, R, G>,
    pass: &mut Pass<Board<'p>>,
    why: StopCause,
)
    requires of_lock { IsPassOf post.now.lock.now pass.old }
    requires calm { IsCalm (name_of post.now.lock.now) (knowledge pass.old) post.now.number }
    requires writer { why ≡ StopCause.SinkFault → post.now.number.0 ≡ 0 }
    ensures of_lock { IsPassOf post.now.lock.now pass.new }
    ensures on { GoesOn (knowledge pass.old) (knowledge pass.new) }
    ensures halted { IsHalted (knowledge pass.new).seen }
    ensures own { OnlyHalts (knowledge pass.new).made why }
{
    let number = post.number;
    post.lock.visit(
        post.rt,
        pass,
        |board: &mut Board|
            requires { why ≡ StopCause.SinkFault → number.0 ≡ 0 }
            ensures { HasStopped board.entry.now number why board.exit.now }
        { board.stop(number, why) },
    )
}
