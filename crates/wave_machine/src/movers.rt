//! Which tickets are moves.

ghost use Rattle.std.specs.Prelude.{◌≡◌, Some};
ghost use Rattle.head_tickets.specs.Heads.{next_line};
ghost use Rattle.wave_effects.specs.Keeping.{kept_of};
ghost use Rattle.wave_effects.specs.Kinds.{is_move};
ghost use Rattle.wave_machine.specs.Movers.{line_moves, moves_in};

use event_cells::JobKind;
use wave_base::{Line, Ticket};
use wave_effects::Engine;

// Whether the job of a ticket is a move that was admitted, or that is admitted next.
pub(crate) fn is_mover(engine: &Engine, ticket: Ticket) -> bool
    ensures { result ≡ moves_in (kept_of engine.now) ticket.0 }
{
    let place = ticket.0.saturating_sub(engine.first) as usize;
    match engine.kinds.get(place) {
        Some(kind) => is_move(*kind),
        None => next_moves(engine),
    }
}

fn next_moves(engine: &Engine) -> bool
    ensures { result ≡ line_moves (next_line engine.now.head) }
{
    match engine.head.upcoming() {
        Some(line) => moves(line),
        None => false,
    }
}

fn is_move(kind: JobKind) -> bool
    ensures { result ≡ is_move kind }
{
    match kind {
        JobKind::Move => true,
        JobKind::Event(_) | JobKind::Snapshot => false,
    }
}

fn moves(line: &Line) -> bool
    ensures { result ≡ line_moves (Some line.now) }
{
    match line {
        Line::Move(_, _) => true,
        Line::Request(_) | Line::Snapshot => false,
    }
}
