//! The laws of journals at machines and boards: each is the contract of a function that does nothing.

ghost use Rattle.serial_runs.specs.Journals.{OwnersTake};
ghost use Rattle.wave_effects.specs.Lengths.{HoldsOver};
ghost use Rattle.machine_laws.specs.Journals.{InBoardsOver};
ghost use Rattle.machine_laws.specs.Turns.{TurnsInEitherOrder};

use serial_runs::{plans_have_owners, plans_take_either_order};
use wave_effects::labels_are_apart;

/// Of each list of labels that leads to a state for which a machine stands, each label, wherever it stands, was taken by a host that owns
/// its context just before it or just after it.
pub fn machines_have_owners()
    ensures { HoldsOver OwnersTake }
{
    plans_have_owners();
}

/// Of a board's journal each label, wherever it stands, was taken by a host that owns its context just before it or just after it.
pub fn boards_have_owners()
    ensures { InBoardsOver OwnersTake }
{
    plans_have_owners();
}

/// Two calls of a machine whose labels are enabled and stand apart may be made in both orders, and in both the machine comes to stand for
/// one state.
pub fn machines_take_either_order()
    ensures { TurnsInEitherOrder }
{
    labels_are_apart();
    plans_take_either_order();
}
