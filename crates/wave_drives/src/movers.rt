//! Moves first.

ghost use Rattle.std.specs.Prelude.{◌≡◌, map, option_map};
ghost use Rattle.wave_labels.specs.Labels.{label_of};
ghost use Rattle.wave_drives.specs.inner.Moving.{first_move};

use crate::rules::ticket_of;
use wave_base::Ticket;
use wave_labels::Label;
use wave_machine::Machine;

// The first label of a move, else the first.
pub(crate) fn by_movers(machine: &Machine, labels: &[Label]) -> Option<Label>
    ensures { option_map label_of result ≡ first_move machine.now.kept (map label_of labels.now) }
{
    for label in labels {
        if machine.is_move(Ticket(ticket_of(&label.act))) {
            return Some(*label);
        }
    }
    labels.first().copied()
}
