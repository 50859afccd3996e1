//! The order of labels: by kind, each with its place.

ghost use Rattle.std.specs.Prelude.{◌≡◌, nat_lt};
ghost use Rattle.wave_labels.specs.Labels.{act_of};
ghost use Rattle.wave_theory.specs.Listed.{kind_rank};

use wave_labels::Act;

pub(crate) const ADMIT: u8 = 0;

pub(crate) const QUEUE: u8 = 1;

pub(crate) const GRANT: u8 = 2;

pub(crate) const VISIT: u8 = 3;

pub(crate) const START: u8 = 4;

pub(crate) const STOP: u8 = 5;

pub(crate) const FREE: u8 = 6;

pub(crate) const PASS: u8 = 7;

pub(crate) const LAND: u8 = 8;

pub(crate) const COMMIT: u8 = 9;

// The place of its kind in the order.
pub(crate) fn kind_rank(act: &Act) -> u8
    ensures { result ≡ kind_rank (act_of act.now) }
{
    match act {
        Act::Admit(_) => ADMIT,
        Act::Queue(..) => QUEUE,
        Act::Grant(..) => GRANT,
        Act::Visit(..) => VISIT,
        Act::Start(..) => START,
        Act::Stop(..) => STOP,
        Act::Free(..) => FREE,
        Act::Pass(..) => PASS,
        Act::Land(..) => LAND,
        Act::Commit(_) => COMMIT,
    }
}

// Whether its kind comes behind the Stops: a Free, Pass, Land or Commit.
pub(crate) fn is_late(act: &Act) -> bool
    ensures { result ≡ nat_lt 5 (kind_rank (act_of act.now)) }
{
    kind_rank(act) > STOP
}
