//! How a drive picks from what can be done.

ghost use Rattle.std.specs.Prelude.{◌≡◌, ℕ, nat_lt, nat_le, if◌then◌else◌, map, option_map};
ghost use Rattle.wave_labels.specs.Labels.{act_of, label_of};
ghost use Rattle.wave_states.specs.Labels.{takes_mail, ticket_of};
ghost use Rattle.wave_states.specs.Runs.{seed, oldest, newest, mail_last, last_of};
ghost use Rattle.wave_effects.specs.Machines.{TheState};

use wave_base::Draws;
use wave_labels::{Act, Label};

/// How a drive picks from what can be done, which is in the canonical order. A label's ticket is that of its act, or of its mail.
#[derive(Clone, Copy, Debug, PartialEq, Eq)]
pub enum PickRule {
    /// By draws of a generator that begins with this number, one for each pick among two labels and more.
    Seed(u64),
    /// The first label of the least ticket.
    Oldest,
    /// The last label of the greatest ticket.
    Newest,
    /// The first label whose ticket is a move's, else the first.
    Movers,
    /// The first label that takes no mail, else the last.
    MailLast,
}

// By a draw, where there are two labels and more.
pub(crate) fn by_seed(draw: &mut u64, labels: &[Label]) -> Option<Label>
    ensures { (s : TheState) → seed draw.old s (map label_of labels.now) ≡ (draw.new, option_map label_of result) }
{
    if labels.len() < 2 {
        return labels.first().copied();
    }
    let mut draws = Draws { state: *draw };
    let place = draws.draw_below(labels.len() as u64);
    *draw = draws.state;
    Some(labels[place as usize])
}

// The first label of the least ticket.
pub(crate) fn by_oldest(labels: &[Label]) -> Option<Label>
    ensures { (x : ℕ) (s : TheState) → oldest x s (map label_of labels.now) ≡ (x, option_map label_of result) }
{
    let mut least = *labels.first()?;
    for label in labels {
        least = older(&least, label);
    }
    Some(least)
}

fn older(least: &Label, label: &Label) -> Label
    ensures { label_of result ≡ (if nat_lt (ticket_of (act_of label.now.act)) (ticket_of (act_of least.now.act)) then label_of label.now else label_of least.now) }
{
    if ticket_of(&label.act) < ticket_of(&least.act) {
        *label
    } else {
        *least
    }
}

// The last label of the greatest ticket.
pub(crate) fn by_newest(labels: &[Label]) -> Option<Label>
    ensures { (x : ℕ) (s : TheState) → newest x s (map label_of labels.now) ≡ (x, option_map label_of result) }
{
    let mut greatest = *labels.first()?;
    for label in labels {
        greatest = newer(&greatest, label);
    }
    Some(greatest)
}

fn newer(greatest: &Label, label: &Label) -> Label
    ensures { label_of result ≡ (if nat_le (ticket_of (act_of greatest.now.act)) (ticket_of (act_of label.now.act)) then label_of label.now else label_of greatest.now) }
{
    if ticket_of(&greatest.act) <= ticket_of(&label.act) {
        *label
    } else {
        *greatest
    }
}

// The first label that takes no mail, else the last.
pub(crate) fn by_mail_last(labels: &[Label]) -> Option<Label>
    ensures { (x : ℕ) (s : TheState) → mail_last x s (map label_of labels.now) ≡ (x, option_map label_of result) }
{
    for label in labels {
        if !takes_mail(&label.act) {
            return Some(*label);
        }
    }
    last(labels)
}

fn last(labels: &[Label]) -> Option<Label>
    ensures { option_map label_of result ≡ last_of (map label_of labels.now) }
{
    labels.last().copied()
}

// The ticket of a label: that of its mail, where it has one.
pub(crate) fn ticket_of(act: &Act) -> u32
    ensures { result ≡ ticket_of (act_of act.now) }
{
    match act {
        Act::Admit(ticket)
        | Act::Grant(ticket, _)
        | Act::Start(ticket, _)
        | Act::Stop(ticket, _)
        | Act::Commit(ticket) => ticket.0,
        Act::Queue(mail, _)
        | Act::Visit(mail, _)
        | Act::Free(mail, _)
        | Act::Pass(mail, _, _)
        | Act::Land(mail, _) => mail.ticket.0,
    }
}

fn takes_mail(act: &Act) -> bool
    ensures { result ≡ takes_mail (act_of act.now) }
{
    match act {
        Act::Queue(..) | Act::Visit(..) | Act::Free(..) | Act::Pass(..) | Act::Land(..) => true,
        Act::Admit(_) | Act::Grant(..) | Act::Start(..) | Act::Stop(..) | Act::Commit(_) => false,
    }
}
