//! What is reported of a replay.

ghost use Rattle.std.specs.Prelude.{◌≡◌, ◌++◌, IfOk, OnOk};
ghost use Rattle.journal_text.specs.LabelTexts.{label_text};
ghost use Rattle.journal_replay.specs.Reports.{ending_text, lines_of, owner_text, refused_text, replayed_text, run_text, step_text};

use crate::replaying::Replayed;
use journal_text::put_label;
use path_text::put_path;
use std::alloc::Global;
use wave_base::{OutOfMemory, Place, Seq, Shape};
use wave_labels::Label;
use wave_text::{put_bytes, put_number};

/// The report of a journal that is a run: how many labels it has, and whether it is finished; the step that is shown, with how many
/// tickets were admitted and committed; and the contexts, each with its host.
pub fn replayed_text(
    alloc: Global,
    shape: &Shape,
    replayed: &Replayed,
) -> Result<Seq<u8>, OutOfMemory>
    ensures { IfOk result (λ text. text ≡ replayed_text shape.now replayed.now) }
{
    let mut out = Vec::new(alloc);
    put_run(alloc, &mut out, replayed)?;
    put_bytes(&mut out, b"\n")?;
    put_step(alloc, &mut out, replayed)?;
    put_bytes(&mut out, b"\n")?;
    put_owners(alloc, &mut out, shape, replayed.glance.owners.as_slice())?;
    Ok(Seq::from_vec(out))
}

fn put_run(alloc: Global, out: &mut Vec<u8>, replayed: &Replayed) -> Result<(), OutOfMemory>
    ensures { OnOk result (out.new.items ≡ out.old.items ++ run_text replayed.now) }
{
    put_bytes(out, b"run ")?;
    put_number(alloc, out, u64::from(replayed.steps))?;
    put_bytes(out, ending(replayed.finished))
}

fn ending(finished: bool) -> &'static [u8]
    ensures { result.now ≡ ending_text finished }
{
    if finished {
        b" finished"
    } else {
        b" unfinished"
    }
}

fn put_step(alloc: Global, out: &mut Vec<u8>, replayed: &Replayed) -> Result<(), OutOfMemory>
    ensures { OnOk result (out.new.items ≡ out.old.items ++ step_text replayed.now) }
{
    put_bytes(out, b"step ")?;
    put_number(alloc, out, u64::from(replayed.shown))?;
    put_bytes(out, b" admitted ")?;
    put_number(alloc, out, u64::from(replayed.glance.admitted))?;
    put_bytes(out, b" committed ")?;
    put_number(alloc, out, u64::from(replayed.glance.committed))
}

fn put_owners(
    alloc: Global,
    out: &mut Vec<u8>,
    shape: &Shape,
    owners: &[Place],
) -> Result<(), OutOfMemory>
    ensures { OnOk result (out.new.items ≡ out.old.items ++ lines_of (owner_text shape.now) owners.now) }
{
    for owner in owners {
        put_owner(alloc, out, shape, owner)?;
        put_bytes(out, b"\n")?;
    }
    Ok(())
}

fn put_owner(
    alloc: Global,
    out: &mut Vec<u8>,
    shape: &Shape,
    owner: &Place,
) -> Result<(), OutOfMemory>
    ensures { OnOk result (out.new.items ≡ out.old.items ++ owner_text shape.now owner.now) }
{
    put_bytes(out, b"owner ")?;
    put_path(alloc, out, shape, &owner.path)?;
    put_bytes(out, b" ")?;
    put_number(alloc, out, u64::from(owner.host.0))
}

/// The report of a journal that is no run: the place of the first label that can't be taken, and the labels that can.
pub fn refused_text(
    alloc: Global,
    shape: &Shape,
    step: u32,
    enabled: &Seq<Label>,
) -> Result<Seq<u8>, OutOfMemory>
    ensures { IfOk result (λ text. text ≡ refused_text shape.now step enabled.now) }
{
    let mut out = Vec::new(alloc);
    put_bytes(&mut out, b"refused ")?;
    put_number(alloc, &mut out, u64::from(step))?;
    put_bytes(&mut out, b"\nenabled ")?;
    put_number(alloc, &mut out, enabled.len() as u64)?;
    put_bytes(&mut out, b"\n")?;
    put_labels(alloc, &mut out, shape, enabled.as_slice())?;
    Ok(Seq::from_vec(out))
}

fn put_labels(
    alloc: Global,
    out: &mut Vec<u8>,
    shape: &Shape,
    labels: &[Label],
) -> Result<(), OutOfMemory>
    ensures { OnOk result (out.new.items ≡ out.old.items ++ lines_of (label_text shape.now) labels.now) }
{
    for label in labels {
        put_label(alloc, out, shape, label)?;
        put_bytes(out, b"\n")?;
    }
    Ok(())
}
