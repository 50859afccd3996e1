//! Lists of labels that grow.

ghost use Rattle.std.specs.Prelude.{◌≡◌, ◌++◌, ◌∷◌, [], map, OnOk};
ghost use Rattle.wave_labels.specs.Labels.{label_of};
ghost use Rattle.wave_machine.specs.inner.Asking.{labels_in};

use wave_base::{Host, OutOfMemory, Worker};
use wave_labels::{Act, Label};

// Adds a label, where there is one.
pub(crate) fn add(labels: &mut Vec<Label>, label: Option<Label>) -> Result<(), OutOfMemory>
    ensures { OnOk result (map label_of labels.new.items ≡ map label_of labels.old.items ++ labels_in label) }
{
    match label {
        Some(label) => push(labels, label.worker, label.host, label.act),
        None => Ok(()),
    }
}

pub(crate) fn push(
    labels: &mut Vec<Label>,
    worker: Worker,
    host: Host,
    act: Act,
) -> Result<(), OutOfMemory>
    ensures { OnOk result (labels.new.items ≡ labels.old.items ++ record { worker = worker; host = host; act = act } ∷ []) }
{
    labels.push(Label { worker, host, act })?;
    Ok(())
}
