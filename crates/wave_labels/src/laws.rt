//! Laws of labels: each is the contract of a function that does nothing.

ghost use Rattle.std.specs.Prelude.{◌≡◌, ◌↔◌, IsTrue};
ghost use Rattle.wave_labels.specs.declared.label.Act.{Act};
ghost use Rattle.wave_labels.specs.declared.label.Label.{Label};
ghost use Rattle.wave_labels.specs.declared.label.MailId.{MailId};
ghost use Rattle.wave_labels.specs.Labels.{mail_eq, act_eq, label_eq, label_of};

/// Where `==` says so, and only there, two of them are the same.
pub fn equal_is_same()
    ensures mails { (m n : MailId) → IsTrue (mail_eq m n) ↔ (m ≡ n) }
    ensures acts { (a b : Act) → IsTrue (act_eq a b) ↔ (a ≡ b) }
    ensures labels { (a b : Label) → IsTrue (label_eq a b) ↔ (a ≡ b) }
{}

/// A label is known by the label of the theory that it stands for.
pub fn labels_tell()
    ensures { (a b : Label) → label_of a ≡ label_of b → a ≡ b }
{}
