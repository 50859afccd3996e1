//! What holds of checkpoints as texts: each point has one text, and each text one point.

ghost use Rattle.checkpoint_store.specs.Laws.{AreReadBack, HaveOneText};

/// What `write_checkpoint` writes of a point `read_checkpoint` reads as that point, and of a point that was read the same text is
/// written.
pub fn points_have_one_text()
    ensures again { AreReadBack }
    ensures same { HaveOneText }
{}
