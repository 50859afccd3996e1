//! What becomes of an input that is not accepted.

use crate::answer::Answer;
use wave_base::OutOfMemory;

/// Why nothing comes of an input.
#[derive(Debug, Drop)]
pub enum Refusal {
    /// It is refused, and this is due.
    Due(Answer),
    /// Memory was wanting.
    OutOfMemory(OutOfMemory),
}

impl From<OutOfMemory> for Refusal {
    ghost use Rattle.std.specs.Prelude.{◌≡◌};
    ghost use Rattle.due_parts.specs.declared.refusal.Refusal.TheVariants as refusal;

    ghost from_gives = { λ refused r. r ≡ refusal.OutOfMemory refused };

    fn from(refused: OutOfMemory) -> Refusal {
        Refusal::OutOfMemory(refused)
    }
}
