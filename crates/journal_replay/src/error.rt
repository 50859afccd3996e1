//! Why a journal is no run of a plan.

use thiserror::Error;
use wave_base::{OutOfMemory, Seq};
use wave_labels::Label;

/// Why a journal was not replayed to its end.
#[derive(Debug, Drop, Error)]
pub enum ReplayError {
    /// It is no run: this label can't be taken where the labels before it lead to.
    #[error("label {step} can't be taken")]
    Refused {
        /// Its place, from 1.
        step: u32,
        /// The label.
        label: Label,
        /// What can be taken there, in the canonical order.
        enabled: Seq<Label>,
    },
    /// Memory was wanting, and nothing is said of the journal.
    #[error("out of memory")]
    OutOfMemory(OutOfMemory),
}

impl From<OutOfMemory> for ReplayError {
    ghost use Rattle.std.specs.Prelude.{◌≡◌};
    ghost use Rattle.journal_replay.specs.declared.error.ReplayError.TheVariants as error;

    ghost from_gives = { λ refused e. e ≡ error.OutOfMemory refused };

    fn from(refused: OutOfMemory) -> ReplayError {
        ReplayError::OutOfMemory(refused)
    }
}
