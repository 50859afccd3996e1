//! What a visit ends with.

use crate::wakes::Wakes;

/// What an attempt ends with.
#[derive(Debug, Drop)]
pub struct Parting<T> {
    /// What it tells.
    pub told: T,
    /// Whom it wakes as it leaves.
    pub wakes: Wakes,
}
