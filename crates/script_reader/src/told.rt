//! What a line of a script with policies is, once it is taken.

use crate::taken::Taken;
use wave_base::Policy;

/// A line of a script with policies that was taken.
#[derive(Debug, Drop)]
pub enum Told {
    /// A line that a script without policies may have too.
    Plain(Taken),
    /// A policy.
    Policed(Policy),
}
