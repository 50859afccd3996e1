//! Policies of scripts.

use crate::numbers::Host;

/// How contexts are moved between hosts before a batch is run.
#[derive(Clone, Copy, Debug, PartialEq, Eq)]
pub enum Policy {
    /// So many moves at most, 1 to `EVENT_LINES`, each from the host of greatest load to that of least.
    Balance(u32),
    /// All that is on the first host goes to the second, which is another one.
    Drain(Host, Host),
}
