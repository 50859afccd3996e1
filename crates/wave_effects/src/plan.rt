//! What a machine runs.

use service_verify::Verified;
use wave_base::Script;

/// What the machine is to run: the code of a service, a script for it, and by how many workers.
#[derive(Drop)]
pub struct Plan {
    /// The service's code.
    pub program: Verified,
    /// The lines to run.
    pub script: Script,
    /// How many workers there are: 1 to 16.
    pub workers: u8,
}
