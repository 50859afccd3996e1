//! What a script with policies asks to be run.

use elastic_policy::Stages;
use resolved_service::Resolved;
use service_verify::Verified;

/// What is to be run piece by piece: a service with each name resolved, its code, and a script with policies for it.
#[derive(Debug, Drop)]
pub struct StagedWork {
    /// The service, with each name resolved.
    pub service: Resolved,
    /// Its code, verified.
    pub program: Verified,
    /// The pieces of the script.
    pub stages: Stages,
}
