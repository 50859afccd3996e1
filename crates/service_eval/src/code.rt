//! What events run by: the shape and the methods of their service.

use resolved_service::Method;
use std::alloc::Global;
use wave_base::Shape;

/// What events run by: the shape and the methods of their service.
#[derive(Clone, Copy)]
pub struct Code<'c> {
    /// The allocator.
    pub alloc: Global,
    /// What the service declares.
    pub shape: &'c Shape,
    /// Its methods; calls name them by their places.
    pub methods: &'c [Method],
}
