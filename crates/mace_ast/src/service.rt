//! A whole service, as it is written.

use crate::context::ContextDecl;
use crate::event::EventDecl;
use crate::field::VarDecl;
use crate::method::MethodDecl;
use crate::name::Name;
use wave_base::{Seq, Span, Version};

/// A service, with the place of `service`.
#[derive(Debug, Drop)]
pub struct Service {
    /// Where `service` stands.
    pub at: Span,
    /// The name of the service.
    pub name: Name,
    /// The version of the language that it is written in: the second where its number stands behind the name, else the first.
    pub version: Version,
    /// The fields of the root.
    pub vars: Seq<VarDecl>,
    /// The classes right below the root.
    pub contexts: Seq<ContextDecl>,
    /// What may be called in the root.
    pub methods: Seq<MethodDecl>,
    /// What callers may ask of the service.
    pub events: Seq<EventDecl>,
}
