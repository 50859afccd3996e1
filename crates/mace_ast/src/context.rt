//! Classes of contexts, as they are written.

ghost use Rattle.std.specs.Prelude.{◌≡◌, map};
ghost use Rattle.mace_ast.specs.Decls.{Context, context_tree, contexts_of, method_tree};

use crate::field::VarDecl;
use crate::method::MethodDecl;
use crate::name::Name;
use wave_base::{Seq, Span};

/// A class of contexts, with the place of `context`.
#[derive(Debug, Drop)]
pub struct ContextDecl {
    /// Where `context` stands.
    pub at: Span,
    /// The name of the class.
    pub name: Name,
    /// The fields of a context.
    pub vars: Seq<VarDecl>,
    /// The classes below it.
    pub contexts: Vec<ContextDecl>,
    /// What may be called in a context.
    pub methods: Seq<MethodDecl>,
}

impl ContextDecl {
    /// A context class, declared with its fields, the classes below it and its methods.
    pub fn new(
        at: Span,
        name: Name,
        vars: Seq<VarDecl>,
        contexts: Vec<ContextDecl>,
        methods: Seq<MethodDecl>,
    ) -> ContextDecl
        ensures { context_tree result ≡ Context at name vars (contexts_of (map context_tree contexts.items)) (map method_tree methods) }
    {
        ContextDecl {
            at,
            name,
            vars,
            contexts,
            methods,
        }
    }
}
