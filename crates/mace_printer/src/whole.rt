// Contexts and the service.

ghost use Rattle.std.specs.Prelude.{◌≡◌, ◌++◌, map, OnOk, IfOk};
ghost use Rattle.mace_ast.specs.Decls.{ServiceTree, context_tree, service_tree, SameUpToSpans};
ghost use Rattle.mace_grammar.specs.Spelled.{Spelled};
ghost use Rattle.mace_printer.specs.Canon as words;
ghost use Rattle.mace_printer.specs.inner.Parts as parts;
ghost use Rattle.mace_printer.specs.Layout.{layout};
ghost use Rattle.mace_printer.specs.Written.{IsParsed, IsCutInto};

use crate::field::put_vars;
use crate::member::{put_events, put_methods};
use crate::word::{put_key, put_name, put_number, put_sign};
use mace_ast::{ContextDecl, Service};
use mace_lexer::{Keyword, Sign};
use std::alloc::Global;
use wave_base::{OutOfMemory, Seq, Txt, Version};

// What stands before the fields of a context.
fn put_head(out: &mut Vec<u8>, name: &Txt) -> Result<(), OutOfMemory>
    ensures { OnOk result (out.new.items ≡ out.old.items ++ layout (parts.head_words name.now)) }
{
    put_key(out, Keyword::Context)?;
    put_name(out, name)?;
    put_sign(out, Sign::LeftBracket)?;
    put_key(out, Keyword::Int)?;
    put_sign(out, Sign::RightBracket)?;
    put_sign(out, Sign::LeftBrace)
}

#[cycle(context)]
fn put_context(alloc: Global, out: &mut Vec<u8>, context: &ContextDecl) -> Result<(), OutOfMemory>
    ensures { OnOk result (out.new.items ≡ out.old.items ++ layout (words.context_words (context_tree context.now))) }
{
    put_head(out, &context.name.text)?;
    put_vars(alloc, out, context.vars.as_slice())?;
    put_contexts(alloc, out, &context.contexts)?;
    put_methods(alloc, out, context.methods.as_slice())?;
    put_sign(out, Sign::RightBrace)
}

#[cycle(context)]
fn put_contexts(
    alloc: Global,
    out: &mut Vec<u8>,
    contexts: &[ContextDecl],
) -> Result<(), OutOfMemory>
    ensures { OnOk result (out.new.items ≡ out.old.items ++ layout (words.all_of words.context_words (map context_tree contexts.now))) }
{
    for context in contexts {
        put_context(alloc, out, context)?;
    }
    Ok(())
}

// The number of the version, which the first leaves out.
fn put_version(alloc: Global, out: &mut Vec<u8>, version: Version) -> Result<(), OutOfMemory>
    ensures { OnOk result (out.new.items ≡ out.old.items ++ layout (words.version_words version)) }
{
    match version {
        Version::First => Ok(()),
        Version::Second => put_number(alloc, out, 2),
    }
}

#[tactic(auto, unfolding(crate::specs::Canon::service_words))]
fn put_service(alloc: Global, out: &mut Vec<u8>, service: &Service) -> Result<(), OutOfMemory>
    ensures { OnOk result (out.new.items ≡ out.old.items ++ layout (words.service_words (service_tree service.now))) }
{
    put_key(out, Keyword::Service)?;
    put_name(out, &service.name.text)?;
    put_version(alloc, out, service.version)?;
    put_sign(out, Sign::LeftBrace)?;
    put_vars(alloc, out, service.vars.as_slice())?;
    put_contexts(alloc, out, service.contexts.as_slice())?;
    put_methods(alloc, out, service.methods.as_slice())?;
    put_events(alloc, out, service.events.as_slice())?;
    put_sign(out, Sign::RightBrace)
}

/// A service in canonical layout: its canonical words, with a line feed behind each brace and semicolon, and a space
/// behind each other word.
pub fn print(alloc: Global, service: &Service) -> Result<Seq<u8>, OutOfMemory>
    requires { IsParsed (service_tree service.now) }
    ensures bytes { IfOk result (λ out. out ≡ layout (words.service_words (service_tree service.now))) }

    // The bytes are cut into these words, and the words spell this service and no other.
    ensures cut { IfOk result (λ out. IsCutInto out (words.service_words (service_tree service.now))) }
    ensures spelled { Spelled (service_tree service.now) (words.service_words (service_tree service.now)) }
    ensures only { (s : ServiceTree) → Spelled s (words.service_words (service_tree service.now)) → SameUpToSpans s (service_tree service.now) }
{
    let mut out = Vec::new(alloc);
    put_service(alloc, &mut out, service)?;
    Ok(Seq::from_vec(out))
}
