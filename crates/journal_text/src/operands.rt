//! What stands behind the word of an act, as it is read.

ghost use Rattle.std.specs.Prelude.{◌≡◌, true, IfOk, IfSome};
ghost use Rattle.wave_base.specs.Names.{HasNames};
ghost use Rattle.wave_base.specs.Shapes.{IsShape, is_path};
ghost use Rattle.journal_text.specs.Fits.{HasPath};
ghost use Rattle.journal_text.specs.declared.verb.Verb.TheVariants.{Pass};
ghost use Rattle.journal_text.specs.inner.Parts.{IsTicketAtOf, IsMailAtOf, IsOperandsOf};

use crate::number::{mail_of, ticket_of};
use crate::verb::Verb;
use crate::word::word_of;
use path_text::{ClassNames, path_for};
use std::alloc::Global;
use wave_base::{Host, OutOfMemory, Path, Ticket};
use wave_labels::{Act, MailId};
use wave_text::byte_of;

// A ticket and a path.
fn ticket_at(
    alloc: Global,
    classes: &ClassNames<'_>,
    text: &[u8],
) -> Result<Option<(Ticket, Path)>, OutOfMemory>
    requires shape { IsShape classes.now }
    requires names { HasNames classes.now }
    ensures only { IfOk result (IsTicketAtOf classes.now text.now) }
    ensures of_shape { IfOk result (λ o. IfSome o (λ x. is_path classes.now x.1 ≡ true)) }
{
    let (ticket, rest) = word_of(text);
    let (path, _) = word_of(rest);
    let Some(ticket) = ticket_of(ticket) else {
        return Ok(None);
    };
    match path_for(alloc, classes, path)? {
        Some(path) => Ok(Some((ticket, path))),
        None => Ok(None),
    }
}

// A mail and a path.
fn mail_at(
    alloc: Global,
    classes: &ClassNames<'_>,
    text: &[u8],
) -> Result<Option<(MailId, Path)>, OutOfMemory>
    requires shape { IsShape classes.now }
    requires names { HasNames classes.now }
    ensures only { IfOk result (IsMailAtOf classes.now text.now) }
    ensures of_shape { IfOk result (λ o. IfSome o (λ x. is_path classes.now x.1 ≡ true)) }
{
    let (mail, rest) = word_of(text);
    let (path, _) = word_of(rest);
    let Some(mail) = mail_of(mail) else {
        return Ok(None);
    };
    match path_for(alloc, classes, path)? {
        Some(path) => Ok(Some((mail, path))),
        None => Ok(None),
    }
}

// A mail, a path, and a host behind the word `to`.
fn pass_in(alloc: Global, classes: &ClassNames<'_>, text: &[u8]) -> Result<Option<Act>, OutOfMemory>
    requires shape { IsShape classes.now }
    requires names { HasNames classes.now }
    ensures only { IfOk result (IsOperandsOf classes.now Pass text.now) }
    ensures of_shape { IfOk result (λ o. IfSome o (HasPath classes.now)) }
{
    let (mail, rest) = word_of(text);
    let (path, rest) = word_of(rest);
    let (_, host) = word_of(rest);
    let Some(mail) = mail_of(mail) else {
        return Ok(None);
    };
    let Some(host) = byte_of(host) else {
        return Ok(None);
    };
    match path_for(alloc, classes, path)? {
        Some(path) => Ok(Some(Act::Pass(mail, path, Host(host)))),
        None => Ok(None),
    }
}

/// The act of a word with what stands behind it.
pub(crate) fn act_with(
    alloc: Global,
    classes: &ClassNames<'_>,
    verb: Verb,
    text: &[u8],
) -> Result<Option<Act>, OutOfMemory>
    requires shape { IsShape classes.now }
    requires names { HasNames classes.now }
    ensures only { IfOk result (IsOperandsOf classes.now verb text.now) }
    ensures of_shape { IfOk result (λ o. IfSome o (HasPath classes.now)) }
{
    match verb {
        Verb::Admit => Ok(ticket_of(text).map(Act::Admit)),
        Verb::Commit => Ok(ticket_of(text).map(Act::Commit)),
        Verb::Grant => Ok(ticket_at(alloc, classes, text)?.map(|(t, p)| Act::Grant(t, p))),
        Verb::Start => Ok(ticket_at(alloc, classes, text)?.map(|(t, p)| Act::Start(t, p))),
        Verb::Stop => Ok(ticket_at(alloc, classes, text)?.map(|(t, p)| Act::Stop(t, p))),
        Verb::Queue => Ok(mail_at(alloc, classes, text)?.map(|(m, p)| Act::Queue(m, p))),
        Verb::Visit => Ok(mail_at(alloc, classes, text)?.map(|(m, p)| Act::Visit(m, p))),
        Verb::Free => Ok(mail_at(alloc, classes, text)?.map(|(m, p)| Act::Free(m, p))),
        Verb::Land => Ok(mail_at(alloc, classes, text)?.map(|(m, p)| Act::Land(m, p))),
        Verb::Pass => pass_in(alloc, classes, text),
    }
}
