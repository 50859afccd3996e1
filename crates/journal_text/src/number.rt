//! Numbers in labels, as they are read: hosts, workers, tickets, mails.

ghost use Rattle.journal_text.specs.inner.Parts.{IsMarkedOf, IsTicketOf, IsMailOf};

use wave_base::Ticket;
use wave_labels::MailId;
use wave_text::{byte_of, parts_at, u32_of};

/// The number of one byte behind a mark.
pub(crate) fn marked_byte(text: &[u8]) -> Option<u8>
    ensures { IsMarkedOf 8 text.now result }
{
    match text {
        [_, digits @ ..] => byte_of(digits),
        [] => None,
    }
}

// The number behind a mark.
fn marked_number(text: &[u8]) -> Option<u32>
    ensures { IsMarkedOf 32 text.now result }
{
    match text {
        [_, digits @ ..] => u32_of(digits),
        [] => None,
    }
}

/// The ticket that a text is written for.
pub(crate) fn ticket_of(text: &[u8]) -> Option<Ticket>
    ensures { IsTicketOf text.now result }
{
    match marked_number(text) {
        Some(number) => Some(Ticket(number)),
        None => None,
    }
}

/// The mail that a text is written for.
pub(crate) fn mail_of(text: &[u8]) -> Option<MailId>
    ensures { IsMailOf text.now result }
{
    let (ticket, number) = parts_at(text, b'.');
    let ticket = ticket_of(ticket)?;
    let number = u32_of(number)?;
    Some(MailId { ticket, number })
}
