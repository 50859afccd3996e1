//! A label, as it is written.

ghost use Rattle.std.specs.Prelude.{◌≡◌, ◌<◌, ◌^◌, ◌++◌, ◌∷◌, [], OnOk};
ghost use Rattle.std.specs.Fmt.{decimal};
ghost use Rattle.path_text.specs.PathTexts.{path_text};
ghost use Rattle.journal_text.specs.Fits.{IsTicket, IsMail, HasNumbers};
ghost use Rattle.path_text.specs.Found.{HasKeys};
ghost use Rattle.journal_text.specs.LabelTexts.{words_text, ticket_text, mail_text, act_words, label_text, line_text};

use path_text::put_path;
use std::alloc::Global;
use wave_base::{Host, OutOfMemory, Path, Shape, Ticket};
use wave_labels::{Act, Label, MailId};
use wave_text::{put_bytes, put_number};

// Appends a mark and a number.
fn put_marked(alloc: Global, out: &mut Vec<u8>, mark: u8, n: u64) -> Result<(), OutOfMemory>
    ensures { OnOk result (out.new.items ≡ out.old.items ++ mark ∷ decimal n) }
{
    out.push(mark)?;
    put_number(alloc, out, n)
}

fn put_ticket(alloc: Global, out: &mut Vec<u8>, ticket: Ticket) -> Result<(), OutOfMemory>
    ensures text { OnOk result (out.new.items ≡ out.old.items ++ ticket_text ticket) }
    ensures number { IsTicket ticket }
{
    put_marked(alloc, out, b'#', u64::from(ticket.0))
}

fn put_mail(alloc: Global, out: &mut Vec<u8>, mail: MailId) -> Result<(), OutOfMemory>
    ensures text { OnOk result (out.new.items ≡ out.old.items ++ mail_text mail) }
    ensures numbers { IsMail mail }
{
    put_ticket(alloc, out, mail.ticket)?;
    put_marked(alloc, out, b'.', u64::from(mail.number))
}

// Appends a path behind a space.
fn put_at(alloc: Global, out: &mut Vec<u8>, shape: &Shape, path: &Path) -> Result<(), OutOfMemory>
    ensures text { OnOk result (out.new.items ≡ out.old.items ++ 32 ∷ path_text shape.now path.now) }
    ensures keys { OnOk result (HasKeys path.now) }
{
    out.push(b' ')?;
    put_path(alloc, out, shape, path)
}

// Appends the word of an act and a ticket.
fn put_of(alloc: Global, out: &mut Vec<u8>, word: &[u8], ticket: Ticket) -> Result<(), OutOfMemory>
    ensures text { OnOk result (out.new.items ≡ out.old.items ++ words_text (word.now ∷ ticket_text ticket ∷ [])) }
    ensures number { IsTicket ticket }
{
    put_bytes(out, word)?;
    out.push(b' ')?;
    put_ticket(alloc, out, ticket)
}

// Appends the word of an act, a ticket and a path.
fn put_ticket_at(
    alloc: Global,
    out: &mut Vec<u8>,
    shape: &Shape,
    word: &[u8],
    ticket: Ticket,
    path: &Path,
) -> Result<(), OutOfMemory>
    ensures text { OnOk result (out.new.items ≡ out.old.items ++ words_text (word.now ∷ ticket_text ticket ∷ path_text shape.now path.now ∷ [])) }
    ensures numbers { OnOk result (IsTicket ticket × HasKeys path.now) }
{
    put_of(alloc, out, word, ticket)?;
    put_at(alloc, out, shape, path)
}

// Appends the word of an act, a mail and a path.
fn put_mail_at(
    alloc: Global,
    out: &mut Vec<u8>,
    shape: &Shape,
    word: &[u8],
    mail: MailId,
    path: &Path,
) -> Result<(), OutOfMemory>
    ensures text { OnOk result (out.new.items ≡ out.old.items ++ words_text (word.now ∷ mail_text mail ∷ path_text shape.now path.now ∷ [])) }
    ensures numbers { OnOk result (IsMail mail × HasKeys path.now) }
{
    put_bytes(out, word)?;
    out.push(b' ')?;
    put_mail(alloc, out, mail)?;
    put_at(alloc, out, shape, path)
}

// Appends a mail and a path, with the host to which it passes.
fn put_pass(
    alloc: Global,
    out: &mut Vec<u8>,
    shape: &Shape,
    mail: MailId,
    path: &Path,
    to: Host,
) -> Result<(), OutOfMemory>
    ensures text { OnOk result (out.new.items ≡ out.old.items ++ words_text (act_words shape.now (Act.Pass mail path.now to))) }
    ensures numbers { OnOk result (HasNumbers (Act.Pass mail path.now to)) }
{
    put_mail_at(alloc, out, shape, b"Pass", mail, path)?;
    put_bytes(out, b" to ")?;
    put_number(alloc, out, u64::from(to.0))
}

// Appends the words of an act.
fn put_act(alloc: Global, out: &mut Vec<u8>, shape: &Shape, act: &Act) -> Result<(), OutOfMemory>
    ensures text { OnOk result (out.new.items ≡ out.old.items ++ words_text (act_words shape.now act.now)) }
    ensures numbers { OnOk result (HasNumbers act.now) }
{
    match act {
        Act::Admit(ticket) => put_of(alloc, out, b"Admit", *ticket),
        Act::Queue(mail, path) => put_mail_at(alloc, out, shape, b"Queue", *mail, path),
        Act::Grant(ticket, path) => put_ticket_at(alloc, out, shape, b"Grant", *ticket, path),
        Act::Visit(mail, path) => put_mail_at(alloc, out, shape, b"Visit", *mail, path),
        Act::Start(ticket, path) => put_ticket_at(alloc, out, shape, b"Start", *ticket, path),
        Act::Stop(ticket, path) => put_ticket_at(alloc, out, shape, b"Stop", *ticket, path),
        Act::Free(mail, path) => put_mail_at(alloc, out, shape, b"Free", *mail, path),
        Act::Pass(mail, path, to) => put_pass(alloc, out, shape, *mail, path, *to),
        Act::Land(mail, path) => put_mail_at(alloc, out, shape, b"Land", *mail, path),
        Act::Commit(ticket) => put_of(alloc, out, b"Commit", *ticket),
    }
}

/// Appends a label: its worker, its host, the word of its act, and what that is done to.
pub fn put_label(
    alloc: Global,
    out: &mut Vec<u8>,
    shape: &Shape,
    label: &Label,
) -> Result<(), OutOfMemory>
    ensures text { OnOk result (out.new.items ≡ out.old.items ++ label_text shape.now label.now) }
    ensures worker { OnOk result (label.now.worker.0 < 2 ^ 8) }
    ensures host { OnOk result (label.now.host.0 < 2 ^ 8) }
    ensures numbers { OnOk result (HasNumbers label.now.act) }
{
    put_marked(alloc, out, b'w', u64::from(label.worker.0))?;
    out.push(b' ')?;
    put_marked(alloc, out, b'h', u64::from(label.host.0))?;
    out.push(b' ')?;
    put_act(alloc, out, shape, &label.act)
}

/// Appends the line of a label with its number, without a line feed.
pub(crate) fn put_line(
    alloc: Global,
    out: &mut Vec<u8>,
    shape: &Shape,
    number: u64,
    label: &Label,
) -> Result<(), OutOfMemory>
    ensures text { OnOk result (out.new.items ≡ out.old.items ++ line_text shape.now number label.now) }
    ensures worker { OnOk result (label.now.worker.0 < 2 ^ 8) }
    ensures host { OnOk result (label.now.host.0 < 2 ^ 8) }
    ensures numbers { OnOk result (HasNumbers label.now.act) }
{
    put_number(alloc, out, number)?;
    out.push(b' ')?;
    put_label(alloc, out, shape, label)
}
