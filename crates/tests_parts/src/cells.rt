//! Cells, call by call.

ghost use Rattle.std.specs.Prelude.{◌≡◌, false};
ghost use Rattle.event_cells.specs.Cells.{is_over};

use event_cells::{Cell, Envelope, Hold, Status};
use migration_core::Letter;
use std::alloc::Global;
use std::process::Abort;
use std::test::Fail;
use tests_services::hall;
use wave_base::{Host, OutOfMemory, Path, Ticket};

fn at(host: u8) -> Hold {
    Hold {
        host: Host(host),
        peek: false,
    }
}

// The actor of the seventh ticket is the number 5.
fn seventh(alloc: Global) -> Result<Cell<u8>, OutOfMemory> {
    Cell::new(alloc, Ticket(7), 5, false)
}

// What only an event that has not ended can do wants to know it.
fn goes_on(rt: &impl Abort, cell: &Cell<u8>)
    ensures { is_over cell.now.status ≡ false }
{
    assert!(rt; !matches!(cell.status(), Status::Ended));
}

// What cells promise is read in the nine that follow alone, not in each test.
fn let_in(rt: &impl Abort, cell: &mut Cell<u8>, path: Path, hold: Hold) {
    goes_on(rt, cell);
    assert!(rt; cell.reserve(0).is_ok());
    cell.let_in(path, hold);
}

fn set_status(rt: &impl Abort, cell: &mut Cell<u8>, status: Status) {
    goes_on(rt, cell);
    cell.set_status(status);
}

fn start(rt: &impl Abort, cell: &mut Cell<u8>, path: Path) -> Option<u8> {
    goes_on(rt, cell);
    cell.start(path)
}

fn put_back(rt: &impl Abort, cell: &mut Cell<u8>, actor: u8) {
    goes_on(rt, cell);
    cell.put_back(actor);
}

fn take_mail(cell: &mut Cell<u8>, number: u32) -> Option<Envelope> {
    cell.take_mail(number)
}

fn send(rt: &impl Abort, cell: &mut Cell<u8>, envelope: Envelope) {
    goes_on(rt, cell);
    assert!(rt; cell.sent_count() < 100);
    assert!(rt; cell.reserve(1).is_ok());
    cell.send(envelope);
}

fn release_outside(rt: &impl Abort, cell: &mut Cell<u8>, top: &Path) {
    goes_on(rt, cell);
    let mails = cell.holds().len();
    assert!(rt; mails < 100 && cell.sent_count() < 100);
    assert!(rt; cell.reserve(mails).is_ok());
    cell.release_outside(top);
}

fn end(rt: &impl Abort, cell: &mut Cell<u8>) {
    goes_on(rt, cell);
    let mails = cell.holds().len();
    assert!(rt; mails < 100 && cell.sent_count() < 100);
    assert!(rt; cell.reserve(mails).is_ok());
    cell.end();
}

fn is_release(mail: Option<&Envelope>, to: u8, path: Path) -> bool {
    match mail {
        Some(mail) => {
            mail.to == Host(to) && mail.path == path && matches!(mail.letter, Letter::Release)
        }
        None => false,
    }
}

fn is_enter(mail: Option<&Envelope>, entry: u64) -> bool {
    match mail {
        Some(mail) => match mail.letter {
            Letter::Enter {
                number,
                followed,
                peek,
            } => {
                mail.to == Host(0)
                    && mail.path == Path::root()
                    && number == entry
                    && followed == 0
                    && !peek
            }
            _ => false,
        },
        None => false,
    }
}

#[test]
fn an_admitted_event_enters_the_root(rt: HostRuntime) -> Result<(), Fail> {
    let mut cell = seventh(rt.alloc())?;
    assert!(rt; cell.sent_count() == 1);
    let mail = take_mail(&mut cell, 1);
    assert!(rt; is_enter(mail.as_ref(), 7));
    assert!(rt; take_mail(&mut cell, 1).is_none());
    assert!(rt; cell.mails().is_empty());
    Ok(())
}

#[test]
fn a_go_gives_up_what_is_outside(rt: HostRuntime) -> Result<(), Fail> {
    let mut cell = seventh(rt.alloc())?;
    let root = Path::root();
    set_status(&rt, &mut cell, Status::Waiting(root));
    let_in(&rt, &mut cell, root, at(2));
    assert!(rt; cell.status() == Status::Ready(root));
    assert!(rt; cell.hold(&root) == Some(at(2)));
    assert!(rt; start(&rt, &mut cell, root) == Some(5));
    assert!(rt; cell.status() == Status::Running(root));
    put_back(&rt, &mut cell, 6);
    assert!(rt; cell.status() == Status::Travelling);
    assert!(rt; cell.holds().len() == 1);
    assert!(rt; cell.sent_count() == 1);
    let visit = Envelope {
        to: Host(1),
        path: hall(-3),
        letter: Letter::Visit,
    };
    send(&rt, &mut cell, visit);
    release_outside(&rt, &mut cell, &hall(-3));
    assert!(rt; matches!(cell.mail(2), Some(mail) if mail.to == Host(1)));
    assert!(rt; is_release(cell.mail(3), 2, root));
    assert!(rt; cell.holds().is_empty());
    assert!(rt; start(&rt, &mut cell, root) == Some(6));
    Ok(())
}

#[test]
fn what_is_over_gives_up_all_in_path_order(rt: HostRuntime) -> Result<(), Fail> {
    let mut cell = seventh(rt.alloc())?;
    let root = Path::root();
    let_in(&rt, &mut cell, hall(-3), at(1));
    let_in(&rt, &mut cell, root, at(2));
    assert!(rt; cell.holds().len() == 2);
    assert!(rt; cell.sent_count() == 1);
    end(&rt, &mut cell);
    assert!(rt; cell.status() == Status::Ended);
    assert!(rt; cell.sent_count() == 3);
    assert!(rt; is_release(cell.mail(2), 2, root));
    assert!(rt; is_release(cell.mail(3), 1, hall(-3)));
    for number in [2, 1, 3] {
        assert!(rt; !cell.is_done());
        assert!(rt; take_mail(&mut cell, number).is_some());
    }
    assert!(rt; cell.is_done());
    assert!(rt; cell.status() == Status::Ended && cell.sent_count() == 3);
    assert!(rt; cell.mails().is_empty() && cell.holds().is_empty());
    assert!(rt; cell.mail(3).is_none() && cell.hold(&root).is_none());
    assert!(rt; take_mail(&mut cell, 3).is_none());
    Ok(())
}

#[test]
fn a_context_is_let_go_without_a_release(rt: HostRuntime) -> Result<(), Fail> {
    let mut cell = seventh(rt.alloc())?;
    let_in(&rt, &mut cell, hall(-3), at(1));
    cell.let_go(&hall(-3));
    assert!(rt; cell.hold(&hall(-3)).is_none());
    assert!(rt; cell.sent_count() == 1);
    if cell.mail(1).is_some() {
        cell.redirect(
            1,
            Envelope {
                to: Host(3),
                path: hall(-3),
                letter: Letter::Back,
            },
        );
    }
    assert!(rt; matches!(cell.mail(1), Some(mail) if mail.to == Host(3)));
    Ok(())
}
