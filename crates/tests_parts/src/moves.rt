//! Where mail goes, and contexts that move.

ghost use Rattle.std.specs.Prelude.{◌≡◌};

use crate::hosts::{begin, mark};
use context_queue::Entry;
use host_map::{Found, HostStore, Mark};
use migration_core::*;
use std::alloc::Global;
use std::process::Abort;
use std::test::Fail;
use wave_base::{
    Child, Children, Class, Host, OutOfMemory, Outcome, Path, Pause, Record, Seq, Step, Ticket,
};
use wave_labels::MailId;

fn step(key: i64) -> Step {
    let class = Class(1);
    Step { class, key }
}

fn record(alloc: Global) -> Record {
    Record {
        fields: Seq::new(alloc),
        children: Children::new(alloc),
    }
}

fn entry(alloc: Global) -> Entry
    ensures { result.moves ≡ 0 }
{
    Entry::new(alloc, record(alloc))
}

fn goes(store: &HostStore, path: Path, followed: u64) -> Route {
    let ticket = Ticket(3);
    let id = MailId { ticket, number: 1 };
    let letter = Letter::Enter {
        number: 1,
        followed,
        peek: false,
    };
    route(store, &Mail { id, path, letter })
}

#[test]
fn an_enter_follows_a_mark_once(rt: HostRuntime) -> Result<(), Fail> {
    let alloc = rt.alloc();
    let mut store = HostStore::new(alloc);
    let near = Path::root().child(step(1));
    let far = Path::root().child(step(2));
    let there = Mark {
        to: Host(5),
        number: 2,
    };
    begin(&rt, alloc, &mut store, Path::root());
    mark(&rt, &mut store, near, there);
    assert!(rt; goes(&store, Path::root(), 0) == Route::Deliver);
    assert!(rt; goes(&store, near, 1) == Route::Forward(Host(5)));
    assert!(rt; goes(&store, near, 2) == Route::Wait);
    assert!(rt; goes(&store, far, 0) == Route::Born);
    assert!(rt; goes(&store, far, 1) == Route::Wait);
    Ok(())
}

#[test]
fn a_context_departs_and_lands(rt: HostRuntime) -> Result<(), Fail> {
    let alloc = rt.alloc();
    let mut here = HostStore::new(alloc);
    let mut there = HostStore::new(alloc);
    let path = Path::root().child(step(1));
    let newborn = entry(alloc);
    here.reserve()?;
    here.birth(path, newborn);
    let moved = depart(&mut here, &path, Host(1));
    assert!(rt; moved.moves == 1);
    let mark = Mark {
        to: Host(1),
        number: 1,
    };
    assert!(rt; here.find(&path) == Found::Gone(mark));
    there.reserve()?;
    land(&mut there, path, moved);
    assert!(rt; there.find(&path) == Found::Here);
    Ok(())
}

fn with_child(alloc: Global, child: Step) -> Result<Record, OutOfMemory> {
    let mut record = record(alloc);
    let birth = Host(0);
    record.children.put(child, Child { given: 1, birth })?;
    Ok(record)
}

// The mover takes its next step at this context.
fn goes_to(rt: &impl Abort, alloc: Global, mover: &mut Mover, record: &Record, next: Step) {
    assert!(rt; advance(alloc, mover, record) == Pause::Go(next));
}

// The mover is over at a context without children.
fn ends(rt: &impl Abort, alloc: Global, mover: &mut Mover, outcome: Outcome) {
    match advance(alloc, mover, &record(alloc)) {
        Pause::Over(result) => assert!(rt; result.outcome == outcome),
        _ => assert!(rt; false),
    }
}

#[test]
fn a_mover_goes_down_and_ends(rt: HostRuntime) -> Result<(), Fail> {
    let alloc = rt.alloc();
    let root = with_child(alloc, step(4))?;
    let hall = with_child(alloc, step(7))?;
    let target = Path::root().child(step(4)).child(step(7));
    let mut mover = Mover::new(Ticket(9), target, Host(3));
    goes_to(&rt, alloc, &mut mover, &root, step(4));
    ends(&rt, alloc, &mut mover, Outcome::Absent(target));
    goes_to(&rt, alloc, &mut mover, &hall, step(7));
    ends(&rt, alloc, &mut mover, Outcome::Moved(target, Host(3)));
    assert!(rt; mover.ticket() == Ticket(9));
    Ok(())
}
