//! Entries and marks by path.

use context_queue::Entry;
use host_map::*;
use std::alloc::Global;
use std::process::Abort;
use std::test::Fail;
use tests_services::hall;
use wave_base::{Children, Host, Path, Record, Seq};

fn entry(alloc: Global) -> Entry {
    let record = Record {
        fields: Seq::new(alloc),
        children: Children::new(alloc),
    };
    Entry::new(alloc, record)
}

// A context begins. What a store promises of changes is read in these five alone, not in each test.
pub(crate) fn begin(rt: &impl Abort, alloc: Global, store: &mut HostStore, path: Path) {
    assert!(rt; store.reserve().is_ok());
    store.birth(path, entry(alloc));
}

// A mark tells where a context went.
pub(crate) fn mark(rt: &impl Abort, store: &mut HostStore, path: Path, mark: Mark) {
    assert!(rt; store.reserve().is_ok());
    store.mark(path, mark);
}

fn take(store: &mut HostStore, path: &Path) -> Option<Entry> {
    store.take(path)
}

// What is there gets another number of moves.
fn set_moves(rt: &impl Abort, store: &mut HostStore, path: &Path, moves: u64) {
    assert!(rt; store.has(path));
    store.entry_mut(path).moves = moves;
}

// Or other counts.
fn recount(rt: &impl Abort, store: &mut HostStore, path: &Path) {
    assert!(rt; store.has(path));
    store.entry_mut(path).recount(2, 0);
}

// How often the entry says that its context moved; none where it is not here.
fn moves(store: &HostStore, path: &Path) -> Option<u64> {
    match store.entry(path) {
        Some(entry) => Some(entry.moves),
        None => None,
    }
}

// Two contexts of a store, looked up by turns.
fn are_told_apart(rt: &impl Abort, alloc: Global, one: &Path, other: &Path) {
    let mut store = HostStore::new(alloc);
    begin(rt, alloc, &mut store, *one);
    assert!(rt; store.find(other) == Found::Unknown);
    begin(rt, alloc, &mut store, *other);
    for turn in 0..3 {
        set_moves(rt, &mut store, one, turn);
        assert!(rt; store.find(other) == Found::Here);
        set_moves(rt, &mut store, other, turn + 10);
        assert!(rt; moves(&store, one) == Some(turn));
        assert!(rt; moves(&store, other) == Some(turn + 10));
    }
    assert!(rt; take(&mut store, one).is_some());
    assert!(rt; store.find(one) == Found::Unknown);
    assert!(rt; moves(&store, other) == Some(12));
}

#[test]
fn entries_come_and_go(rt: HostRuntime) -> Result<(), Fail> {
    let alloc = rt.alloc();
    let mut store = HostStore::new(alloc);
    let path = hall(4);
    let there = Mark {
        to: Host(2),
        number: 1,
    };
    begin(&rt, alloc, &mut store, path);
    assert!(rt; store.find(&path) == Found::Here);
    assert!(rt; store.find(&hall(5)) == Found::Unknown);
    set_moves(&rt, &mut store, &path, 3);
    match store.entry(&path) {
        Some(entry) => assert!(rt; entry.moves == 3),
        None => assert!(rt; false),
    }
    assert!(rt; take(&mut store, &path).is_some());
    mark(&rt, &mut store, path, there);
    assert!(rt; store.find(&path) == Found::Gone(there));
    store.forget(&path);
    assert!(rt; store.find(&path) == Found::Unknown);
    Ok(())
}

#[test]
fn what_was_touched_is_told(rt: HostRuntime) -> Result<(), Fail> {
    let alloc = rt.alloc();
    let mut store = HostStore::new(alloc);
    let there = Mark {
        to: Host(2),
        number: 1,
    };
    for number in 4..7 {
        begin(&rt, alloc, &mut store, hall(number));
    }
    assert!(rt; store.counted_paths(alloc)?.is_empty());
    recount(&rt, &mut store, &hall(5));
    let paths = store.counted_paths(alloc)?;
    assert!(rt; paths.len() == 1);
    for path in &paths {
        assert!(rt; *path == hall(5));
    }
    mark(&rt, &mut store, hall(8), there);
    store.forget_marks();
    assert!(rt; store.find(&hall(8)) == Found::Unknown);
    Ok(())
}

#[test]
fn a_context_has_its_place(rt: HostRuntime) -> Result<(), Fail> {
    let alloc = rt.alloc();
    let mut near = HostStore::new(alloc);
    let mut far = HostStore::new(alloc);
    begin(&rt, alloc, &mut near, Path::root());
    begin(&rt, alloc, &mut far, hall(-1));
    let hosts = [near, far];
    assert!(rt; place_of(&hosts, &Path::root()) == Some(Host(0)));
    assert!(rt; place_of(&hosts, &hall(-1)) == Some(Host(1)));
    assert!(rt; place_of(&hosts, &hall(7)).is_none());
    Ok(())
}

// Each is looked for first where the other one was found.
#[test]
fn contexts_that_share_a_guess_are_told_apart(rt: HostRuntime) {
    let alloc = rt.alloc();
    are_told_apart(&rt, alloc, &hall(3), &hall(-3));
    are_told_apart(&rt, alloc, &hall(1), &hall(33));
}
