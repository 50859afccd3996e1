//! Notes under the lock: what comes back of it and when a nap ends, call by call.

ghost use Rattle.std.specs.Prelude.{◌≡◌, ◌++◌, ◌∷◌, [], MatchResult};
ghost use Rattle.kept_lock.specs.Locks.{knowledge, IsPassOf};

use crate::cross::{sent_lock, sent_pass, shared_lock};
use kept_lock::{Kept, KeptLock, Parting, Pass, Wakes, passes_share_one_history};
use std::alloc::Global;
use std::sync::Wait;
use std::test::Fail;
use std::thread::{Threads, join};
use wave_base::OutOfMemory;

// Notes, each with the number of the pass that made it, under a title.
#[derive(Drop)]
struct Notes {
    title: u64,
    notes: Vec<(u64, u64)>,
}

impl Kept for Notes {
    type Name = u64;

    type Entry = (u64, u64);

    ghost history = { λ n. n.notes.items };

    ghost owner = { λ e. e.0 };

    ghost stands = { λ n title. n.title ≡ title };
}

impl Notes {
    fn new(alloc: Global, title: u64) -> Notes
        ensures { (result.title ≡ title) × (result.notes.items ≡ []) }
    {
        Notes {
            title,
            notes: Vec::new(alloc),
        }
    }

    fn add(&mut self, by: u64, note: u64) -> Result<(), OutOfMemory>
        ensures title { self.new.title ≡ self.old.title }
        ensures notes { MatchResult result (λ _. self.new.notes.items ≡ self.old.notes.items ++ (by, note) ∷ []) (λ _. self.new.notes.items ≡ self.old.notes.items) }
    {
        self.notes.push((by, note))?;
        Ok(())
    }
}

fn add<R: Wait>(
    rt: &R,
    lock: &KeptLock<Notes>,
    pass: &mut Pass<Notes>,
    me: u64,
    note: u64,
) -> Result<(), OutOfMemory>
    requires pass { IsPassOf lock.now pass.old }
    requires number { (knowledge pass.old).number ≡ me }
    ensures pass { IsPassOf lock.now pass.new }
    ensures number { (knowledge pass.new).number ≡ me }
    ensures passes { (knowledge pass.new).passes ≡ (knowledge pass.old).passes }
{
    let mut guard = lock.enter(rt, pass);
    let added = guard.get_mut().add(me, note);
    guard.leave();
    added
}

// The title and the notes of the value that is in the lock.
fn look<R: Wait>(rt: &R, lock: &KeptLock<Notes>, pass: &mut Pass<Notes>) -> (u64, usize)
    requires { IsPassOf lock.now pass.old }
    ensures pass { IsPassOf lock.now pass.new }
    ensures number { (knowledge pass.new).number ≡ (knowledge pass.old).number }
{
    let guard = lock.enter(rt, pass);
    let notes = guard.get();
    let seen = (notes.title, notes.notes.len());
    guard.leave();
    seen
}

#[test]
fn the_value_comes_back_whole(rt: HostRuntime) -> Result<(), Fail> {
    let Ok((lock, mut pass)) = KeptLock::new(rt.alloc(), 7, Notes::new(rt.alloc(), 7)) else {
        return Err("memory".into());
    };
    add(&rt, &lock, &mut pass, 0, 40)?;
    add(&rt, &lock, &mut pass, 0, 41)?;
    let notes = lock.close(&rt, pass);
    assert_eq!(rt; notes.title, 7);
    assert_eq!(rt; notes.notes.as_slice(), [(0, 40), (0, 41)].as_slice());
    Ok(())
}

// A lock that handed out a value which stands for another name would show the other's title here.
#[test]
fn each_of_two_locks_has_its_own_value(rt: HostRuntime) -> Result<(), Fail> {
    let alloc = rt.alloc();
    let Ok((one, mut first)) = KeptLock::new(alloc, 1, Notes::new(alloc, 1)) else {
        return Err("memory".into());
    };
    let Ok((other, mut second)) = KeptLock::new(alloc, 2, Notes::new(alloc, 2)) else {
        return Err("memory".into());
    };
    add(&rt, &one, &mut first, 0, 10)?;
    assert_eq!(rt; look(&rt, &one, &mut first), (1, 1));
    assert_eq!(rt; look(&rt, &other, &mut second), (2, 0));
    assert_eq!(rt; one.close(&rt, first).title, 1);
    assert_eq!(rt; other.close(&rt, second).title, 2);
    Ok(())
}

// A lock that handed out the opening value after a leave would show no note here.
#[test]
fn what_one_pass_left_the_next_one_finds(rt: HostRuntime) -> Result<(), Fail> {
    let Ok((lock, mut first)) = KeptLock::new(rt.alloc(), 3, Notes::new(rt.alloc(), 3)) else {
        return Err("memory".into());
    };
    let mut second = lock.split(&mut first);
    assert_eq!(rt; look(&rt, &lock, &mut second), (3, 0));
    add(&rt, &lock, &mut first, 0, 30)?;
    assert_eq!(rt; look(&rt, &lock, &mut second), (3, 1));
    add(&rt, &lock, &mut second, 1, 31)?;
    assert_eq!(rt; look(&rt, &lock, &mut first), (3, 2));
    let pass = lock.join(first, second);
    let notes = lock.close(&rt, pass);
    assert_eq!(rt; notes.notes.as_slice(), [(0, 30), (1, 31)].as_slice());
    Ok(())
}

#[test]
fn a_pass_that_never_left_does_not_nap(rt: HostRuntime) -> Result<(), Fail> {
    let Ok((lock, mut first)) = KeptLock::new(rt.alloc(), 4, Notes::new(rt.alloc(), 4)) else {
        return Err("memory".into());
    };
    lock.nap(&rt, &mut first);
    let mut second = lock.split(&mut first);
    assert_eq!(rt; look(&rt, &lock, &mut first), (4, 0));
    // The word has moved on since the first one's leave, so neither sleeps.
    assert_eq!(rt; look(&rt, &lock, &mut second), (4, 0));
    lock.nap(&rt, &mut first);
    drop(second);
    assert_eq!(rt; lock.close(&rt, first).title, 4);
    Ok(())
}

// A new pass takes no leave of another for its own, also where it is split after one.
#[test]
fn a_pass_that_was_split_after_a_leave_does_not_nap(rt: HostRuntime) -> Result<(), Fail> {
    let Ok((lock, mut first)) = KeptLock::new(rt.alloc(), 9, Notes::new(rt.alloc(), 9)) else {
        return Err("memory".into());
    };
    add(&rt, &lock, &mut first, 0, 90)?;
    let mut second = lock.split(&mut first);
    lock.nap(&rt, &mut second);
    drop(second);
    assert_eq!(rt; lock.close(&rt, first).notes.len(), 1);
    Ok(())
}

// A pass that another was joined to has left when it last did itself: what the other added since is news to it.
#[test]
fn a_joined_pass_keeps_its_own_last_leave(rt: HostRuntime) -> Result<(), Fail> {
    let Ok((lock, mut first)) = KeptLock::new(rt.alloc(), 10, Notes::new(rt.alloc(), 10)) else {
        return Err("memory".into());
    };
    let mut second = lock.split(&mut first);
    add(&rt, &lock, &mut first, 0, 100)?;
    add(&rt, &lock, &mut second, 1, 101)?;
    let mut pass = lock.join(first, second);
    lock.nap(&rt, &mut pass);
    assert_eq!(rt; lock.close(&rt, pass).notes.len(), 2);
    Ok(())
}

// An attempt that changes nothing, and wakes these.
fn call<R: Wait>(rt: &R, lock: &KeptLock<Notes>, pass: &mut Pass<Notes>, wakes: Wakes) -> u8
    requires { IsPassOf lock.now pass.old }
    ensures pass { IsPassOf lock.now pass.new }
    ensures number { (knowledge pass.new).number ≡ (knowledge pass.old).number }
{
    let called = lock.attempt(rt, pass, |_notes: &mut Notes| -> Parting<u8> {
        Parting { told: 7, wakes }
    });
    called.told
}

// A pass that was called since its last leave does not sleep, whoever was called since.
#[test]
fn a_pass_that_was_called_does_not_nap(rt: HostRuntime) -> Result<(), Fail> {
    let Ok((lock, mut first)) = KeptLock::new(rt.alloc(), 12, Notes::new(rt.alloc(), 12)) else {
        return Err("memory".into());
    };
    let mut second = lock.split(&mut first);
    assert_eq!(rt; look(&rt, &lock, &mut second), (12, 0));
    assert_eq!(rt; call(&rt, &lock, &mut first, Wakes::One(1)), 7);
    assert_eq!(rt; call(&rt, &lock, &mut first, Wakes::One(2)), 7);
    lock.nap(&rt, &mut second);
    drop(second);
    assert_eq!(rt; lock.close(&rt, first).title, 12);
    Ok(())
}

#[test]
fn looks_and_attempts_give_what_their_work_gives(rt: HostRuntime) -> Result<(), Fail> {
    let Ok((lock, mut pass)) = KeptLock::new(rt.alloc(), 11, Notes::new(rt.alloc(), 11)) else {
        return Err("memory".into());
    };
    assert_eq!(rt; call(&rt, &lock, &mut pass, Wakes::Nobody), 7);
    let title = lock.look(&rt, &mut pass, |notes: &Notes| -> u64 { notes.title });
    assert_eq!(rt; title, 11);
    let guard = lock.enter(&rt, &mut pass);
    guard.leave_unchanged();
    assert_eq!(rt; lock.close(&rt, pass).notes.len(), 0);
    Ok(())
}

#[test]
fn a_visit_gives_what_its_work_gives(rt: HostRuntime) -> Result<(), Fail> {
    let Ok((lock, mut pass)) = KeptLock::new(rt.alloc(), 5, Notes::new(rt.alloc(), 5)) else {
        return Err("memory".into());
    };
    let added = lock.visit(&rt, &mut pass, |notes: &mut Notes| notes.add(0, 50));
    added?;
    assert_eq!(rt; look(&rt, &lock, &mut pass), (5, 1));
    assert_eq!(rt; lock.close(&rt, pass).notes.len(), 1);
    Ok(())
}

fn last_look<R: Wait>(rt: &R, lock: &KeptLock<Notes>, mut pass: Pass<Notes>) -> (u64, usize)
    requires { IsPassOf lock.now pass }
{
    look(rt, lock, &mut pass)
}

// Two threads look, each by a pass of its own.
fn two_look<R: Threads + Wait + Sync>(
    rt: &R,
    lock: &KeptLock<Notes>,
    one: Pass<Notes>,
    other: Pass<Notes>,
) -> ((u64, usize), (u64, usize))
    requires one { IsPassOf lock.now one }
    requires other { IsPassOf lock.now other }
{
    join(
        rt,
        move ||
            requires { IsPassOf lock.now one }
        { last_look(rt, lock, one) },
        move ||
            requires { IsPassOf lock.now other }
        { last_look(rt, lock, other) },
    )
}

#[test]
fn locks_and_passes_cross_threads(rt: HostRuntime) -> Result<(), Fail> {
    passes_share_one_history::<Notes>();
    let Ok((lock, mut first)) = KeptLock::new(rt.alloc(), 6, Notes::new(rt.alloc(), 6)) else {
        return Err("memory".into());
    };
    let second = lock.split(&mut first);
    let third = lock.split(&mut first);
    let lock = sent_lock(&rt, lock);
    let (here, _) = shared_lock(&rt, &lock);
    assert_eq!(rt; two_look(&rt, here, second, third), ((6, 0), (6, 0)));
    let first = sent_pass(&rt, first);
    assert_eq!(rt; lock.close(&rt, first).title, 6);
    Ok(())
}

// Under `--fail-alloc` each allocation fails in turn: the value then comes back as it was.
#[test]
fn without_memory_the_value_comes_back(rt: HostRuntime) -> Result<(), Fail> {
    let alloc = rt.alloc();
    let title = 8;
    match KeptLock::new(alloc, title, Notes::new(alloc, title)) {
        Ok((lock, pass)) => assert_eq!(rt; lock.close(&rt, pass).title, 8),
        Err((notes, _)) => {
            assert_eq!(rt; notes.title, 8);
            assert_eq!(rt; notes.notes.len(), 0);
        }
    }
    Ok(())
}
