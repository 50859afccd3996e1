//! Paths, tables and guesses.

use std::test::Fail;
use tests_services::{hall, stall};
use wave_base::{Class, Guesses, Path, Step, Table};

#[test]
fn orders_by_class_then_signed_key(rt: HostRuntime) -> Result<(), Fail> {
    let root = Path::root();
    let low = root.child(Step {
        class: Class(1),
        key: -5,
    });
    let high = root.child(Step {
        class: Class(1),
        key: 2,
    });
    assert!(rt; low < high);
    assert!(rt; root < low);
    assert!(rt; root.is_above(&low));
    assert!(rt; !low.is_above(&high));
    assert!(rt; low.parent() == Some(root));
    Ok(())
}

#[test]
fn keeps_pairs_in_key_order(rt: HostRuntime) -> Result<(), Fail> {
    let mut table = Table::new(rt.alloc());
    for (key, value) in [(7, 1), (-4, 2), (7, 3)] {
        assert!(rt; table.put(key, value).is_ok());
    }
    assert_eq!(rt; table.len(), 2);
    assert_eq!(rt; table.key_at(0), Some(-4));
    assert_eq!(rt; table.get(7), Some(3));
    assert!(rt; table.pairs() == [(-4, 2), (7, 3)].as_slice());
    let copy = table.copy()?;
    assert!(rt; table.cut(7));
    assert!(rt; !table.cut(7));
    assert!(rt; copy != table);
    Ok(())
}

#[test]
fn moves_the_shorter_side(rt: HostRuntime) -> Result<(), Fail> {
    let mut table = Table::new(rt.alloc());
    // No place is free before the first, also for a key of the front half.
    for key in [10, 20, 30, 40, 50, 60, 15] {
        assert!(rt; table.put(key, key).is_ok());
    }
    // Two cut in the front half leave two places free, and a new key there takes one.
    assert!(rt; table.cut(10));
    assert!(rt; table.cut(20));
    assert!(rt; table.put(12, 12).is_ok());
    // The back half.
    assert!(rt; table.put(55, 55).is_ok());
    assert!(rt; table.cut(60));
    assert!(rt; table.put(30, 31).is_ok());
    assert_eq!(rt; table.get(30), Some(31));
    assert!(rt;
        table.pairs() == [(12, 12), (15, 15), (30, 31), (40, 40), (50, 50), (55, 55)].as_slice()
    );
    let copy = table.copy()?;
    assert!(rt; copy == table);
    // More places are free than pairs are left.
    for key in [12, 15, 30, 40, 50] {
        assert!(rt; table.cut(key));
    }
    assert!(rt; table.pairs() == [(55, 55)].as_slice());
    assert!(rt; table.put(5, 5).is_ok());
    assert!(rt; table.pairs() == [(5, 5), (55, 55)].as_slice());
    Ok(())
}

#[test]
fn keeps_the_pairs_of_a_queue(rt: HostRuntime) -> Result<(), Fail> {
    let mut table = Table::new(rt.alloc());
    for key in 0..100i64 {
        assert!(rt; table.put(key, key).is_ok());
    }
    for turn in 0..10_000i64 {
        assert!(rt; table.cut(turn));
        assert!(rt; table.put(turn + 100, turn).is_ok());
    }
    assert_eq!(rt; table.len(), 100);
    assert_eq!(rt; table.key_at(0), Some(10_000));
    assert_eq!(rt; table.key_at(99), Some(10_099));
    assert_eq!(rt; table.get(10_099), Some(9_999));
    Ok(())
}

#[test]
fn paths_of_a_slot_share_a_guess(rt: HostRuntime) {
    let mut guesses = Guesses::new();
    for (one, other) in [(3, -3), (1, 33), (0, i64::MIN)] {
        assert_eq!(rt; guesses.at(&hall(other)), 0);
        guesses.note(&hall(one), 7);
        assert_eq!(rt; guesses.at(&hall(other)), 7);
        guesses.note(&hall(other), 9);
        assert_eq!(rt; guesses.at(&hall(one)), 9);
    }
    // Other keys and other depths have slots of their own.
    assert_eq!(rt; guesses.at(&hall(2)), 0);
    assert_eq!(rt; guesses.at(&stall(3, 3)), 0);
}
