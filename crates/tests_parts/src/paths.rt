//! Paths of no step, of one and of up to eight: equal, ordered, above one another, with their steps and their parents.

ghost use Rattle.std.specs.Prelude.{◌≡◌, ◌<◌, ◌≤◌, length};

use std::process::Abort;
use wave_base::{Class, Path, Step};

const CLASSES: [u16; 8] = [1, 0, 2, 500, 65_535, 1, 7, 9];

const KEYS: [i64; 8] = [i64::MIN, -1, 0, i64::MAX, 1, -7, 7, -256];

fn step(class: u16, key: i64) -> Step {
    let class = Class(class);
    Step { class, key }
}

fn step_at(i: usize) -> Step
    requires { i < 8 }
{
    step(CLASSES[i], KEYS[i])
}

// A path of these many steps.
fn first(n: usize) -> Path
    requires { n ≤ 8 }
    ensures { length result ≡ n }
{
    let mut path = Path::root();
    for i in 0..n {
        path = path.child(step_at(i));
    }
    path
}

// A path of eight steps of which one is another.
fn with(at: usize, other: Step) -> Path {
    let mut path = Path::root();
    for i in 0..8 {
        path = path.child(if i == at { other } else { step_at(i) });
    }
    path
}

fn comes_before(rt: &impl Abort, low: &Path, high: &Path) {
    assert!(rt; low < high);
    assert!(rt; high > low);
    assert!(rt; low != high);
    assert!(rt; !high.is_above(low));
}

#[test]
fn equal_paths_have_equal_steps(rt: HostRuntime) {
    for n in 0..9 {
        let path = first(n);
        assert!(rt; path == first(n));
        assert!(rt; path.is_above(&first(n)));
        assert!(rt; path.len() == n);
        for i in 0..8 {
            let wanted = if i < n { Some(step_at(i)) } else { None };
            assert!(rt; path.step(i) == wanted);
        }
        assert!(rt; path.step(8).is_none());
        assert!(rt; path.step(usize::MAX).is_none());
    }
}

#[test]
fn a_path_is_the_parent_of_its_child(rt: HostRuntime) {
    assert!(rt; Path::root().parent().is_none());
    assert!(rt; Path::root().class() == Class(0));
    for n in 0..8 {
        let path = first(n);
        let child = path.child(step(7, i64::MIN));
        assert!(rt; child.parent() == Some(path));
        assert!(rt; child.class() == Class(7));
        assert!(rt; path.is_above(&child));
        comes_before(&rt, &path, &child);
    }
}

#[test]
fn a_path_is_above_the_ones_that_it_begins(rt: HostRuntime) {
    for low in 0..9 {
        for high in 0..9 {
            assert!(rt; first(low).is_above(&first(high)) == (low <= high));
            assert!(rt; (first(low) < first(high)) == (low < high));
            assert!(rt; (first(low) == first(high)) == (low == high));
        }
    }
}

#[test]
fn the_first_step_that_differs_decides(rt: HostRuntime) {
    let keys = [
        (i64::MIN, -1),
        (-1, 0),
        (0, i64::MAX),
        (i64::MIN, i64::MAX),
        (255, 256),
    ];
    for at in 0..8 {
        for (low, high) in keys {
            comes_before(&rt, &with(at, step(5, low)), &with(at, step(5, high)));
        }
        let low = with(at, step(255, i64::MAX));
        let high = with(at, step(256, i64::MIN));
        comes_before(&rt, &low, &high);
        assert!(rt; !low.is_above(&high));
        assert!(rt; first(at).is_above(&low));
    }
}
