//! Small trees: contexts join, are read, set and listed.

ghost use Rattle.std.specs.Prelude.{◌≡◌, ◌∷◌, [], pos, length, true, Some, IfOk};
ghost use Rattle.context_tree.specs.Contexts.{IsOrdered, HasField, is_there};
ghost use Rattle.wave_base.specs.Shapes.{parent_class};

use context_tree::*;
use std::alloc::Global;
use std::process::Abort;
use std::test::Fail;
use tests_services::{class, hall, number, shot};
use wave_base::{Class, OutOfMemory, Path, Seq, Shape, Shot, Step, Value};

// A root and a class below it, each with a counter.
fn halls(alloc: Global) -> Result<Shape, OutOfMemory>
    ensures classes { IfOk result (λ s. length s.classes ≡ 2) }
    ensures hall { IfOk result (λ s. parent_class s 1 ≡ Some (record { 0 = 0 })) }
{
    let mut classes = Vec::new(alloc);
    let seen = vec![in alloc; number(alloc, b"seen", 3)?]?;
    classes.push(class(alloc, b"Market", None, seen)?)?;
    let count = vec![in alloc; number(alloc, b"count", 7)?]?;
    classes.push(class(alloc, b"Hall", Some(Class(0)), count)?)?;
    Ok(Shape {
        classes: Seq::from_vec(classes),
        events: Seq::new(alloc),
    })
}

// A hall joins, where the root is there.
fn join(alloc: Global, shape: &Shape, tree: &mut Tree, key: i64) -> Result<(), OutOfMemory>
    requires { parent_class shape.now 1 ≡ Some (record { 0 = 0 }) }
{
    if tree.get(&Path::root()).is_some() {
        tree.enter(alloc, shape, &hall(key))?;
    }
    Ok(())
}

// The tree of the root, and of halls that joined one after the other.
fn tree_of(alloc: Global, keys: &[i64]) -> Result<Tree, OutOfMemory> {
    let shape = halls(alloc)?;
    let mut tree = Tree::start(alloc, &shape)?;
    for key in keys {
        join(alloc, &shape, &mut tree, *key)?;
    }
    Ok(tree)
}

// It has these contexts.
fn lists(rt: &impl Abort, alloc: Global, tree: &Tree, wanted: &[Shot]) -> Result<(), OutOfMemory> {
    assert!(rt; tree.shots(alloc)?.as_slice() == wanted);
    Ok(())
}

// Two contexts in path order, with these numbers.
fn two(alloc: Global, first: i64, second: i64) -> Result<Seq<Shot>, OutOfMemory>
    ensures ordered { IfOk result IsOrdered }
    ensures field { IfOk result (λ shots. HasField (record { shots = shots; joined = [] }) (record { class = record { 0 = 1 }; key = pos 2 } ∷ []) 0) }
{
    let low = shot(alloc, hall(-5), first)?;
    let high = shot(alloc, hall(2), second)?;
    Ok(Seq::from_vec(vec![in alloc; low, high]?))
}

// The tree of two contexts, with 1 and 9.
fn tree(alloc: Global) -> Result<Tree, OutOfMemory>
    ensures there { IfOk result (λ t. is_there t (record { class = record { 0 = 1 }; key = pos 2 } ∷ []) ≡ true) }
    ensures field { IfOk result (λ t. HasField t (record { class = record { 0 = 1 }; key = pos 2 } ∷ []) 0) }
{
    let shots = two(alloc, 1, 9)?;
    let tree = Tree::from_shots(alloc, shots.as_slice())?;
    Ok(tree)
}

// It has these numbers.
fn has(
    rt: &impl Abort,
    alloc: Global,
    tree: &Tree,
    first: i64,
    second: i64,
) -> Result<(), OutOfMemory> {
    let wanted = two(alloc, first, second)?;
    lists(rt, alloc, tree, wanted.as_slice())
}

#[test]
fn contexts_join_with_initial_fields(rt: HostRuntime) -> Result<(), Fail> {
    let alloc = rt.alloc();
    let tree = tree_of(alloc, &[2])?;
    match tree.get(&hall(2)) {
        Some(record) => assert!(rt; record.fields.as_slice() == [Value::Int(7)].as_slice()),
        None => assert!(rt; false),
    }
    assert!(rt; tree.get(&hall(-2)).is_none());
    assert!(rt; tree.shots(alloc)?.len() == 2);
    Ok(())
}

#[test]
fn a_context_keeps_its_slot(rt: HostRuntime) -> Result<(), Fail> {
    let alloc = rt.alloc();
    let shots = [shot(alloc, Path::root(), 3)?, shot(alloc, hall(2), 7)?];
    let tree = tree_of(alloc, &[2])?;
    lists(&rt, alloc, &tree, &shots)?;
    assert!(rt; tree.slot(&Path::root()) == Some(0));
    assert!(rt; tree.slot(&hall(2)) == Some(1));
    assert!(rt; tree.slot(&hall(-2)).is_none());
    match tree.slot(&hall(2)) {
        Some(slot) => { assert!(rt; tree.at(slot).fields.as_slice() == [Value::Int(7)].as_slice()) }
        None => assert!(rt; false),
    }
    Ok(())
}

#[test]
fn contexts_are_listed_in_path_order(rt: HostRuntime) -> Result<(), Fail> {
    let alloc = rt.alloc();
    let tree = tree_of(alloc, &[2, -7, 9, -1])?;
    let mut keys = Vec::new(alloc);
    for shot in tree.shots(alloc)?.as_slice() {
        if let Some(step) = shot.path.step(0) {
            keys.push(step.key)?;
        }
    }
    assert!(rt; keys.as_slice() == [-7, -1, 2, 9].as_slice());
    assert!(rt; tree.slot(&hall(-1)) == Some(4));
    Ok(())
}

#[test]
fn a_field_is_replaced(rt: HostRuntime) -> Result<(), Fail> {
    let alloc = rt.alloc();
    let mut tree = tree(alloc)?;
    assert!(rt; tree.replace(&hall(2), 0, Value::Int(4)) == Value::Int(9));
    has(&rt, alloc, &tree, 1, 4)?;
    Ok(())
}

#[test]
fn a_field_is_set(rt: HostRuntime) -> Result<(), Fail> {
    let alloc = rt.alloc();
    let mut tree = tree(alloc)?;
    tree.set(&hall(2), 0, Value::Int(4));
    has(&rt, alloc, &tree, 1, 4)?;
    Ok(())
}

#[test]
fn fields_are_exchanged(rt: HostRuntime) -> Result<(), Fail> {
    let alloc = rt.alloc();
    let mut tree = tree(alloc)?;
    let fields = Seq::from_vec(vec![in alloc; Value::Int(5)]?);
    assert!(rt; tree.exchange(&hall(2), fields).as_slice() == [Value::Int(9)].as_slice());
    has(&rt, alloc, &tree, 1, 5)?;
    Ok(())
}

fn step(class: u16, key: i64) -> Step {
    let class = Class(class);
    Step { class, key }
}

// A context below the root.
fn one(class: u16, key: i64) -> Path
    ensures { length result ≡ 1 }
{
    Path::root().child(step(class, key))
}

// A context two below the root.
fn inner(class: u16, key: i64, second: u16, other: i64) -> Path
    ensures { length result ≡ 2 }
{
    one(class, key).child(step(second, other))
}

#[test]
fn paths_come_step_by_step(rt: HostRuntime) -> Result<(), Fail> {
    let least = i64::MIN;
    let greatest = i64::MAX;
    let pairs = [
        (Path::root(), one(1, least)),
        (Path::root(), inner(1, 0, 2, 0)),
        (one(1, -5), one(1, -4)),
        (one(1, -1), one(1, 0)),
        (one(1, least), one(1, greatest)),
        (one(1, greatest), one(2, least)),
        (one(1, 7), inner(1, 7, 2, least)),
        (inner(1, 7, 2, 9), one(1, 8)),
        (inner(1, 7, 2, 9), inner(1, 7, 2, 10)),
        (inner(1, 7, 2, greatest), inner(1, 7, 3, least)),
        (inner(1, 7, 3, 9), inner(1, 8, 2, 0)),
        (inner(1, greatest, 5, 0), inner(3, least, 4, 0)),
    ];
    for (low, high) in pairs {
        assert!(rt; low < high);
        assert!(rt; high > low);
        assert!(rt; low != high);
    }
    Ok(())
}
