//! A walk over two contexts.

ghost use Rattle.std.specs.Prelude.{◌≡◌, [], IfOk};

use snapshot_events::*;
use std::alloc::Global;
use std::test::Fail;
use wave_base::{
    Child, Children, Class, Host, OutOfMemory, Outcome, Path, Pause, Record, Seq, Shot, Step,
    Ticket, Value,
};

fn hall() -> Step {
    let class = Class(1);
    Step { class, key: 6 }
}

fn fields(alloc: Global, count: i64) -> Result<Seq<Value>, OutOfMemory> {
    Ok(Seq::from_vec(vec![in alloc; Value::Int(count)]?))
}

// A context without children.
fn leaf(alloc: Global, count: i64) -> Result<Record, OutOfMemory>
    ensures { IfOk result (λ r. r.children ≡ []) }
{
    Ok(Record {
        fields: fields(alloc, count)?,
        children: Children::new(alloc),
    })
}

fn with_hall(alloc: Global, count: i64) -> Result<Record, OutOfMemory> {
    let mut record = leaf(alloc, count)?;
    let birth = Host(0);
    record.children.put(hall(), Child { given: 1, birth })?;
    Ok(record)
}

#[test]
fn a_walk_goes_down_and_back(rt: HostRuntime) -> Result<(), Fail> {
    let alloc = rt.alloc();
    let root = with_hall(alloc, 3)?;
    let hall_record = leaf(alloc, 8)?;
    let mut walker = Walker::new(alloc, Ticket(2));
    assert!(rt; walk(alloc, &mut walker, &root)? == Pause::Down(hall()));
    assert!(rt; walk(alloc, &mut walker, &hall_record)? == Pause::Back);
    assert!(rt; walker.ticket() == Ticket(2));
    Ok(())
}

#[test]
fn a_walk_over_the_root_alone(rt: HostRuntime) -> Result<(), Fail> {
    let alloc = rt.alloc();
    let root = leaf(alloc, 3)?;
    let mut walker = Walker::new(alloc, Ticket(4));
    let path = Path::root();
    let fields = fields(alloc, 3)?;
    let wanted = vec![in alloc; Shot { path, fields }]?;
    match walk(alloc, &mut walker, &root)? {
        Pause::Over(result) => {
            let shots = Outcome::Shots(Seq::from_vec(wanted));
            assert!(rt; result.outcome == shots);
        }
        _ => assert!(rt; false),
    }
    Ok(())
}
