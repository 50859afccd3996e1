//! Scripts with policies, as they are run.

ghost use Rattle.std.specs.Prelude.{◌≡◌, ◌∷◌, [], length, IfOk};

use crate::listings::ended_result;
use crate::shapes::event_shape;
use elastic_policy::Stages;
use script_reader::read_elastic;
use std::alloc::Global;
use std::test::Fail;
use wave_base::{
    EventResult, Finished, Host, Line, OutOfMemory, Outcome, Path, Place, Script, Seq, Shot, Ticket,
};

fn one_result(alloc: Global, outcome: Outcome) -> Result<Seq<EventResult>, OutOfMemory>
    ensures { IfOk result (λ rs. length rs ≡ 1) }
{
    let mut results = Seq::new(alloc);
    results.add(ended_result(alloc, outcome))?;
    Ok(results)
}

// A context without fields.
fn one_shot(alloc: Global, path: Path) -> Result<Seq<Shot>, OutOfMemory> {
    let fields = Seq::new(alloc);
    let mut shots = Seq::new(alloc);
    shots.add(Shot { path, fields })?;
    Ok(shots)
}

// A run of one ticket, which entered the root; it is alone, on host 0.
fn nothing_done(alloc: Global) -> Result<Finished, OutOfMemory>
    ensures places { IfOk result (λ f. f.places ≡ record { path = []; host = record { 0 = 0 } } ∷ []) }
    ensures loads { IfOk result (λ f. f.loads ≡ 1 ∷ []) }
    ensures results { IfOk result (λ f. length f.results ≡ 1) }
{
    let path = Path::root();
    let host = Host(0);
    let loads = Seq::from_vec(vec![in alloc; 1]?);
    let places = Seq::from_vec(vec![in alloc; Place { path, host }]?);
    Ok(Finished {
        results: one_result(alloc, Outcome::Moved(path, host))?,
        made: Seq::new(alloc),
        names: Seq::new(alloc),
        places,
        shots: one_shot(alloc, path)?,
        loads,
    })
}

// The one line of a piece.
fn line(piece: &Option<Script>) -> Option<&Line> {
    piece.as_ref()?.batches.get(0)?.get(0)
}

#[test]
fn pieces_come_one_after_the_other(rt: HostRuntime) -> Result<(), Fail> {
    let alloc = rt.alloc();
    let shape = event_shape(alloc)?;
    let text = b"hosts 2\nbalance by 2\nsnapshot\nsettle\ndrain 0 to 1";
    let elastic = read_elastic(alloc, &shape, text)?;
    let mut stages = Stages::first(alloc, &shape, elastic)?;
    assert!(rt; matches!(line(&stages.next(alloc)?), Some(Line::Snapshot)));
    stages.after(nothing_done(alloc)?);
    assert!(rt; stages.start().next == Ticket(2));
    assert!(rt; matches!(line(&stages.next(alloc)?), Some(Line::Move(_, Host(1)))));
    stages.after(nothing_done(alloc)?);
    assert!(rt; stages.start().next == Ticket(3));
    assert!(rt; stages.next(alloc)?.is_none());
    Ok(())
}
