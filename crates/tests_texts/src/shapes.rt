//! Shapes that the tests share.

ghost use Rattle.std.specs.Prelude.{◌≡◌, ◌≤◌, ◌∷◌, [], length, IfOk};
ghost use Rattle.wave_base.specs.Names.{HasNames};
ghost use Rattle.wave_base.specs.Shapes.{IsShape};
ghost use Rattle.path_text.specs.Sample.{market_class, hall_class, hall_shape};
ghost use Rattle.snapshot_text.specs.Sample as sample;

use std::alloc::Global;
use tests_services::{class, event, field, number};
use wave_base::{Class, ClassInfo, EventInfo, Kind, OutOfMemory, Seq, Shape, Table, Txt, Value};

// A root, and a Hall in it.
fn two_classes(alloc: Global) -> Result<Seq<ClassInfo>, OutOfMemory>
    ensures { IfOk result (λ cs. cs ≡ market_class ∷ hall_class ∷ []) }
{
    let mut classes = Vec::new(alloc);
    classes.push(class(alloc, b"Market", None, Vec::new(alloc))?)?;
    classes.push(class(alloc, b"Hall", Some(Class(0)), Vec::new(alloc))?)?;
    Ok(Seq::from_vec(classes))
}

// The two, without an event.
pub(crate) fn hall_shape(alloc: Global) -> Result<Shape, OutOfMemory>
    ensures same { IfOk result (λ s. s ≡ hall_shape) }
    ensures shape { IfOk result IsShape }
    ensures names { IfOk result HasNames }
{
    Ok(Shape {
        classes: two_classes(alloc)?,
        events: Seq::new(alloc),
    })
}

// The two, with these events.
pub(crate) fn shape_with(alloc: Global, events: Vec<EventInfo>) -> Result<Shape, OutOfMemory>
    requires { length events.items ≤ 2 }
    ensures { IfOk result IsShape }
{
    Ok(Shape {
        classes: two_classes(alloc)?,
        events: Seq::from_vec(events),
    })
}

// The two, with put(int, text, bool) and pair(int).
pub(crate) fn event_shape(alloc: Global) -> Result<Shape, OutOfMemory>
    ensures { IfOk result IsShape }
{
    let three = vec![in alloc; Kind::Int, Kind::Text, Kind::Bool]?;
    let mut events = Vec::new(alloc);
    events.push(event(alloc, b"put", three, None)?)?;
    events.push(event(alloc, b"pair", vec![in alloc; Kind::Int]?, None)?)?;
    shape_with(alloc, events)
}

fn market_class(alloc: Global) -> Result<ClassInfo, OutOfMemory>
    ensures { IfOk result (λ c. c ≡ sample.market_class) }
{
    class(
        alloc,
        b"Market",
        None,
        vec![in alloc; number(alloc, b"seen", 0)?]?,
    )
}

fn hall_class(alloc: Global) -> Result<ClassInfo, OutOfMemory>
    ensures { IfOk result (λ c. c ≡ sample.hall_class) }
{
    class(
        alloc,
        b"Hall",
        Some(Class(0)),
        vec![in alloc; number(alloc, b"count", 0)?]?,
    )
}

fn stall_class(alloc: Global) -> Result<ClassInfo, OutOfMemory>
    ensures { IfOk result (λ c. c ≡ sample.stall_class) }
{
    let mut fields = Vec::new(alloc);
    fields.push(field(alloc, b"open", Kind::Bool, Value::Bool(false))?)?;
    let empty = Txt::from_bytes(alloc, b"")?;
    fields.push(field(alloc, b"label", Kind::Text, Value::Str(empty))?)?;
    fields.push(field(alloc, b"best", Kind::Map, Value::Map(Table::new(alloc)))?)?;
    class(alloc, b"Stall", Some(Class(1)), fields)
}

fn cell_class(alloc: Global) -> Result<ClassInfo, OutOfMemory>
    ensures { IfOk result (λ c. c ≡ sample.cell_class) }
{
    class(alloc, b"Cell", Some(Class(0)), Vec::new(alloc))
}

// A root with a number, a Hall in it with a number, a Stall in that with one of each other kind, and a Cell with none.
fn market_classes(alloc: Global) -> Result<Seq<ClassInfo>, OutOfMemory>
    ensures { IfOk result (λ cs. cs ≡ sample.market_class ∷ sample.hall_class ∷ sample.stall_class ∷ sample.cell_class ∷ []) }
{
    let mut classes = Vec::new(alloc);
    classes.push(market_class(alloc)?)?;
    classes.push(hall_class(alloc)?)?;
    classes.push(stall_class(alloc)?)?;
    classes.push(cell_class(alloc)?)?;
    Ok(Seq::from_vec(classes))
}

// The four, without an event.
pub(crate) fn market_shape(alloc: Global) -> Result<Shape, OutOfMemory>
    ensures same { IfOk result (λ s. s ≡ sample.market_shape) }
    ensures shape { IfOk result IsShape }
    ensures names { IfOk result HasNames }
{
    Ok(Shape {
        classes: market_classes(alloc)?,
        events: Seq::new(alloc),
    })
}
