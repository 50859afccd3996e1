//! Parts of shapes.

ghost use Rattle.std.specs.Prelude.{◌≡◌, length, IfOk};
ghost use Rattle.wave_base.specs.declared.value.Kind.TheVariants as kinds;
ghost use Rattle.wave_base.specs.declared.value.Value.TheVariants as values;
ghost use Rattle.wave_base.specs.Text.{IsText};

use std::alloc::Global;
use wave_base::{
    Class, ClassInfo, EventInfo, FieldInfo, Kind, OutOfMemory, Seq, Shape, Txt, Value,
};

/// A field: its name, its kind, and how it begins.
pub fn field(
    alloc: Global,
    name: &[u8],
    kind: Kind,
    initial: Value,
) -> Result<FieldInfo, OutOfMemory>
    requires { IsText name.now }
    ensures { IfOk result (λ f. f ≡ record { name = name.now; kind = kind; initial = initial }) }
{
    Ok(FieldInfo {
        name: Txt::from_bytes(alloc, name)?,
        kind,
        initial,
    })
}

/// A field of whole numbers.
pub fn number(alloc: Global, name: &[u8], initial: i64) -> Result<FieldInfo, OutOfMemory>
    requires { IsText name.now }
    ensures { IfOk result (λ f. f ≡ record { name = name.now; kind = kinds.Int; initial = values.Int initial }) }
{
    field(alloc, name, Kind::Int, Value::Int(initial))
}

/// A class: its name, the class that it stands in, and its fields.
pub fn class(
    alloc: Global,
    name: &[u8],
    parent: Option<Class>,
    fields: Vec<FieldInfo>,
) -> Result<ClassInfo, OutOfMemory>
    requires { IsText name.now }
    ensures { IfOk result (λ c. c ≡ record { name = name.now; parent = parent; fields = fields.items }) }
{
    Ok(ClassInfo {
        name: Txt::from_bytes(alloc, name)?,
        parent,
        fields: Seq::from_vec(fields),
    })
}

/// An event: its name, the kinds of its arguments, and that of its reply.
pub fn event(
    alloc: Global,
    name: &[u8],
    params: Vec<Kind>,
    reply: Option<Kind>,
) -> Result<EventInfo, OutOfMemory>
    requires { IsText name.now }
    ensures { IfOk result (λ e. e ≡ record { name = name.now; params = params.items; reply = reply }) }
{
    Ok(EventInfo {
        name: Txt::from_bytes(alloc, name)?,
        params: Seq::from_vec(params),
        reply,
    })
}

/// The shape of the counter: a root with a number, and one event.
pub fn tick_shape(alloc: Global) -> Result<Shape, OutOfMemory>
    ensures classes { IfOk result (λ s. length s.classes ≡ 1) }
    ensures events { IfOk result (λ s. length s.events ≡ 1) }
{
    let root = class(
        alloc,
        b"Tick",
        None,
        vec![in alloc; number(alloc, b"n", 0)?]?,
    )?;
    let hit = event(alloc, b"hit", Vec::new(alloc), Some(Kind::Int))?;
    Ok(Shape {
        classes: Seq::from_vec(vec![in alloc; root]?),
        events: Seq::from_vec(vec![in alloc; hit]?),
    })
}
