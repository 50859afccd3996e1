//! The levels that an event has left.

ghost use Rattle.std.specs.Prelude.{◌≡◌, ◌∷◌, [], IfOk};
ghost use Rattle.wave_base.specs.declared.value.Value.TheVariants as v;

use downgrade_views::Views;
use std::alloc::Global;
use std::test::Fail;
use wave_base::{Children, OutOfMemory, Record, Seq, Txt, Value};

fn body(alloc: Global, name: Txt, count: i64, busy: bool) -> Result<Record, OutOfMemory>
    ensures { IfOk result (λ r. r.fields ≡ v.Str name ∷ v.Int count ∷ v.Bool busy ∷ []) }
{
    let (count, busy) = (Value::Int(count), Value::Bool(busy));
    let fields = Seq::from_vec(vec![in alloc; Value::Str(name), count, busy]?);
    let children = Children::new(alloc);
    Ok(Record { fields, children })
}

fn kept_marks(alloc: Global, name: bool, count: bool, busy: bool) -> Result<Seq<bool>, OutOfMemory>
    ensures { IfOk result (λ ks. ks ≡ name ∷ count ∷ busy ∷ []) }
{
    Ok(Seq::from_vec(vec![in alloc; name, count, busy]?))
}

#[test]
fn reads_what_was_kept(rt: HostRuntime) -> Result<(), Fail> {
    let alloc = rt.alloc();
    let root = body(alloc, Txt::from_bytes(alloc, b"root")?, 7, true)?;
    let hall = body(alloc, Txt::from_bytes(alloc, b"hall")?, -1, false)?;
    let mut views = Views::new(alloc);
    views.leave(&root, &kept_marks(alloc, false, true, true)?)?;
    views.leave(&hall, &kept_marks(alloc, true, false, true)?)?;
    let text = views.read(1, 0)?;
    assert!(rt; text == Value::Str(Txt::from_bytes(alloc, b"hall")?));
    assert_eq!(rt; views.read_int(0, 1), 7);
    assert!(rt; views.read_bool(0, 2));
    assert!(rt; !views.read_bool(1, 2));
    views.back();
    Ok(())
}
