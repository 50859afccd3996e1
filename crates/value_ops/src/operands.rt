//! Operands of a known kind.

ghost use Rattle.std.specs.Prelude.{◌≡◌, map, Some, slice_get};
ghost use Rattle.wave_base.specs.declared.value.Kind.{Kind};
ghost use Rattle.wave_base.specs.declared.value.Value.{Value};
ghost use Rattle.wave_base.specs.Values.{kind_of};

use wave_base::{Table, Txt, Value};

/// The int at a place.
pub fn int(args: &[Value], at: usize) -> i64
    requires { slice_get (map kind_of args.now) at ≡ Some Kind.Int }
    ensures { slice_get args.now at ≡ Some (Value.Int result) }
{
    match &args[at] {
        Value::Int(n) => *n,
        _ => unreachable!(),
    }
}

/// The truth value at a place.
pub fn flag(args: &[Value], at: usize) -> bool
    requires { slice_get (map kind_of args.now) at ≡ Some Kind.Bool }
    ensures { slice_get args.now at ≡ Some (Value.Bool result) }
{
    match &args[at] {
        Value::Bool(b) => *b,
        _ => unreachable!(),
    }
}

/// The text at a place.
pub fn text(args: &[Value], at: usize) -> &Txt
    requires { slice_get (map kind_of args.now) at ≡ Some Kind.Text }
    ensures { slice_get args.now at ≡ Some (Value.Str result.now) }
{
    match &args[at] {
        Value::Str(t) => t,
        _ => unreachable!(),
    }
}

/// The map at a place.
pub fn table(args: &[Value], at: usize) -> &Table
    requires { slice_get (map kind_of args.now) at ≡ Some Kind.Map }
    ensures { slice_get args.now at ≡ Some (Value.Map result.now) }
{
    match &args[at] {
        Value::Map(m) => m,
        _ => unreachable!(),
    }
}
