//! An operator on values of whatever kinds it takes.

ghost use Rattle.std.specs.Prelude.{◌≡◌, ◌<◌, ◌↔◌, ◌∷◌, [], map, Ok, Err};
ghost use Rattle.value_ops.specs.Answers.{Answers};
ghost use Rattle.value_ops.specs.Operators.{takes_of, apply_row};
ghost use Rattle.wave_base.specs.declared.trap.TrapKind.{TrapKind};
ghost use Rattle.wave_base.specs.declared.value.Kind.{Kind};
ghost use Rattle.wave_base.specs.declared.value.Value.{Value};
ghost use Rattle.wave_base.specs.Values.{kind_of};

use crate::error::OpError;
use crate::ints::{apply_int, apply_ints};
use crate::maps::{apply_map, put};
use crate::numbers::num;
use crate::operands::{flag, int, table, text};
use crate::rows::{BEQ, LEN, SIZE, STR};
use crate::sums::sum;
use crate::takes::{Takes, takes_of};
use crate::texts::{apply_texts, part, text_of_int};
use std::alloc::Global;
use wave_base::{OPERATORS, Table, TrapKind, Txt, Value};

/// What a row gives of these values. Ints and truth values are given without memory.
pub fn apply(alloc: Global, row: usize, args: &[Value]) -> Result<Value, OpError>
    requires row { row < OPERATORS }
    requires kinds { map kind_of args.now ≡ takes_of row }
    ensures answer { Answers (apply_row row args.now) result }
    ensures trap { (trap : TrapKind) → (result ≡ Err (OpError.Trap trap)) ↔ (apply_row row args.now ≡ Err trap) }
{
    apply_by_kinds(alloc, row, args)
}

fn apply_by_kinds(alloc: Global, row: usize, args: &[Value]) -> Result<Value, OpError>
    requires row { row < OPERATORS }
    requires kinds { map kind_of args.now ≡ takes_of row }
    ensures { Answers (apply_row row args.now) result }
{
    match takes_of(row) {
        Takes::Ints => Ok(apply_ints(row, int(args, 0), int(args, 1))?),
        Takes::Int => apply_any_int(alloc, row, int(args, 0)),
        Takes::Bool => Ok(Value::Bool(!flag(args, 0))),
        Takes::Bools => Ok(Value::Bool(compare_flags(row, flag(args, 0), flag(args, 1)))),
        Takes::Text => Ok(read_text(row, text(args, 0))?),
        Takes::Texts => apply_texts(alloc, row, text(args, 0), text(args, 1)),
        Takes::TextIntInt => part(alloc, text(args, 0), int(args, 1), int(args, 2)),
        Takes::Map => Ok(sum_up(row, table(args, 0))?),
        Takes::MapInt => apply_map(row, table(args, 0), int(args, 1)),
        Takes::MapIntInt => put(table(args, 0), int(args, 1), int(args, 2)),
    }
}

// What a row gives of an int.
fn apply_any_int(alloc: Global, row: usize, a: i64) -> Result<Value, OpError>
    requires { takes_of row ≡ Kind.Int ∷ [] }
    ensures { Answers (apply_row row (Value.Int a ∷ [])) result }
{
    if row == STR {
        text_of_int(alloc, a)
    } else {
        Ok(apply_int(row, a)?)
    }
}

/// What a row reads from a text: its length, or the number that it writes.
pub fn read_text(row: usize, t: &Txt) -> Result<Value, TrapKind>
    requires { takes_of row ≡ Kind.Text ∷ [] }
    ensures { result ≡ apply_row row (Value.Str t.now ∷ []) }
{
    if row == LEN {
        Ok(Value::Int(t.bytes().len() as i64))
    } else {
        num(t)
    }
}

/// What a row gives of a whole map: the number of its pairs, or the sum of its values.
pub fn sum_up(row: usize, map: &Table) -> Result<Value, TrapKind>
    requires { takes_of row ≡ Kind.Map ∷ [] }
    ensures { result ≡ apply_row row (Value.Map map.now ∷ []) }
{
    if row == SIZE {
        Ok(Value::Int(map.len() as i64))
    } else {
        sum(map)
    }
}

/// What a row says of two truth values.
pub fn compare_flags(row: usize, b: bool, c: bool) -> bool
    requires { takes_of row ≡ Kind.Bool ∷ Kind.Bool ∷ [] }
    ensures { apply_row row (Value.Bool b ∷ Value.Bool c ∷ []) ≡ Ok (Value.Bool result) }
{
    if row == BEQ { b == c } else { b != c }
}
