//! Kinds on the stack.

ghost use Rattle.std.specs.Prelude.{◌≡◌, ◌≤◌, [], ◌∷◌, ◌++◌, Some, length, map};
ghost use Rattle.service_verify.specs.inner.Asks.{takes_in, row_operands, Leaves};
ghost use Rattle.service_verify.specs.Rules.{kind_eq, suits, operands, left_below};

use crate::asks::Takes;
use crate::error::Rule;
use crate::stack::Stack;
use wave_base::Kind;

/// Whether two kinds are the same.
pub fn same_kind(a: Kind, b: Kind) -> bool
    ensures { result ≡ kind_eq a b }
{
    a == b
}

/// Takes what an instruction takes off the stack.
pub fn take_all(stack: &mut Stack<Kind>, takes: Takes<'_>) -> Result<(), Rule>
    ensures { Leaves (left_below (takes_in takes.entry) stack.old) stack.new result }
{
    match takes {
        Takes::Nothing => Ok(()),
        Takes::Any => take_any(stack),
        Takes::One(kind) => take_one(stack, kind),
        Takes::Pair => take_pair(stack),
        Takes::Kinds(kinds) => take_kinds(stack, kinds),
        Takes::Keyed(kinds) => take_keyed(stack, kinds),
        Takes::Row(takes) => take_row(stack, &takes),
    }
}

fn take_any(stack: &mut Stack<Kind>) -> Result<(), Rule>
    ensures { Leaves (left_below (None ∷ []) stack.old) stack.new result }
{
    match stack.pop() {
        Some(_) => Ok(()),
        None => Err(Rule::Stack),
    }
}

fn take_one(stack: &mut Stack<Kind>, kind: Kind) -> Result<(), Rule>
    ensures { Leaves (left_below (Some kind ∷ []) stack.old) stack.new result }
{
    match stack.pop() {
        Some(top) => {
            if same_kind(kind, top) {
                Ok(())
            } else {
                Err(Rule::Kind)
            }
        }
        None => Err(Rule::Stack),
    }
}

fn take_pair(stack: &mut Stack<Kind>) -> Result<(), Rule>
    ensures { Leaves (left_below (Some Kind.Int ∷ Some Kind.Int ∷ []) stack.old) stack.new result }
{
    take_one(stack, Kind::Int)?;
    take_one(stack, Kind::Int)
}

// The last one lies on top.
fn take_kinds(stack: &mut Stack<Kind>, kinds: &[Kind]) -> Result<(), Rule>
    ensures { Leaves (left_below (operands kinds.now) stack.old) stack.new result }
{
    for i in 0..kinds.len() {
        take_one(stack, kinds[kinds.len() - 1 - i])?;
    }
    Ok(())
}

fn take_keyed(stack: &mut Stack<Kind>, kinds: &[Kind]) -> Result<(), Rule>
    ensures { Leaves (left_below (operands kinds.now ++ Some Kind.Int ∷ []) stack.old) stack.new result }
{
    take_kinds(stack, kinds)?;
    take_one(stack, Kind::Int)
}

// The last one lies on top.
fn take_row(stack: &mut Stack<Kind>, takes: &[Option<Kind>]) -> Result<(), Rule>
    ensures { Leaves (left_below (row_operands takes.now) stack.old) stack.new result }
{
    for i in 0..takes.len() {
        take_if(stack, takes[takes.len() - 1 - i])?;
    }
    Ok(())
}

fn take_if(stack: &mut Stack<Kind>, kind: Option<Kind>) -> Result<(), Rule>
    ensures { Leaves (left_below (row_operands (kind ∷ [])) stack.old) stack.new result }
{
    match kind {
        Some(kind) => take_one(stack, kind),
        None => Ok(()),
    }
}
