//! Ints, truth values and texts that expressions have, found at once: where neither a call nor a trap is met.

ghost use Rattle.std.specs.Prelude.{◌≡◌, map, option_map, Ok, IfSome};
ghost use Rattle.resolved_service.specs.View.{Op, tree, no_trees, tree_of, trees_of};
ghost use Rattle.service_eval.specs.inner.Turns.{IsWorth};
ghost use Rattle.wave_base.specs.declared.value.Value.{Value};

use crate::given::{
    asks, compares, compares_flags, compares_texts, flag_in, int_in, kind_given, measures,
    reads_int, reckons, turns_int,
};
use crate::held::held_value;
use crate::look::View;
use crate::rows::apply_one;
use crate::stop::Stop;
use crate::texts::text_of;
use resolved_service::{Expr, Node};
use std::alloc::Global;
use value_ops::{apply_int, apply_ints, compare_flags, compare_texts, read_map};
use wave_base::{Kind, Span, Value};

/// The int, the truth value or the text that an expression has, if it is found so: whatever a constant or a variable has,
/// and what operators give of those.
#[inline(always)]
pub fn plain<'v>(view: &View<'v, '_>, e: &'v Expr) -> Option<Value>
    ensures { IfSome result (λ v. IsWorth view.now (tree_of e.now) v) }
{
    match &e.node {
        Node::Op(row, args) => plain_of(view, *row, args.as_slice(), e.at),
        Node::And(_, _) => truth(flag(view, e)),
        Node::Or(_, _) => truth(flag(view, e)),
        _ => match held_value(view, e) {
            Some(value) => copied(view.code.alloc, value),
            None => None,
        },
    }
}

// What an operator gives: a row says of which kind that is, so that no operand is looked at as another.
#[inline(always)]
fn plain_of<'v>(view: &View<'v, '_>, row: u16, args: &'v [Expr], at: Span) -> Option<Value>
    ensures { IfSome result (λ v. IsWorth view.now (Op at row (trees_of (map tree_of args.now))) v) }
{
    match kind_given(row as usize) {
        Kind::Int => int(number_given(view, row, args, at)),
        Kind::Bool => truth(flag_of(view, row, args, at)),
        Kind::Text => text_of(view, row, args, at),
        Kind::Map => None,
    }
}

/// The int that an expression has.
#[cycle(number)]
pub fn number<'v>(view: &View<'v, '_>, e: &'v Expr) -> Option<i64>
    ensures { IfSome result (λ n. IsWorth view.now (tree_of e.now) (Value.Int n)) }
{
    match &e.node {
        Node::Op(row, args) => number_given(view, *row, args.as_slice(), e.at),
        _ => match held_value(view, e) {
            Some(Value::Int(n)) => Some(*n),
            _ => None,
        },
    }
}

#[cycle(number)]
fn number_given<'v>(view: &View<'v, '_>, row: u16, args: &'v [Expr], at: Span) -> Option<i64>
    ensures { IfSome result (λ n. IsWorth view.now (Op at row (trees_of (map tree_of args.now))) (Value.Int n)) }
{
    match args {
        [a] => number_of_one(view, row, a, at),
        [a, b] => number_of_two(view, row, a, b, at),
        _ => None,
    }
}

#[cycle(number)]
fn number_of_one<'v>(view: &View<'v, '_>, row: u16, a: &'v Expr, at: Span) -> Option<i64>
    ensures { IfSome result (λ n. IsWorth view.now (Op at row (tree (tree_of a.now) no_trees)) (Value.Int n)) }
{
    if turns_int(row as usize) {
        match number(view, a) {
            Some(n) => int_in(apply_int(row as usize, n)),
            None => None,
        }
    } else if measures(row as usize) {
        match held_value(view, a) {
            Some(value) => int_found(apply_one(view.code.alloc, row as usize, value, at)),
            None => None,
        }
    } else {
        None
    }
}

#[cycle(number)]
fn number_of_two<'v>(
    view: &View<'v, '_>,
    row: u16,
    a: &'v Expr,
    b: &'v Expr,
    at: Span,
) -> Option<i64>
    ensures { IfSome result (λ n. IsWorth view.now (Op at row (tree (tree_of a.now) (tree (tree_of b.now) no_trees))) (Value.Int n)) }
{
    if reckons(row as usize) {
        match number(view, a) {
            Some(first) => match number(view, b) {
                Some(second) => int_in(apply_ints(row as usize, first, second)),
                None => None,
            },
            None => None,
        }
    } else if reads_int(row as usize) {
        match held_value(view, a) {
            Some(Value::Map(map)) => match number(view, b) {
                Some(key) => int_in(read_map(row as usize, map, key)),
                None => None,
            },
            _ => None,
        }
    } else {
        None
    }
}

/// The truth value that an expression has.
#[cycle(flag)]
pub fn flag<'v>(view: &View<'v, '_>, e: &'v Expr) -> Option<bool>
    ensures { IfSome result (λ b. IsWorth view.now (tree_of e.now) (Value.Bool b)) }
{
    match &e.node {
        Node::Op(row, args) => flag_of(view, *row, args.as_slice(), e.at),
        Node::And(left, right) => match flag(view, left) {
            Some(true) => flag(view, right),
            Some(false) => Some(false),
            None => None,
        },
        Node::Or(left, right) => match flag(view, left) {
            Some(true) => Some(true),
            Some(false) => flag(view, right),
            None => None,
        },
        _ => match held_value(view, e) {
            Some(Value::Bool(b)) => Some(*b),
            _ => None,
        },
    }
}

#[cycle(flag)]
fn flag_of<'v>(view: &View<'v, '_>, row: u16, args: &'v [Expr], at: Span) -> Option<bool>
    ensures { IfSome result (λ b. IsWorth view.now (Op at row (trees_of (map tree_of args.now))) (Value.Bool b)) }
{
    match args {
        [a] => flag_of_one(view, row, a, at),
        [a, b] => flag_of_two(view, row, a, b, at),
        _ => None,
    }
}

#[cycle(flag)]
fn flag_of_one<'v>(view: &View<'v, '_>, row: u16, a: &'v Expr, at: Span) -> Option<bool>
    ensures { IfSome result (λ b. IsWorth view.now (Op at row (tree (tree_of a.now) no_trees)) (Value.Bool b)) }
{
    match flag(view, a) {
        Some(b) => flag_found(apply_one(view.code.alloc, row as usize, &Value::Bool(b), at)),
        None => None,
    }
}

#[cycle(flag)]
fn flag_of_two<'v>(
    view: &View<'v, '_>,
    row: u16,
    a: &'v Expr,
    b: &'v Expr,
    at: Span,
) -> Option<bool>
    ensures { IfSome result (λ r. IsWorth view.now (Op at row (tree (tree_of a.now) (tree (tree_of b.now) no_trees))) (Value.Bool r)) }
{
    if compares(row as usize) {
        match number(view, a) {
            Some(first) => match number(view, b) {
                Some(second) => flag_in(apply_ints(row as usize, first, second)),
                None => None,
            },
            None => None,
        }
    } else if compares_flags(row as usize) {
        match flag(view, a) {
            Some(first) => match flag(view, b) {
                Some(second) => Some(compare_flags(row as usize, first, second)),
                None => None,
            },
            None => None,
        }
    } else {
        flag_of_held(view, row, a, b, at)
    }
}

// The same of a map and an int, or of two texts, which are looked at where they are kept.
fn flag_of_held<'v>(
    view: &View<'v, '_>,
    row: u16,
    a: &'v Expr,
    b: &'v Expr,
    at: Span,
) -> Option<bool>
    ensures { IfSome result (λ r. IsWorth view.now (Op at row (tree (tree_of a.now) (tree (tree_of b.now) no_trees))) (Value.Bool r)) }
{
    if asks(row as usize) {
        match held_value(view, a) {
            Some(Value::Map(map)) => match number(view, b) {
                Some(key) => flag_in(read_map(row as usize, map, key)),
                None => None,
            },
            _ => None,
        }
    } else if compares_texts(row as usize) {
        match held_value(view, a) {
            Some(Value::Str(first)) => match held_value(view, b) {
                Some(Value::Str(second)) => Some(compare_texts(row as usize, first, second)),
                _ => None,
            },
            _ => None,
        }
    } else {
        None
    }
}

// The int that an operator gave.
fn int_found(given: Result<Value, Stop>) -> Option<i64>
    ensures { IfSome result (λ n. given ≡ Ok (Value.Int n)) }
{
    match given {
        Ok(Value::Int(n)) => Some(n),
        _ => None,
    }
}

// The truth value that an operator gave.
fn flag_found(given: Result<Value, Stop>) -> Option<bool>
    ensures { IfSome result (λ b. given ≡ Ok (Value.Bool b)) }
{
    match given {
        Ok(Value::Bool(b)) => Some(b),
        _ => None,
    }
}

// The int as a value.
#[inline(always)]
fn int(found: Option<i64>) -> Option<Value>
    ensures { result ≡ option_map Value.Int found }
{
    match found {
        Some(n) => Some(Value::Int(n)),
        None => None,
    }
}

// The truth value as a value.
#[inline(always)]
fn truth(found: Option<bool>) -> Option<Value>
    ensures { result ≡ option_map Value.Bool found }
{
    match found {
        Some(b) => Some(Value::Bool(b)),
        None => None,
    }
}

// A value equal to this one, if there is memory for it.
#[inline(always)]
fn copied(alloc: Global, value: &Value) -> Option<Value>
    ensures { IfSome result (λ v. v ≡ value.now) }
{
    match value {
        Value::Int(n) => Some(Value::Int(*n)),
        Value::Bool(b) => Some(Value::Bool(*b)),
        _ => match value.copy(alloc) {
            Ok(value) => Some(value),
            Err(_) => None,
        },
    }
}
