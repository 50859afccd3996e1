//! Texts that operators give of what is held: where neither a call nor a trap is met.

ghost use Rattle.std.specs.Prelude.{◌≡◌, map, Ok, IfSome};
ghost use Rattle.resolved_service.specs.View.{Op, tree, no_trees, tree_of, trees_of};
ghost use Rattle.service_eval.specs.inner.Turns.{IsWorth};

use crate::given::{answered_value, given_value, joins};
use crate::held::held_value;
use crate::look::View;
use crate::plain::number;
use crate::rows::{apply_one, apply_three};
use resolved_service::Expr;
use value_ops::apply_texts;
use wave_base::{Span, Value};

/// The text that an operator gives of ints and of texts that are held.
pub fn text_of<'v>(view: &View<'v, '_>, row: u16, args: &'v [Expr], at: Span) -> Option<Value>
    ensures { IfSome result (λ v. IsWorth view.now (Op at row (trees_of (map tree_of args.now))) v) }
{
    match args {
        [a] => text_of_one(view, row, a, at),
        [a, b] => text_of_two(view, row, a, b, at),
        [a, b, c] => text_of_three(view, row, a, b, c, at),
        _ => None,
    }
}

#[inline(never)]
fn text_of_one<'v>(view: &View<'v, '_>, row: u16, a: &'v Expr, at: Span) -> Option<Value>
    ensures { IfSome result (λ v. IsWorth view.now (Op at row (tree (tree_of a.now) no_trees)) v) }
{
    match number(view, a) {
        Some(n) => given_value(apply_one(view.code.alloc, row as usize, &Value::Int(n), at)),
        None => None,
    }
}

fn text_of_two<'v>(
    view: &View<'v, '_>,
    row: u16,
    a: &'v Expr,
    b: &'v Expr,
    at: Span,
) -> Option<Value>
    ensures { IfSome result (λ v. IsWorth view.now (Op at row (tree (tree_of a.now) (tree (tree_of b.now) no_trees))) v) }
{
    if !joins(row as usize) {
        return None;
    }
    match held_value(view, a) {
        Some(Value::Str(first)) => match held_value(view, b) {
            Some(Value::Str(second)) => {
                answered_value(apply_texts(view.code.alloc, row as usize, first, second))
            }
            _ => None,
        },
        _ => None,
    }
}

#[inline(never)]
fn text_of_three<'v>(
    view: &View<'v, '_>,
    row: u16,
    a: &'v Expr,
    b: &'v Expr,
    c: &'v Expr,
    at: Span,
) -> Option<Value>
    ensures { IfSome result (λ v. IsWorth view.now (Op at row (tree (tree_of a.now) (tree (tree_of b.now) (tree (tree_of c.now) no_trees)))) v) }
{
    match held_value(view, a) {
        Some(text) => match number(view, b) {
            Some(from) => match number(view, c) {
                Some(to) => {
                    let from = Value::Int(from);
                    let to = Value::Int(to);
                    given_value(apply_three(view.code.alloc, row as usize, text, &from, &to, at))
                }
                None => None,
            },
            None => None,
        },
        None => None,
    }
}
