//! The values of constants and variables, where they are kept.

ghost use Rattle.std.specs.Prelude.{◌≡◌, get_or, IfSome};
ghost use Rattle.context_tree.specs.Contexts.{tree_of as shown};
ghost use Rattle.resolved_service.specs.View.{tree_of};
ghost use Rattle.resolved_service.specs.World.{nothing};
ghost use Rattle.service_eval.specs.inner.Turns.{IsWorth};

use crate::look::{View, above};
use resolved_service::{Expr, Node};
use wave_base::{Path, Value};

/// Where the value of a constant or a variable is kept. None of another expression.
pub fn held_value<'v>(view: &View<'v, '_>, e: &'v Expr) -> Option<&'v Value>
    ensures { IfSome result (λ v. IsWorth view.now (tree_of e.now) v.now) }
{
    match &e.node {
        Node::Const(value) => Some(value),
        Node::Local(slot) => kept_value(view.m.locals.as_slice(), *slot as usize),
        Node::Field(f) => kept_field(view, &view.m.path, *f as usize),
        Node::Above(level, f) => {
            let path = above(&view.m.path, *level as usize);
            kept_field(view, &path, *f as usize)
        }
        _ => None,
    }
}

// A field of a context that is there.
#[inline(always)]
fn kept_field<'v>(view: &View<'v, '_>, path: &Path, field: usize) -> Option<&'v Value>
    ensures { IfSome result (λ v. v.now ≡ get_or ((shown view.now.code.shape.now view.now.contexts.now).fields path.now) field nothing) }
{
    match view.contexts.get_near(view.m.near, path) {
        Some(record) => kept_value(record.fields.as_slice(), field),
        None => None,
    }
}

// One of some values.
#[inline(always)]
fn kept_value(values: &[Value], at: usize) -> Option<&Value>
    ensures { IfSome result (λ v. v.now ≡ get_or values.now at nothing) }
{
    values.get(at)
}
