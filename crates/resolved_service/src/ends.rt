//! Statements behind which nothing is run.

ghost use Rattle.std.specs.Prelude.{◌≡◌};
ghost use Rattle.resolved_service.specs.Steps as steps;
ghost use Rattle.resolved_service.specs.Steps.{step_of, steps_in};

use crate::stmt::{Action, Stmt};

/// Whether a statement surely ends its function: a `return`, a `finish`, or an `if` both of whose blocks surely end.
#[cycle(ends)]
pub fn is_end(s: &Stmt) -> bool
    ensures { result ≡ steps.is_end (step_of s.now) }
{
    match &s.action {
        Action::Return(_) => true,
        Action::Finish(_) => true,
        Action::If(_, body, other) => match other {
            Some(other) => surely_ends(body) && surely_ends(other),
            None => false,
        },
        _ => false,
    }
}

/// Whether statements surely end their function: where the last one does.
#[cycle(ends)]
pub fn surely_ends(body: &[Stmt]) -> bool
    ensures { result ≡ steps.surely_ends (steps_in body.now) }
{
    match body {
        [.., last] => is_end(last),
        _ => false,
    }
}
