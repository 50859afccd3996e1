//! What is known before an instruction.

ghost use Rattle.std.specs.Prelude.{◌≡◌, length, IfOk, MatchResult, Ok, Err};
ghost use Rattle.std.specs.Cmp.Lexicographic.{pointwise};
ghost use Rattle.service_verify.specs.Points.{agreement};
ghost use Rattle.service_verify.specs.Rules.{kind_eq};

use crate::error::Rule;
use crate::stack::Stack;
use std::alloc::Global;
use wave_base::{Class, Kind, OutOfMemory};

/// What the verifier has before an instruction: the class of the context, and the kinds on the stack.
#[derive(Debug, Drop)]
pub struct Point {
    /// The class of the context.
    pub class: Class,
    /// The kinds of what lies on the stack.
    pub stack: Stack<Kind>,
}

impl Point {
    /// A point equal to this one.
    pub fn copy(&self, alloc: Global) -> Result<Point, OutOfMemory>
        ensures { IfOk result (λ p. p ≡ self.now) }
    {
        Ok(Point {
            class: self.class,
            stack: self.stack.copy(alloc)?,
        })
    }

    /// Whether an arrival at this point may come where the other one was first.
    pub fn agrees(&self, first: &Point) -> Result<(), Rule>
        ensures { MatchResult result (λ u. (t : _) → agreement self.now first.now t ≡ Ok t) (λ r. (t : _) → agreement self.now first.now t ≡ Err r) }
    {
        if self.stack.len() != first.stack.len() {
            Err(Rule::Stack)
        } else if self.class.0 == first.class.0 && self.stack.has_kinds_of(&first.stack) {
            Ok(())
        } else {
            Err(Rule::Kind)
        }
    }
}

impl Stack<Kind> {
    // Whether the two stacks have the same kinds.
    fn has_kinds_of(&self, other: &Stack<Kind>) -> bool
        requires { length self.now ≡ length other.now }
        ensures { result ≡ pointwise kind_eq self.now other.now }
    {
        self.as_slice() == other.as_slice()
    }
}
