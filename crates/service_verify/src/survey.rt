//! What is found out of a program's code, function by function.

ghost use Rattle.std.specs.Prelude.{◌≡◌, suc, Some, Ok, OnOk, IfOk, slice_get};
ghost use Rattle.service_verify.specs.Points.{judged_function};
ghost use Rattle.service_verify.specs.inner.Surveys.{Keep, IsSurveyed};

use crate::looks::{looks_from, only_looks};
use crate::marks::{mark_reads, unmarked_fields};
use crate::point::Point;
use service_code::{Function, Program};
use std::alloc::Global;
use wave_base::{OutOfMemory, Seq};

/// Of the functions so far: which fields of each class they read from below, which of them are quiet, and from where on
/// each event of them only looks.
#[derive(Debug, Drop)]
pub struct Survey {
    /// For each class, by its number, and each of its fields: whether it is read from below.
    pub kept: Vec<Seq<bool>>,
    /// For each function: whether it changes no field and calls into no child, nor does what it calls.
    pub quiet: Vec<bool>,
    /// For each function that is an event: the instruction from which on it only looks, if there is one.
    pub looks: Vec<Option<usize>>,
}

impl Survey {
    /// Before the first function.
    pub fn new(alloc: Global, program: &Program) -> Result<Survey, OutOfMemory>
        ensures { IfOk result (λ s. IsSurveyed program.now 0 s.kept.items s.quiet.items s.looks.items) }
    {
        Ok(Survey {
            kept: unmarked_fields(alloc, &program.shape)?,
            quiet: Vec::new(alloc),
            looks: Vec::new(alloc),
        })
    }

    /// The next function, which keeps the rules, with the points of its instructions.
    pub fn add(
        &mut self,
        program: &Program,
        number: u16,
        function: &Function,
        points: &[Option<Point>],
    ) -> Result<(), OutOfMemory>
        requires there { slice_get program.now.functions number ≡ Some function.now }
        requires before { Keep program.now number }
        requires points { judged_function program.now number function.now ≡ Ok points.now }
        requires surveyed { IsSurveyed program.now number self.old.kept.items self.old.quiet.items self.old.looks.items }
        ensures { OnOk result (IsSurveyed program.now (suc number) self.new.kept.items self.new.quiet.items self.new.looks.items) }
    {
        let code = function.code.as_slice();
        mark_reads(&program.shape, code, points, &mut self.kept);
        let looks = looks_from(function, self.quiet.as_slice());
        let quiet = only_looks(code, 0, self.quiet.as_slice());
        self.looks.push(looks)?;
        self.quiet.push(quiet)?;
        Ok(())
    }
}
