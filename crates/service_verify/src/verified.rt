//! Programs that keep all rules, with what the machine asks of them.

ghost use Rattle.std.specs.Prelude.{◌≡◌, ◌<◌, ◌↔◌, ℕ, Some, true, length, slice_get, IfOk, IfErr};
ghost use Rattle.service_verify.specs.Faults.{Names};
ghost use Rattle.service_verify.specs.Fit.{IsSmall};
ghost use Rattle.service_verify.specs.Links.{AreLinked};
ghost use Rattle.service_verify.specs.Looks.{peeks, looks_from};
ghost use Rattle.service_verify.specs.Points.{IsVerified, Breaks};
ghost use Rattle.service_verify.specs.Reads.{Reads, read_marks};

use crate::asks::Judge;
use crate::error::VerifyError;
use crate::links::{Link, links_of_functions};
use crate::survey::Survey;
use service_code::Program;
use std::alloc::Global;
use std::marker::Model;
use value_ops::wave_ops_2;
use wave_base::{Class, Seq};

/// A program each of whose instructions keeps the verifier's rules; with it for each class which of its fields are read from
/// below, for each event's function from where on it only looks, and for each function what a whole number meets at each place.
#[derive(Debug, Drop)]
pub struct Verified {
    program: Program,
    kept: Vec<Seq<bool>>,
    looks: Vec<Option<usize>>,
    links: Vec<Seq<Link>>,
}

impl Model for Verified {
    ghost use Rattle.service_code.specs.declared.program.Program.{Program};
    ghost use Rattle.service_verify.specs.Points.{IsVerified};
    ghost use Rattle.service_verify.specs.Links.{AreLinked};
    ghost use Rattle.service_verify.specs.inner.Surveys.{HasTables};

    ghost Value = { Program };

    ghost view = { λ v. v.program };

    ghost invariant = { λ v. IsVerified v.program × HasTables v.program v.kept.items v.looks.items × AreLinked v.program v.links.items };
}

impl Verified {
    /// The program, which keeps all rules.
    pub fn program(&self) -> &Program
        ensures program { result.now ≡ self.now }
        ensures verified { IsVerified self.now }
    {
        &self.program
    }

    /// For each field of a class, whether some instruction reads it from a context below: an event that leaves such a
    /// context downwards keeps a copy of these fields alone.
    pub fn kept_fields(&self, class: Class) -> &Seq<bool>
        requires { class.0 < length self.now.shape.classes }
        ensures kept { result.now ≡ read_marks self.now class.0 }
        ensures exact { (field : ℕ) → slice_get result.now field ≡ Some true ↔ Reads self.now class.0 field }
    {
        &self.kept[class.0 as usize]
    }

    /// Whether a function is an event's that only looks after its last Go.
    pub fn peeks(&self, function: u16) -> bool
        ensures { result ≡ peeks self.now function }
    {
        self.looks_from(function).is_some()
    }

    /// The place from which on an event's function only looks, where it peeks.
    pub fn looks_from(&self, function: u16) -> Option<usize>
        ensures { result ≡ looks_from self.now function }
    {
        if (function as usize) < self.looks.len() {
            self.looks[function as usize]
        } else {
            None
        }
    }

    /// For each function, by its number, what a whole number meets at each place of its code.
    pub fn links(&self) -> &[Seq<Link>]
        ensures { AreLinked self.now result.now }
    {
        self.links.as_slice()
    }
}

/// Verifies a program. The first function with an instruction that breaks a rule is refused, at its first such instruction.
pub fn verify(alloc: Global, program: Program) -> Result<Verified, VerifyError>
    requires { IsSmall program }
    ensures same { IfOk result (λ v. v ≡ program) }
    ensures verified { IfOk result (λ v. IsVerified v) }
    ensures refused { IfErr result (Names (Breaks program)) }
{
    let operators = wave_ops_2();
    let mut survey = Survey::new(alloc, &program)?;
    for (number, function) in program.functions.as_slice().iter().enumerate() {
        let judge = Judge {
            program: &program,
            operators: &operators,
            number: number as u16,
            function,
        };
        let points = match judge.judge(alloc) {
            Ok(points) => points,
            Err(refusal) => return Err(refusal),
        };
        survey.add(&program, number as u16, function, points.as_slice())?;
    }
    let links = links_of_functions(alloc, &program)?;
    let Survey {
        kept,
        quiet: _,
        looks,
    } = survey;
    Ok(Verified {
        program,
        kept,
        looks,
        links,
    })
}
