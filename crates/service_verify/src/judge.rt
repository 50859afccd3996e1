//! A function, judged from its first instruction to its last.

ghost use Rattle.std.specs.Prelude.{◌≡◌, ◌<◌, ◌≤◌, ◌^◌, length, Some, Ok, Err, IfOk, IfErr, MatchResult, slice_get};
ghost use Rattle.value_ops.specs.Rows.{wave_rows_2};
ghost use Rattle.service_verify.specs.inner.Asks.{Judges, Leaves, IsUnreached};
ghost use Rattle.service_verify.specs.Faults.{Names, IsFirst};
ghost use Rattle.service_verify.specs.inner.Nexts.{nexts};
ghost use Rattle.service_verify.specs.Points.{kept_stack, point_after, arrival, arrivals, visit, first_table, judged_function};
ghost use Rattle.service_verify.specs.Rules.{class_after, next_of, ends};

use crate::asks::Judge;
use crate::error::{Refusal, Rule, VerifyError};
use crate::kinds::take_all;
use crate::point::Point;
use crate::stack::Stack;
use service_code::{Function, Instr};
use std::alloc::Global;
use wave_base::{Class, INSTRUCTIONS, Kind, OutOfMemory};

impl Judge<'_> {
    /// Leads a point to the one after an instruction.
    #[tactic(auto, unfolding(crate::specs::Points::point_after))]
    pub fn lead(&self, instr: Instr, point: &mut Point) -> Result<(), Refusal>
        requires { self.now.operators.now ≡ wave_rows_2 }
        ensures { Judges (point_after self.now.program.now self.now.number self.now.function.now instr point.old) point.new result }
    {
        let asks = self.asks(point.class, instr)?;
        take_all(&mut point.stack, asks.takes)?;
        if let Some(kind) = asks.gives {
            point.stack.push(kind)?;
        }
        self.keep_stack(instr, &point.stack)?;
        point.class = class_after(instr, point.class);
        Ok(())
    }

    // The stack is not higher than the function says, and it is empty where the function ends.
    fn keep_stack(&self, instr: Instr, stack: &Stack<Kind>) -> Result<(), Rule>
        ensures { MatchResult result (λ u. kept_stack self.now.function.now instr stack.now ≡ Ok stack.now) (λ r. kept_stack self.now.function.now instr stack.now ≡ Err r) }
    {
        if stack.len() > self.function.stack as usize || (ends(instr) && stack.len() > 0) {
            Err(Rule::Stack)
        } else {
            Ok(())
        }
    }
}

impl Judge<'_> {
    // Judges an instruction, and marks what it leads to.
    #[tactic(auto, unfolding(crate::specs::Points::visit))]
    fn visit(
        &self,
        alloc: Global,
        n: usize,
        instr: Instr,
        table: &mut Vec<Option<Point>>,
    ) -> Result<(), Refusal>
        requires operators { self.now.operators.now ≡ wave_rows_2 }
        requires place { n < 2 ^ 63 }
        ensures { Judges (visit self.now.program.now self.now.number self.now.function.now n instr table.old.items) table.new.items result }
    {
        let mut point = point_at(alloc, table.as_slice(), n)?;
        self.lead(instr, &mut point)?;
        arrive_all(alloc, next_of(instr, n), point, table)
    }

    /// Judges the function, and gives the points of its instructions.
    pub fn judge(&self, alloc: Global) -> Result<Vec<Option<Point>>, VerifyError>
        requires operators { self.now.operators.now ≡ wave_rows_2 }
        requires code { length self.now.function.now.code ≤ INSTRUCTIONS }
        ensures ok { IfOk result (λ points. judged_function self.now.program.now self.now.number self.now.function.now ≡ Ok points.items) }
        ensures err { IfErr result (Names (IsFirst self.now.program.now self.now.number self.now.function.now)) }
    {
        let mut table = first_table(alloc, self.function)?;
        for (n, instr) in self.function.code.as_slice().iter().enumerate() {
            match self.visit(alloc, n, *instr, &mut table) {
                Ok(()) => {}
                Err(refusal) => return Err(refusal.at(self.number, n as u16)),
            }
        }
        Ok(table)
    }
}

// The first instruction is reached with an empty stack, and no other one yet.
fn first_table(alloc: Global, function: &Function) -> Result<Vec<Option<Point>>, OutOfMemory>
    ensures { IfOk result (λ t. t.items ≡ first_table function.now) }
{
    let mut table = Vec::new(alloc);
    for _i in 0..function.code.len() {
        table.push(None)?;
    }
    if table.len() > 0 {
        table[0] = Some(Point {
            class: function.class,
            stack: Stack::new(alloc),
        });
    }
    Ok(table)
}

// It ends its function.
fn ends(instr: Instr) -> bool
    ensures { result ≡ ends instr }
{
    matches!(instr, Instr::Return | Instr::Reply | Instr::End)
}

// The class after an instruction.
fn class_after(instr: Instr, class: Class) -> Class
    ensures { result ≡ class_after instr class }
{
    match instr {
        Instr::Go(child) => child,
        _ => class,
    }
}

// A copy of the point at an instruction, which an earlier one must have reached.
fn point_at(alloc: Global, table: &[Option<Point>], n: usize) -> Result<Point, Refusal>
    ensures { MatchResult result (λ p. slice_get table.now n ≡ Some (Some p)) (λ e. IsUnreached table.now n e) }
{
    match table.get(n) {
        Some(Some(point)) => Ok(point.copy(alloc)?),
        _ => Err(Refusal::Broken(Rule::Jump)),
    }
}

// An arrival at an instruction, which must be there.
fn arrive(n: usize, point: Point, table: &mut Vec<Option<Point>>) -> Result<(), Rule>
    ensures { Leaves (arrival n point table.old.items) table.new.items result }
{
    match table.get(n) {
        Some(Some(first)) => point.agrees(first),
        Some(None) => {
            table[n] = Some(point);
            Ok(())
        }
        None => Err(Rule::Jump),
    }
}

/// The instructions that may come next.
#[derive(Clone, Copy, Debug)]
enum Next {
    Nothing,
    One(usize),
    Either(usize, usize),
}

fn next_of(instr: Instr, n: usize) -> Next
    requires { n < 2 ^ 63 }
    ensures { nexts result ≡ next_of instr n }
{
    match instr {
        Instr::Jump(to) => Next::One(to as usize),
        Instr::JumpFalse(to) => Next::Either(n + 1, to as usize),
        Instr::Return | Instr::Reply | Instr::End => Next::Nothing,
        _ => Next::One(n + 1),
    }
}

// The arrivals at what may come next.
fn arrive_all(
    alloc: Global,
    next: Next,
    point: Point,
    table: &mut Vec<Option<Point>>,
) -> Result<(), Refusal>
    ensures { Judges (arrivals (nexts next) point table.old.items) table.new.items result }
{
    match next {
        Next::Nothing => Ok(()),
        Next::One(n) => Ok(arrive(n, point, table)?),
        Next::Either(n, m) => {
            let copy = point.copy(alloc)?;
            arrive(n, copy, table)?;
            Ok(arrive(m, point, table)?)
        }
    }
}
