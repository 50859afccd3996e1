//! Statements that have others inside, or declare a local; and statements one after the other.

ghost use Rattle.std.specs.Prelude.{◌≡◌, map, length};
ghost use Rattle.std.specs.Option.{option_map};
ghost use Rattle.mace_ast.specs.Exprs.{expr_tree};
ghost use Rattle.mace_ast.specs.Stmts as syntax;
ghost use Rattle.mace_ast.specs.Stmts.{stmt_tree, stmts_of, else_of};
ghost use Rattle.resolved_service.specs.Steps.{step_of};
ghost use Rattle.type_rules.specs.Demands.{Judges};
ghost use Rattle.type_rules.specs.Here.{behind, with_counter};
ghost use Rattle.type_rules.specs.Stmts as rules;
ghost use Rattle.context_types.specs.inner.Places.{here_of, IsStep, AreSteps, IsOther};

use crate::here::Here;
use mace_ast::{Action, Expr, Name, Stmt};
use resolved_service::{Action as Effect, Stmt as Step, is_end};
use std::alloc::Global;
use type_rules::TypeError;
use wave_base::{Kind, Span, push};

impl Here<'_> {
    /// A statement.
    #[cycle(stmt)]
    pub fn stmt(&mut self, alloc: Global, s: &Stmt) -> Result<Step, TypeError>
        ensures { let h = here_of self.old in
            Judges (rules.stmt_demands h (stmt_tree s.now)) (IsStep (rules.after h (stmt_tree s.now)) (rules.resolve_stmt h (stmt_tree s.now)) self.new) result }
    {
        let at = s.at;
        match &s.action {
            Action::Let(name, value) => self.let_in(alloc, at, name, value),
            Action::If(test, body, other) => {
                let test = self.expr_of(alloc, Kind::Bool, test)?;
                let body = self.block(alloc, body)?;
                let other = self.other(alloc, other)?;
                let action = Effect::If(test, body, other);
                Ok(Step { at, action })
            }
            Action::While(test, body) => {
                let test = self.expr_of(alloc, Kind::Bool, test)?;
                let body = self.block(alloc, body)?;
                let action = Effect::While(test, body);
                Ok(Step { at, action })
            }
            Action::For(name, low, high, body) => {
                let low = self.expr_of(alloc, Kind::Int, low)?;
                let high = self.expr_of(alloc, Kind::Int, high)?;
                let outside = self.locals.len();
                let counter = self.count(alloc, name)?;
                let body = self.stmts(alloc, body)?;
                self.locals.truncate(outside);
                let action = Effect::For(counter, low, high, body);
                Ok(Step { at, action })
            }
            Action::Require(test) => self.require(alloc, at, test),
            Action::Send(label, value) => self.send(alloc, at, label, value),
            Action::Spawn(event, args) => self.spawn(alloc, at, event, args),
            Action::Cut(target, key) => self.cut(alloc, at, target, key),
            Action::Set(target, None, value) => self.set(alloc, at, target, value),
            Action::Set(target, Some(key), value) => self.put(alloc, at, target, key, value),
            Action::Call(name, args) => self.do_call(alloc, at, name, args.as_slice()),
            Action::ChildCall(class, key, name, args) => {
                self.do_child_call(alloc, at, class, key, name, args.as_slice())
            }
            Action::Return(value) => self.return_end(alloc, at, value),
            Action::Finish(value) => self.finish_end(alloc, at, value),
        }
    }

    /// Statements one after the other, none behind one that surely ends. What they declare stays.
    #[cycle(stmt)]
    pub fn stmts(&mut self, alloc: Global, body: &[Stmt]) -> Result<Vec<Step>, TypeError>
        ensures { let h = here_of self.old in let ss = stmts_of (map stmt_tree body.now) in
            Judges (rules.stmts_demands h ss) (λ steps. AreSteps (rules.after_all h ss) (rules.resolve_stmts h ss) self.new steps.items) result }
    {
        let mut steps = Vec::new(alloc);
        let mut ended = false;
        'each: for s in body {
            if ended {
                return Err(TypeError::Unreachable(s.at));
            }
            let step = self.stmt(alloc, s)?;
            ended = is_end(&step);
            push(&mut steps, step)?;
        }
        Ok(steps)
    }

    // A block: behind it the locals are those before it.
    #[cycle(stmt)]
    fn block(&mut self, alloc: Global, body: &[Stmt]) -> Result<Vec<Step>, TypeError>
        ensures { let h = here_of self.old in let ss = stmts_of (map stmt_tree body.now) in
            Judges (rules.stmts_demands h ss) (λ steps. AreSteps (behind h (rules.after_all h ss)) (rules.resolve_stmts h ss) self.new steps.items) result }
    {
        let before = self.locals.len();
        let steps = self.stmts(alloc, body)?;
        self.locals.truncate(before);
        Ok(steps)
    }

    // What stands behind `else`, if anything.
    #[cycle(stmt)]
    fn other(
        &mut self,
        alloc: Global,
        body: &Option<Vec<Stmt>>,
    ) -> Result<Option<Vec<Step>>, TypeError>
        ensures { let h = here_of self.old in let other = else_of (option_map (λ b. map stmt_tree b.items) body.now) in
            Judges (rules.else_demands h other) (IsOther (rules.after_else h other) (rules.resolve_else h other) self.new) result }
    {
        match body {
            None => Ok(None),
            Some(body) => {
                let steps = self.block(alloc, body)?;
                Ok(Some(steps))
            }
        }
    }

    // The name of a loop over numbers, with the counter and the bound before it; the slot of the counter.
    fn count(&mut self, alloc: Global, name: &Name) -> Result<u16, TypeError>
        ensures { let h = here_of self.old in
            Judges (rules.local_asks h name.now 3) (λ slot. (slot ≡ length self.old.slots.items) × (with_counter h name.now.text ≡ here_of self.new)) result }
    {
        let counter = self.free_slot(name, 3)?;
        push(&mut self.slots, Kind::Int)?;
        push(&mut self.slots, Kind::Int)?;
        self.declare(alloc, &name.text, Kind::Int, counter + 2)?;
        Ok(counter)
    }

    fn let_in(
        &mut self,
        alloc: Global,
        at: Span,
        name: &Name,
        value: &Expr,
    ) -> Result<Step, TypeError>
        ensures { let h = here_of self.old in let s = syntax.Let at name.now (expr_tree value.now) in
            Judges (rules.stmt_demands h s) (IsStep (rules.after h s) (rules.resolve_stmt h s) self.new) result }
    {
        let value = self.expr(alloc, value)?;
        let slot = self.free_slot(name, 1)?;
        self.declare(alloc, &name.text, value.kind, slot)?;
        let action = Effect::SetLocal(slot, value.tree);
        Ok(Step { at, action })
    }
}
