//! Statements that change nothing of what may be named behind them.

ghost use Rattle.std.specs.Prelude.{◌≡◌, map, None, Some};
ghost use Rattle.std.specs.Option.{option_map};
ghost use Rattle.mace_ast.specs.Exprs.{expr_tree};
ghost use Rattle.mace_ast.specs.Stmts as syntax;
ghost use Rattle.resolved_service.specs.Steps.{step_of};
ghost use Rattle.resolved_service.specs.View.{tree_of};
ghost use Rattle.type_rules.specs.Demands.{Judges};
ghost use Rattle.type_rules.specs.Here.{variable_kind};
ghost use Rattle.type_rules.specs.Exprs.{resolve};
ghost use Rattle.type_rules.specs.Stmts as rules;
ghost use Rattle.context_types.specs.inner.Places.{here_of};

use crate::here::{Here, Within};
use mace_ast::{Expr, Target};
use resolved_service::{Action, Expr as Tree, Stmt as Step};
use std::alloc::Global;
use type_rules::{TypeError, Variable};
use type_tables::same_kind;
use wave_base::{Kind, Seq, Span, Txt};

// Statements that change nothing of what may be named behind them.
impl Here<'_> {
    /// A `require`, whose test has to be a truth value.
    pub fn require(&self, alloc: Global, at: Span, test: &Expr) -> Result<Step, TypeError>
        ensures { let h = here_of self.now in let s = syntax.Require at (expr_tree test.now) in
            Judges (rules.stmt_demands h s) (λ step. rules.resolve_stmt h s ≡ step_of step) result }
    {
        let test = self.expr(alloc, test)?;
        if !same_kind(test.kind, Kind::Bool) {
            return Err(TypeError::Mismatch(at));
        }
        let action = Action::Require(test.tree);
        Ok(Step { at, action })
    }

    /// A `send` of a value under a label.
    pub fn send(
        &self,
        alloc: Global,
        at: Span,
        label: &Txt,
        value: &Expr,
    ) -> Result<Step, TypeError>
        ensures { let h = here_of self.now in let s = syntax.Send at label.now (expr_tree value.now) in
            Judges (rules.stmt_demands h s) (λ step. rules.resolve_stmt h s ≡ step_of step) result }
    {
        let value = self.expr(alloc, value)?;
        let label = label.copy(alloc)?;
        let action = Action::Send(label, value.tree);
        Ok(Step { at, action })
    }

    /// A `spawn` of an event, with arguments of the kinds that it takes.
    pub fn spawn(
        &self,
        alloc: Global,
        at: Span,
        event: &Txt,
        args: &Seq<Expr>,
    ) -> Result<Step, TypeError>
        ensures { let h = here_of self.now in let s = syntax.Spawn at event.now (map expr_tree args.now) in
            Judges (rules.stmt_demands h s) (λ step. rules.resolve_stmt h s ≡ step_of step) result }
    {
        let Some(event) = self.known.event(event) else {
            return Err(TypeError::UnknownName(at));
        };
        let kinds = self.known.event_params(event);
        let args = self.args(alloc, at, kinds, args.as_slice())?;
        let action = Action::Spawn(event, args);
        Ok(Step { at, action })
    }

    /// A call of an own method, or of a builtin, whose result nobody takes.
    pub fn do_call(
        &self,
        alloc: Global,
        at: Span,
        name: &Txt,
        args: &[Expr],
    ) -> Result<Step, TypeError>
        ensures { let h = here_of self.now in let s = syntax.Call at name.now (map expr_tree args.now) in
            Judges (rules.stmt_demands h s) (λ step. rules.resolve_stmt h s ≡ step_of step) result }
    {
        let called = self.call(alloc, at, name, args)?;
        let action = Action::Do(called.tree);
        Ok(Step { at, action })
    }

    /// A call of a child's method, whose result nobody takes.
    pub fn do_child_call(
        &self,
        alloc: Global,
        at: Span,
        class: &Txt,
        key: &Expr,
        name: &Txt,
        args: &[Expr],
    ) -> Result<Step, TypeError>
        ensures { let h = here_of self.now in let s = syntax.ChildCall at class.now (expr_tree key.now) name.now (map expr_tree args.now) in
            Judges (rules.stmt_demands h s) (λ step. rules.resolve_stmt h s ≡ step_of step) result }
    {
        let class = self.child(at, class)?;
        let key = self.expr_of(alloc, Kind::Int, key)?;
        let called = self.child_call(alloc, at, class, name, args, key)?;
        let action = Action::Do(called.tree);
        Ok(Step { at, action })
    }

    /// `drop x[k];`
    pub fn cut(
        &self,
        alloc: Global,
        at: Span,
        target: &Target,
        key: &Expr,
    ) -> Result<Step, TypeError>
        ensures { let h = here_of self.now in let s = syntax.Cut at target.now (expr_tree key.now) in
            Judges (rules.stmt_demands h s) (λ step. rules.resolve_stmt h s ≡ step_of step) result }
    {
        let map = self.target(at, target)?;
        let key = self.key(alloc, at, map, key)?;
        let action = match map {
            Variable::Local(slot, _) => Action::CutLocal(slot, key),
            Variable::Field(field, _) => Action::CutField(field, key),
        };
        Ok(Step { at, action })
    }

    /// `x = e;`
    pub fn set(
        &self,
        alloc: Global,
        at: Span,
        target: &Target,
        value: &Expr,
    ) -> Result<Step, TypeError>
        ensures { let h = here_of self.now in let s = syntax.Set at target.now None (expr_tree value.now) in
            Judges (rules.stmt_demands h s) (λ step. rules.resolve_stmt h s ≡ step_of step) result }
    {
        let variable = self.target(at, target)?;
        let value = self.expr_of(alloc, kind_of(variable), value)?;
        let action = match variable {
            Variable::Local(slot, _) => Action::SetLocal(slot, value),
            Variable::Field(field, _) => Action::SetField(field, value),
        };
        Ok(Step { at, action })
    }

    /// `x[k] = e;`
    pub fn put(
        &self,
        alloc: Global,
        at: Span,
        target: &Target,
        key: &Expr,
        value: &Expr,
    ) -> Result<Step, TypeError>
        ensures { let h = here_of self.now in let s = syntax.Set at target.now (Some (expr_tree key.now)) (expr_tree value.now) in
            Judges (rules.stmt_demands h s) (λ step. rules.resolve_stmt h s ≡ step_of step) result }
    {
        let map = self.target(at, target)?;
        let key = self.key(alloc, at, map, key)?;
        let value = self.expr_of(alloc, Kind::Int, value)?;
        let action = match map {
            Variable::Local(slot, _) => Action::PutLocal(slot, key, value),
            Variable::Field(field, _) => Action::PutField(field, key, value),
        };
        Ok(Step { at, action })
    }

    /// `return;` or `return e;`, which ends a method.
    pub fn return_end(
        &self,
        alloc: Global,
        at: Span,
        value: &Option<Expr>,
    ) -> Result<Step, TypeError>
        ensures { let h = here_of self.now in let s = syntax.Return at (option_map expr_tree value.now) in
            Judges (rules.stmt_demands h s) (λ step. rules.resolve_stmt h s ≡ step_of step) result }
    {
        match self.within {
            Within::Method(gives) => {
                let value = self.end_value(alloc, at, gives, value)?;
                let action = Action::Return(value);
                Ok(Step { at, action })
            }
            Within::Event(_) => Err(TypeError::Mismatch(at)),
        }
    }

    /// `finish;` or `finish e;`, which ends an event.
    pub fn finish_end(
        &self,
        alloc: Global,
        at: Span,
        value: &Option<Expr>,
    ) -> Result<Step, TypeError>
        ensures { let h = here_of self.now in let s = syntax.Finish at (option_map expr_tree value.now) in
            Judges (rules.stmt_demands h s) (λ step. rules.resolve_stmt h s ≡ step_of step) result }
    {
        match self.within {
            Within::Event(gives) => {
                let value = self.end_value(alloc, at, gives, value)?;
                let action = Action::Finish(value);
                Ok(Step { at, action })
            }
            Within::Method(_) => Err(TypeError::Mismatch(at)),
        }
    }

    // A value, where the function gives one, and none, where it gives none.
    fn end_value(
        &self,
        alloc: Global,
        at: Span,
        gives: Option<Kind>,
        value: &Option<Expr>,
    ) -> Result<Option<Tree>, TypeError>
        ensures { let h = here_of self.now in let tree = option_map expr_tree value.now in
            Judges (rules.end_demands h at gives tree) (λ made. option_map (resolve h) tree ≡ option_map tree_of made) result }
    {
        match (gives, value) {
            (None, None) => Ok(None),
            (Some(kind), Some(value)) => {
                let value = self.expr_of(alloc, kind, value)?;
                Ok(Some(value))
            }
            (None, Some(_)) => Err(TypeError::Mismatch(at)),
            (Some(_), None) => Err(TypeError::Mismatch(at)),
        }
    }

    // What is written or cut: a local or an own field.
    fn target(&self, at: Span, target: &Target) -> Result<Variable, TypeError>
        ensures { Judges (rules.target_asks (here_of self.now) at target.now) (λ x. rules.target_variable (here_of self.now) target.now ≡ Some x) result }
    {
        match &target.above {
            None => self
                .variable(&target.name)
                .ok_or(TypeError::UnknownName(at)),
            Some(class) => match self.known.class(class) {
                None => Err(TypeError::UnknownName(at)),
                Some(_) => Err(TypeError::NotDownward(at)),
            },
        }
    }

    // The key of a map that is written or cut.
    fn key(&self, alloc: Global, at: Span, map: Variable, key: &Expr) -> Result<Tree, TypeError>
        ensures { Judges (rules.key_demands (here_of self.now) at (Some (variable_kind map)) (expr_tree key.now)) (λ t. resolve (here_of self.now) (expr_tree key.now) ≡ tree_of t) result }
    {
        if !same_kind(kind_of(map), Kind::Map) {
            return Err(TypeError::Mismatch(at));
        }
        self.expr_of(alloc, Kind::Int, key)
    }
}

fn kind_of(variable: Variable) -> Kind
    ensures { result ≡ variable_kind variable }
{
    match variable {
        Variable::Local(_, kind) => kind,
        Variable::Field(_, kind) => kind,
    }
}
