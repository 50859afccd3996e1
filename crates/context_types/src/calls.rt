//! Calls: who is called, and with what.

ghost use Rattle.std.specs.Prelude.{◌≡◌, ◌==◌, [], ◌∷◌, map, length, is_some, Some};
ghost use Rattle.mace_ast.specs.Exprs.{expr_tree, exprs_of};
ghost use Rattle.resolved_service.specs.View.{tree_of, trees_of};
ghost use Rattle.type_rules.specs.declared.error.TypeError.{TypeError};
ghost use Rattle.type_rules.specs.Demands.{Judges, ask};
ghost use Rattle.type_rules.specs.Known as known;
ghost use Rattle.type_rules.specs.Here as names;
ghost use Rattle.type_rules.specs.Exprs as rules;
ghost use Rattle.context_types.specs.inner.Children.{asks_of_child, gives_of_child, child_tree_of};
ghost use Rattle.context_types.specs.inner.Places.{here_of, IsJudged, IsCalled};

use crate::exprs::Judged;
use crate::here::Here;
use mace_ast::Expr;
use resolved_service::{Expr as Tree, Node as Resolved};
use std::alloc::Global;
use type_rules::{Callee, TypeError};
use wave_base::{Class, Kind, Span, Txt, box_of, push};

/// A call with its names resolved, and the kind of its result, if it has one.
#[derive(Drop)]
pub struct Called {
    /// The kind of its result; none where it gives nothing.
    pub gives: Option<Kind>,
    /// The call, its names resolved.
    pub tree: Tree,
}

impl Called {
    ghost use Rattle.context_types.specs.inner.Places.{IsJudged};

    fn new(at: Span, gives: Option<Kind>, node: Resolved) -> Called
        ensures gives { result.gives ≡ gives }
        ensures tree { result.tree ≡ record { at = at; node = node } }
    {
        let tree = Tree { at, node };
        Called { gives, tree }
    }

    /// A call as an operand, which is to have a result.
    pub fn worth(self, at: Span) -> Result<Judged, TypeError>
        ensures { Judges (ask (is_some self.gives) (TypeError.Mismatch at) ∷ []) (IsJudged self.gives (tree_of self.tree)) result }
    {
        let Called { gives, tree } = self;
        match gives {
            Some(kind) => Ok(Judged { kind, tree }),
            None => Err(TypeError::Mismatch(at)),
        }
    }
}

impl Here<'_> {
    /// A call of a builtin or of an own method.
    #[cycle(expr)]
    pub fn call(
        &self,
        alloc: Global,
        at: Span,
        name: &Txt,
        args: &[Expr],
    ) -> Result<Called, TypeError>
        ensures { let given = exprs_of (map expr_tree args.now) in
            Judges (rules.call_demands (here_of self.now) at name.now given)
            (IsCalled (rules.call_gives (here_of self.now) name.now) (rules.call_tree at (names.callee_named (here_of self.now) name.now) (rules.resolve_all (here_of self.now) given))) result }
    {
        match self.callee_named(name) {
            None => Err(TypeError::UnknownName(at)),
            Some(Callee::Builtin(row)) => {
                let operators = self.known.operators();
                let (kinds, len) = operators.takes(row);
                let args = self.args(alloc, at, &kinds[..len], args)?;
                let node = Resolved::Op(row, args);
                Ok(Called::new(at, Some(operators.gives(row)), node))
            }
            Some(Callee::Method(method)) => {
                if method as usize >= self.function {
                    return Err(TypeError::CalleeLater(at));
                }
                let signature = self.known.signature(method);
                let args = self.args(alloc, at, signature.params.as_slice(), args)?;
                let node = Resolved::Call(method, args);
                Ok(Called::new(at, signature.result, node))
            }
        }
    }

    /// A call of a method of a child of a class, whose key is resolved already.
    #[cycle(expr)]
    pub fn child_call(
        &self,
        alloc: Global,
        at: Span,
        class: u16,
        name: &Txt,
        args: &[Expr],
        key: Tree,
    ) -> Result<Called, TypeError>
        ensures { let given = exprs_of (map expr_tree args.now) in let method = known.method_named self.now.known.now class name.now in
            Judges (asks_of_child (here_of self.now) at method given)
            (IsCalled (gives_of_child (here_of self.now) method) (child_tree_of (here_of self.now) at class method (tree_of key) given)) result }
    {
        let Some(method) = self.known.method(class, name) else {
            return Err(TypeError::UnknownName(at));
        };
        let signature = self.known.signature(method);
        let args = self.args(alloc, at, signature.params.as_slice(), args)?;
        let key = box_of(alloc, key)?;
        let node = Resolved::Child(Class(class), method, key, args);
        Ok(Called::new(at, signature.result, node))
    }

    /// The class of a name, which is to be a child of the class here.
    pub fn child(&self, at: Span, class: &Txt) -> Result<u16, TypeError>
        ensures { Judges (rules.class_asks (here_of self.now) at class.now) (λ n. known.class_named self.now.known.now class.now ≡ Some n) result }
    {
        let Some(class) = self.known.class(class) else {
            return Err(TypeError::UnknownName(at));
        };
        if self.known.is_child(self.class, class) {
            Ok(class)
        } else {
            Err(TypeError::NotDownward(at))
        }
    }

    /// The arguments of a call, which are to be of these kinds.
    #[cycle(expr)]
    pub fn args(
        &self,
        alloc: Global,
        at: Span,
        kinds: &[Kind],
        args: &[Expr],
    ) -> Result<Vec<Tree>, TypeError>
        ensures { let given = exprs_of (map expr_tree args.now) in
            Judges (ask (length kinds.now == rules.count given) (TypeError.ArgCount at) ∷ rules.args_demands (here_of self.now) kinds.now given)
            (λ trees. rules.resolve_all (here_of self.now) given ≡ trees_of (map tree_of trees.items)) result }
    {
        if kinds.len() != args.len() {
            return Err(TypeError::ArgCount(at));
        }
        let mut trees = Vec::new(alloc);
        'each: for (i, arg) in args.iter().enumerate() {
            let tree = self.expr_of(alloc, kinds[i], arg)?;
            push(&mut trees, tree)?;
        }
        Ok(trees)
    }
}
