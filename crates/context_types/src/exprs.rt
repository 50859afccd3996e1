//! Expressions: their kinds, and their names resolved.

ghost use Rattle.std.specs.Prelude.{◌≡◌, ◌&&◌, [], ◌∷◌, Some, is_some, IfOk};
ghost use Rattle.std.specs.Option.{option_map};
ghost use Rattle.mace_ast.specs.Exprs as syntax;
ghost use Rattle.mace_ast.specs.Exprs.{expr_tree};
ghost use Rattle.resolved_service.specs.View.{tree_of};
ghost use Rattle.value_ops.specs.Operators.{gives_of};
ghost use Rattle.wave_base.specs.declared.value.Kind.{Kind};
ghost use Rattle.type_rules.specs.declared.error.TypeError.{TypeError};
ghost use Rattle.type_rules.specs.Demands.{Judges, ask};
ghost use Rattle.type_rules.specs.Kinds.{has_kind, row_of_one, row_of_two, rows_of_index, rows_before};
ghost use Rattle.type_rules.specs.Exprs as rules;
ghost use Rattle.type_rules.specs.Exprs.{row_tree};
ghost use Rattle.context_types.specs.inner.Places.{here_of, IsJudged};

use crate::here::Here;
use mace_ast::{BinaryOp, Expr, Node, UnaryOp};
use resolved_service::{Expr as Tree, Node as Resolved};
use std::alloc::Global;
use type_rules::{TypeError, Variable};
use type_tables::{rows_before, rows_of_index, rows_of_sign, same_kind};
use wave_base::{Kind, OutOfMemory, Span, Table, Txt, Value, box_of, push};

/// An expression with its names resolved, and its kind.
#[derive(Drop)]
pub struct Judged {
    /// The kind of its value.
    pub kind: Kind,
    /// The expression, its names resolved.
    pub tree: Tree,
}

impl Judged {
    fn new(at: Span, kind: Kind, node: Resolved) -> Judged
        ensures kind { result.kind ≡ kind }
        ensures tree { result.tree ≡ record { at = at; node = node } }
    {
        let tree = Tree { at, node };
        Judged { kind, tree }
    }
}

impl Here<'_> {
    /// An expression.
    #[cycle(expr)]
    pub fn expr(&self, alloc: Global, e: &Expr) -> Result<Judged, TypeError>
        ensures { Judges (rules.demands (here_of self.now) (expr_tree e.now))
            (IsJudged (rules.kind_of (here_of self.now) (expr_tree e.now)) (rules.resolve (here_of self.now) (expr_tree e.now))) result }
    {
        let at = e.at;
        match &e.node {
            Node::Number(n) => Ok(Judged::new(at, Kind::Int, Resolved::Const(Value::Int(*n)))),
            Node::Text(text) => {
                let text = text.copy(alloc)?;
                Ok(Judged::new(at, Kind::Text, Resolved::Const(Value::Str(text))))
            }
            Node::Bool(b) => Ok(Judged::new(at, Kind::Bool, Resolved::Const(Value::Bool(*b)))),
            Node::Empty => {
                let table = Table::new(alloc);
                Ok(Judged::new(at, Kind::Map, Resolved::Const(Value::Map(table))))
            }
            Node::Read(name) => self.read(at, name),
            Node::Above(class, name) => self.above(at, class, name),
            Node::Index(name, key) => {
                let map = self.read(at, name)?;
                let key = self.expr(alloc, key)?;
                self.index(alloc, at, map, key)
            }
            Node::AboveIndex(class, name, key) => {
                let map = self.above(at, class, name)?;
                let key = self.expr(alloc, key)?;
                self.index(alloc, at, map, key)
            }
            Node::Call(name, args) => {
                let called = self.call(alloc, at, name, args)?;
                called.worth(at)
            }
            Node::ChildCall(class, key, name, args) => {
                let class = self.child(at, class)?;
                let key = self.expr_of(alloc, Kind::Int, key)?;
                let called = self.child_call(alloc, at, class, name, args, key)?;
                called.worth(at)
            }
            Node::Unary(op, operand) => {
                let operand = self.expr(alloc, operand)?;
                self.unary(alloc, at, *op, operand)
            }
            Node::Binary(op, left, right) => {
                let left = self.expr(alloc, left)?;
                let right = self.expr(alloc, right)?;
                self.binary(alloc, at, *op, left, right)
            }
        }
    }

    /// An expression that is to have a kind.
    #[cycle(expr)]
    pub fn expr_of(&self, alloc: Global, kind: Kind, e: &Expr) -> Result<Tree, TypeError>
        ensures { Judges (rules.demands_as (here_of self.now) kind (expr_tree e.now))
            (λ t. rules.resolve (here_of self.now) (expr_tree e.now) ≡ tree_of t) result }
    {
        let judged = self.expr(alloc, e)?;
        if same_kind(judged.kind, kind) {
            Ok(judged.tree)
        } else {
            Err(TypeError::Mismatch(e.at))
        }
    }

    // `x`
    fn read(&self, at: Span, name: &Txt) -> Result<Judged, TypeError>
        ensures { Judges (rules.demands (here_of self.now) (syntax.Read at name.now))
            (IsJudged (rules.kind_of (here_of self.now) (syntax.Read at name.now)) (rules.resolve (here_of self.now) (syntax.Read at name.now))) result }
    {
        match self.variable(name) {
            Some(Variable::Local(slot, kind)) => Ok(Judged::new(at, kind, Resolved::Local(slot))),
            Some(Variable::Field(field, kind)) => Ok(Judged::new(at, kind, Resolved::Field(field))),
            None => Err(TypeError::UnknownName(at)),
        }
    }

    // `C.f`
    fn above(&self, at: Span, class: &Txt, name: &Txt) -> Result<Judged, TypeError>
        ensures { Judges (rules.demands (here_of self.now) (syntax.Above at class.now name.now))
            (IsJudged (rules.kind_of (here_of self.now) (syntax.Above at class.now name.now)) (rules.resolve (here_of self.now) (syntax.Above at class.now name.now))) result }
    {
        let Some(class) = self.known.class(class) else {
            return Err(TypeError::UnknownName(at));
        };
        let Some(level) = self.known.level(self.class, class) else {
            return Err(TypeError::NotDownward(at));
        };
        let Some((field, kind)) = self.known.field(class, name) else {
            return Err(TypeError::UnknownName(at));
        };
        Ok(Judged::new(at, kind, Resolved::Above(level, field as u16)))
    }

    // `m[k]`
    fn index(&self, alloc: Global, at: Span, map: Judged, key: Judged) -> Result<Judged, TypeError>
        ensures { let row = row_of_two rows_of_index (Some map.kind) (Some key.kind) in let kind = option_map gives_of row in
            Judges (ask (is_some kind) (TypeError.Mismatch at) ∷ []) (IsJudged kind (row_tree at row (rules.two (tree_of map.tree) (tree_of key.tree)))) result }
    {
        let operators = self.known.operators();
        let Some(row) = operators.first(rows_of_index(), map.kind, Some(key.kind)) else {
            return Err(TypeError::Mismatch(at));
        };
        let args = pair(alloc, map.tree, key.tree)?;
        Ok(Judged::new(at, operators.gives(row), Resolved::Op(row, args)))
    }

    fn unary(
        &self,
        alloc: Global,
        at: Span,
        op: UnaryOp,
        operand: Judged,
    ) -> Result<Judged, TypeError>
        ensures { let row = row_of_one (rows_before op) (Some operand.kind) in let kind = option_map gives_of row in
            Judges (ask (is_some kind) (TypeError.Mismatch at) ∷ []) (IsJudged kind (row_tree at row (rules.one (tree_of operand.tree)))) result }
    {
        let operators = self.known.operators();
        let Some(row) = operators.first(rows_before(op), operand.kind, None) else {
            return Err(TypeError::Mismatch(at));
        };
        let mut args = Vec::new(alloc);
        push(&mut args, operand.tree)?;
        Ok(Judged::new(at, operators.gives(row), Resolved::Op(row, args)))
    }

    fn binary(
        &self,
        alloc: Global,
        at: Span,
        op: BinaryOp,
        left: Judged,
        right: Judged,
    ) -> Result<Judged, TypeError>
        ensures { let kind = rules.binary_kind op (Some left.kind) (Some right.kind) in
            Judges (ask (is_some kind) (TypeError.Mismatch at) ∷ []) (IsJudged kind (rules.binary_tree at op (Some left.kind) (Some right.kind) (tree_of left.tree) (tree_of right.tree))) result }
    {
        match op {
            BinaryOp::And => {
                let (left, right) = truths(alloc, at, left, right)?;
                Ok(Judged::new(at, Kind::Bool, Resolved::And(left, right)))
            }
            BinaryOp::Or => {
                let (left, right) = truths(alloc, at, left, right)?;
                Ok(Judged::new(at, Kind::Bool, Resolved::Or(left, right)))
            }
            _ => {
                let operators = self.known.operators();
                let Some(row) = operators.first(rows_of_sign(op), left.kind, Some(right.kind))
                else {
                    return Err(TypeError::Mismatch(at));
                };
                let args = pair(alloc, left.tree, right.tree)?;
                Ok(Judged::new(at, operators.gives(row), Resolved::Op(row, args)))
            }
        }
    }
}

// Two trees as a list.
fn pair(alloc: Global, a: Tree, b: Tree) -> Result<Vec<Tree>, OutOfMemory>
    ensures { IfOk result (λ trees. trees.items ≡ a ∷ b ∷ []) }
{
    let mut trees = Vec::new(alloc);
    trees.push(a)?;
    trees.push(b)?;
    Ok(trees)
}

// The operands of `&&` and `||`.
fn truths(
    alloc: Global,
    at: Span,
    left: Judged,
    right: Judged,
) -> Result<(Box<Tree>, Box<Tree>), TypeError>
    ensures { Judges (ask (has_kind (Some left.kind) Kind.Bool && has_kind (Some right.kind) Kind.Bool) (TypeError.Mismatch at) ∷ [])
        (λ p. (p.0.value ≡ left.tree) × (p.1.value ≡ right.tree)) result }
{
    if left.kind != Kind::Bool || right.kind != Kind::Bool {
        return Err(TypeError::Mismatch(at));
    }
    let left = box_of(alloc, left.tree)?;
    let right = box_of(alloc, right.tree)?;
    Ok((left, right))
}
