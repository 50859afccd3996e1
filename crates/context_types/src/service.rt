//! A whole service: what is asked of it, in the order of its text.

ghost use Rattle.std.specs.Prelude.{◌≡◌, ◌+◌, ◌<◌, ◌^◌, ◌++◌, length, map, IfOk, IfErr};
ghost use Rattle.wave_base.specs.Shapes.{IsShape};
ghost use Rattle.wave_base.specs.Values as values;
ghost use Rattle.mace_ast.specs.Counts.{class_count, classes_count, IsFew};
ghost use Rattle.mace_ast.specs.Decls.{method_tree, event_tree, context_tree, contexts_of, service_tree};
ghost use Rattle.resolved_service.specs.Fits.{FitsService};
ghost use Rattle.type_laws.specs.Differ.{NamesDiffer};
ghost use Rattle.type_rules.specs.Demands.{Judges, Fails};
ghost use Rattle.type_rules.specs.Known as known;
ghost use Rattle.type_rules.specs.Functions as functions;
ghost use Rattle.type_rules.specs.Services as rules;
ghost use Rattle.type_rules.specs.Views.{method_view, event_view, resolved_view};
ghost use Rattle.context_types.specs.inner.Judged.{FewFields, AllFew, StandsAt, StandAt};

use crate::functions::{event, method, none_before};
use mace_ast::{ContextDecl, EventDecl, Literal, MethodDecl, Name, Service, VarDecl};
use resolved_service::{Event, Method, Resolved};
use std::alloc::Global;
use type_rules::{TypeError, Which};
use type_tables::{Tables, same_kind};
use wave_base::{CLASS_DEPTH, FIELDS, Kind, Seq, Shape, Txt, push};

/// A service that is typed, with what it declares, and with its names resolved.
#[derive(Debug, Drop)]
pub struct Typed {
    /// The syntax tree as it was read.
    pub service: Service,
    /// What it declares.
    pub shape: Shape,
    /// Its methods and events, with each name resolved.
    pub resolved: Resolved,
}

/// Checks a service, and resolves its names: either all that is asked of it holds, or the first that doesn't is told.
/// It has few enough declarations that numbers of 16 bits name them.
pub fn check(alloc: Global, service: Service) -> Result<Typed, TypeError>
    requires few { IsFew (service_tree service) }
    ensures typed { IfOk result (λ t. rules.IsTyped (service_tree service)) }
    ensures service { IfOk result (λ t. t.service ≡ service) }
    ensures shape { IfOk result (λ t. t.shape ≡ known.shape_of (service_tree service)) }
    ensures resolved { IfOk result (λ t. resolved_view t.resolved ≡ rules.resolve_service (service_tree service)) }
    ensures well_formed { IfOk result (λ t. IsShape t.shape) }
    ensures names { IfOk result (λ t. NamesDiffer t.shape) }
    ensures fits { IfOk result (λ t. FitsService t.shape t.resolved) }
    ensures few { IfOk result (λ t. length t.resolved.methods + length t.resolved.events < 2 ^ 16) }
    ensures err { IfErr result (λ e. Fails (rules.service_demands (service_tree service)) e) }
{
    let tables = Tables::of(alloc, &service)?;
    let resolved = all(alloc, &tables, &service)?;
    let shape = tables.into_shape();
    Ok(Typed {
        service,
        shape,
        resolved,
    })
}

// All of a service, in the order of its text.
fn all(alloc: Global, tables: &Tables, service: &Service) -> Result<Resolved, TypeError>
    requires few { IsFew (service_tree service.now) }
    requires known { tables.now ≡ known.known_of (service_tree service.now) }
    ensures { Judges (rules.demands_with tables.now (service_tree service.now)) (λ made. rules.resolve_with tables.now (service_tree service.now) ≡ resolved_view made) result }
{
    let mut made = Vec::new(alloc);
    class_name(tables, 0, &service.name)?;
    fields(tables, 0, service.vars.as_slice())?;
    contexts(alloc, tables, 1, service.contexts.as_slice(), &mut made)?;
    methods(alloc, tables, 0, service.methods.as_slice(), &mut made)?;
    let events = events(alloc, tables, service.events.as_slice())?;
    Ok(Resolved {
        methods: Seq::from_vec(made),
        events: Seq::from_vec(events),
    })
}

// The contexts in a class, the first of which has a number; the number behind them is told.
#[cycle(context)]
fn contexts(
    alloc: Global,
    tables: &Tables,
    first: u16,
    decls: &[ContextDecl],
    made: &mut Vec<Method>,
) -> Result<u16, TypeError>
    requires room { first + classes_count (contexts_of (map context_tree decls.now)) < 2 ^ 16 }
    requires there { StandAt tables.now.shape first (contexts_of (map context_tree decls.now)) }
    requires few { FewFields tables.now first }
    ensures { let cs = contexts_of (map context_tree decls.now) in
        Judges (rules.contexts_demands tables.now first (length made.old.items) cs)
        (λ next. (next ≡ first + classes_count cs) × (map method_view made.new.items ≡ map method_view made.old.items ++ rules.resolve_contexts tables.now first (length made.old.items) cs)) result }
{
    let mut next = first;
    'each: for c in decls {
        next = context(alloc, tables, next, c, made)?;
    }
    Ok(next)
}

// A context whose class has a number; the number behind it and all that is inside it is told.
#[cycle(context)]
fn context(
    alloc: Global,
    tables: &Tables,
    class: u16,
    c: &ContextDecl,
    made: &mut Vec<Method>,
) -> Result<u16, TypeError>
    requires room { class + class_count (context_tree c.now) < 2 ^ 16 }
    requires there { StandsAt tables.now.shape class (context_tree c.now) }
    requires few { FewFields tables.now class }
    ensures { Judges (rules.context_demands tables.now class (length made.old.items) (context_tree c.now))
        (λ next. (next ≡ class + class_count (context_tree c.now)) × (map method_view made.new.items ≡ map method_view made.old.items ++ rules.resolve_context tables.now class (length made.old.items) (context_tree c.now))) result }
{
    class_name(tables, class, &c.name)?;
    fields(tables, class, c.vars.as_slice())?;
    let next = contexts(alloc, tables, class + 1, &c.contexts, made)?;
    methods(alloc, tables, class, c.methods.as_slice(), made)?;
    Ok(next)
}

// A class with a number.
fn class_name(tables: &Tables, class: u16, name: &Name) -> Result<(), TypeError>
    ensures { Judges (rules.name_asks tables.now class name.now) (λ _. Unit {0}) result }
{
    if !none_before(class as usize, tables.class(&name.text)) {
        return Err(TypeError::Duplicate(name.at));
    }
    if tables.above(class).len() > CLASS_DEPTH {
        return Err(TypeError::Limit(Which::Nesting, name.at));
    }
    Ok(())
}

fn fields(tables: &Tables, class: u16, vars: &[VarDecl]) -> Result<(), TypeError>
    ensures { Judges (rules.fields_demands tables.now class 0 vars.now) (λ _. Unit {0}) result }
{
    for (i, f) in vars.iter().enumerate() {
        field(tables, class, i, f)?;
    }
    Ok(())
}

// A class's field with a number.
fn field(tables: &Tables, class: u16, number: usize, f: &VarDecl) -> Result<(), TypeError>
    ensures { Judges (rules.field_asks tables.now class number f.now) (λ _. Unit {0}) result }
{
    if !is_new_field(tables, class, number, &f.name.text) {
        return Err(TypeError::Duplicate(f.name.at));
    }
    if number >= FIELDS {
        return Err(TypeError::Limit(Which::Fields, f.name.at));
    }
    if !same_kind(literal_kind(&f.initial.value), f.kind) {
        return Err(TypeError::Mismatch(f.initial.at));
    }
    Ok(())
}

// Whether a class's field with a number may have a name: no earlier one has it.
fn is_new_field(tables: &Tables, class: u16, number: usize, name: &Txt) -> bool
    ensures { result ≡ known.none_before number (known.field_named tables.now class name.now) }
{
    match tables.field(class, name) {
        None => true,
        Some((first, _)) => number <= first,
    }
}

fn literal_kind(literal: &Literal) -> Kind
    ensures { result ≡ values.kind_of (known.value_of literal.now) }
{
    match literal {
        Literal::Number(_) | Literal::Minus(_) => Kind::Int,
        Literal::Text(_) => Kind::Text,
        Literal::Bool(_) => Kind::Bool,
        Literal::Empty => Kind::Map,
    }
}

// A class's methods, which are numbered behind those that are made.
fn methods(
    alloc: Global,
    tables: &Tables,
    class: u16,
    decls: &[MethodDecl],
    made: &mut Vec<Method>,
) -> Result<(), TypeError>
    requires { FewFields tables.now (class + 1) }
    ensures { let ms = map method_tree decls.now in
        Judges (rules.methods_demands tables.now class (length made.old.items) ms)
        (λ _. map method_view made.new.items ≡ map method_view made.old.items ++ rules.resolve_methods tables.now class (length made.old.items) ms) result }
{
    for m in decls {
        let m = method(alloc, tables, class, made.len(), m)?;
        push(made, m)?;
    }
    Ok(())
}

fn events(alloc: Global, tables: &Tables, decls: &[EventDecl]) -> Result<Vec<Event>, TypeError>
    requires { AllFew tables.now }
    ensures { let es = map event_tree decls.now in
        Judges (rules.events_demands tables.now 0 es) (λ made. map (functions.resolve_event tables.now) es ≡ map event_view made.items) result }
{
    let mut made = Vec::new(alloc);
    for (i, e) in decls.iter().enumerate() {
        let e = event(alloc, tables, i, e)?;
        push(&mut made, e)?;
    }
    Ok(made)
}
