//! Declarations, as they are gathered from a service.

ghost use Rattle.std.specs.Prelude.{◌≡◌, ◌+◌, ◌<◌, ◌^◌, ◌∷◌, ◌++◌, [], length, map, OnOk, IfOk};
ghost use Rattle.mace_ast.specs.Counts.{class_count, classes_count, method_count, methods_count, IsFew};
ghost use Rattle.mace_ast.specs.Decls.{method_tree, event_tree, context_tree, contexts_of, service_tree};
ghost use Rattle.type_rules.specs.Known as rules;
ghost use Rattle.type_tables.specs.Indexed.{AreAbove};
ghost use Rattle.type_tables.specs.inner.Gathering.{IsGathered, Gains, HasRoom, known_in};

use crate::params::kinds_of;
use mace_ast::{ContextDecl, EventDecl, Literal, MethodDecl, Name, Service, VarDecl};
use name_table::Names;
use std::alloc::Global;
use type_rules::Signature;
use wave_base::{Class, ClassInfo, EventInfo, FieldInfo, OutOfMemory, Seq, Table, Value, Version};

/// What was read so far of the declarations, with tables of their names.
#[derive(Drop)]
pub struct Gathered {
    /// The version of the language.
    pub version: Version,
    /// The classes, the root's first.
    pub classes: Vec<ClassInfo>,
    /// For each class the numbers of those that it lies in, the root's first.
    pub above: Vec<Seq<u16>>,
    /// The methods, in text order.
    pub methods: Vec<Signature>,
    /// The events, in text order.
    pub events: Vec<EventInfo>,
    /// The numbers of the classes by their names.
    pub class_names: Names,
    /// The numbers of the events by their names.
    pub event_names: Names,
    /// The methods of each class.
    pub method_names: Vec<Names>,
}

impl Gathered {
    /// All that a service declares.
    pub fn of(alloc: Global, service: &Service) -> Result<Gathered, OutOfMemory>
        requires { IsFew (service_tree service.now) }
        ensures { IfOk result (λ g. IsGathered g × (known_in g ≡ rules.known_of (service_tree service.now))) }
    {
        let mut gathered = Gathered::new(alloc, service.version);
        gathered.class(alloc, &[], None, &service.name, &service.vars)?;
        gathered.contexts(alloc, &[0], 0, service.contexts.as_slice())?;
        gathered.methods(alloc, 0, service.methods.as_slice())?;
        gathered.events(alloc, service.events.as_slice())?;
        Ok(gathered)
    }

    fn new(alloc: Global, version: Version) -> Gathered
        ensures gathered { IsGathered result }
        ensures known { known_in result ≡ record { version = version; shape = record { classes = []; events = [] }; above = []; methods = [] } }
    {
        Gathered {
            version,
            classes: Vec::new(alloc),
            above: Vec::new(alloc),
            methods: Vec::new(alloc),
            events: Vec::new(alloc),
            class_names: Names::new(alloc),
            event_names: Names::new(alloc),
            method_names: Vec::new(alloc),
        }
    }

    // The contexts in a class that lies in others.
    #[cycle(context)]
    fn contexts(
        &mut self,
        alloc: Global,
        above: &[u16],
        parent: u16,
        decls: &[ContextDecl],
    ) -> Result<(), OutOfMemory>
        requires gathered { IsGathered self.old }
        requires room { let cs = contexts_of (map context_tree decls.now) in HasRoom self.old (classes_count cs) (methods_count cs) }
        requires above { AreAbove (length self.old.classes.items) above.now }
        ensures { let cs = contexts_of (map context_tree decls.now) in let n = length self.old.classes.items in
            OnOk result (Gains self.old self.new (rules.classes_in above.now parent n cs) (rules.methods_in n cs) []) }
    {
        'contexts: for c in decls {
            self.context(alloc, above, parent, c)?;
        }
        Ok(())
    }

    // A context in a class that lies in others, and all that is inside it.
    #[cycle(context)]
    fn context(
        &mut self,
        alloc: Global,
        above: &[u16],
        parent: u16,
        c: &ContextDecl,
    ) -> Result<(), OutOfMemory>
        requires gathered { IsGathered self.old }
        requires room { HasRoom self.old (class_count (context_tree c.now)) (method_count (context_tree c.now)) }
        requires above { AreAbove (length self.old.classes.items) above.now }
        ensures { let n = length self.old.classes.items in
            OnOk result (Gains self.old self.new (rules.classes_of above.now parent n (context_tree c.now)) (rules.methods_of n (context_tree c.now)) []) }
    {
        let class = number(self.classes.len());
        self.class(alloc, above, Some(Class(parent)), &c.name, &c.vars)?;
        let inner = behind(alloc, above, class)?;
        self.contexts(alloc, inner.as_slice(), class, &c.contexts)?;
        self.methods(alloc, class, c.methods.as_slice())
    }

    // A class in others.
    fn class(
        &mut self,
        alloc: Global,
        above: &[u16],
        parent: Option<Class>,
        name: &Name,
        vars: &Seq<VarDecl>,
    ) -> Result<(), OutOfMemory>
        requires gathered { IsGathered self.old }
        requires room { length self.old.classes.items + 1 < 2 ^ 16 }
        requires above { AreAbove (length self.old.classes.items) above.now }
        ensures { OnOk result (Gains self.old self.new (rules.entry above.now (parent) name.now vars.now ∷ []) [] []) }
    {
        let class = number(self.classes.len());
        let info = class_info(alloc, parent, name, vars)?;
        let above = Vec::from_slice(alloc, above)?;
        self.class_names.note(alloc, name.text.bytes(), class)?;
        self.classes.push(info)?;
        self.above.push(Seq::from_vec(above))?;
        self.method_names.push(Names::new(alloc))?;
        Ok(())
    }

    fn methods(
        &mut self,
        alloc: Global,
        class: u16,
        decls: &[MethodDecl],
    ) -> Result<(), OutOfMemory>
        requires gathered { IsGathered self.old }
        requires there { class < length self.old.classes.items }
        requires room { length self.old.methods.items + length decls.now < 2 ^ 16 }
        ensures { OnOk result (Gains self.old self.new [] (map (rules.signature class) (map method_tree decls.now)) []) }
    {
        for m in decls {
            self.method(alloc, class, m)?;
        }
        Ok(())
    }

    fn method(&mut self, alloc: Global, class: u16, m: &MethodDecl) -> Result<(), OutOfMemory>
        requires gathered { IsGathered self.old }
        requires there { class < length self.old.classes.items }
        requires room { length self.old.methods.items + 1 < 2 ^ 16 }
        ensures { OnOk result (Gains self.old self.new [] (rules.signature class (method_tree m.now) ∷ []) []) }
    {
        let method = number(self.methods.len());
        let signature = signature_of(alloc, class, m)?;
        let names = &mut self.method_names[class as usize];
        names.note(alloc, m.name.text.bytes(), method)?;
        self.methods.push(signature)?;
        Ok(())
    }

    fn events(&mut self, alloc: Global, decls: &[EventDecl]) -> Result<(), OutOfMemory>
        requires gathered { IsGathered self.old }
        requires room { length self.old.events.items + length decls.now < 2 ^ 16 }
        ensures { OnOk result (Gains self.old self.new [] [] (map rules.event_info (map event_tree decls.now))) }
    {
        for e in decls {
            self.event(alloc, e)?;
        }
        Ok(())
    }

    fn event(&mut self, alloc: Global, e: &EventDecl) -> Result<(), OutOfMemory>
        requires gathered { IsGathered self.old }
        requires room { length self.old.events.items + 1 < 2 ^ 16 }
        ensures { OnOk result (Gains self.old self.new [] [] (rules.event_info (event_tree e.now) ∷ [])) }
    {
        let event = number(self.events.len());
        let info = event_info(alloc, e)?;
        self.event_names.note(alloc, e.name.text.bytes(), event)?;
        self.events.push(info)?;
        Ok(())
    }
}

// A number as it is kept.
fn number(n: usize) -> u16
    requires { n < 2 ^ 16 }
    ensures { result ≡ n }
{
    n as u16
}

// The classes that those inside a class lie in.
fn behind(alloc: Global, above: &[u16], class: u16) -> Result<Vec<u16>, OutOfMemory>
    ensures { IfOk result (λ inner. inner.items ≡ above.now ++ class ∷ []) }
{
    let mut inner = Vec::from_slice(alloc, above)?;
    inner.push(class)?;
    Ok(inner)
}

fn class_info(
    alloc: Global,
    parent: Option<Class>,
    name: &Name,
    vars: &Seq<VarDecl>,
) -> Result<ClassInfo, OutOfMemory>
    ensures { IfOk result (λ c. c ≡ record { name = name.now.text; parent = parent; fields = map rules.field_info vars.now }) }
{
    Ok(ClassInfo {
        name: name.text.copy(alloc)?,
        parent,
        fields: fields(alloc, vars.as_slice())?,
    })
}

fn signature_of(alloc: Global, class: u16, m: &MethodDecl) -> Result<Signature, OutOfMemory>
    ensures { IfOk result (λ s. s ≡ rules.signature class (method_tree m.now)) }
{
    Ok(Signature {
        class,
        name: m.name.text.copy(alloc)?,
        params: kinds_of(alloc, &m.params)?,
        result: m.result,
    })
}

fn event_info(alloc: Global, e: &EventDecl) -> Result<EventInfo, OutOfMemory>
    ensures { IfOk result (λ i. i ≡ rules.event_info (event_tree e.now)) }
{
    Ok(EventInfo {
        name: e.name.text.copy(alloc)?,
        params: kinds_of(alloc, &e.params)?,
        reply: e.result,
    })
}

fn fields(alloc: Global, vars: &[VarDecl]) -> Result<Seq<FieldInfo>, OutOfMemory>
    ensures { IfOk result (λ fs. fs ≡ map rules.field_info vars.now) }
{
    let mut fields = Vec::new(alloc);
    for f in vars {
        let field = FieldInfo {
            name: f.name.text.copy(alloc)?,
            kind: f.kind,
            initial: value(alloc, &f.initial.value)?,
        };
        fields.push(field)?;
    }
    Ok(Seq::from_vec(fields))
}

// The value that a field begins with.
fn value(alloc: Global, literal: &Literal) -> Result<Value, OutOfMemory>
    ensures { IfOk result (λ v. v ≡ rules.value_of literal.now) }
{
    match literal {
        Literal::Number(n) => Ok(Value::Int(*n)),
        Literal::Minus(n) => Ok(Value::Int(n.wrapping_neg())),
        Literal::Text(text) => {
            let text = text.copy(alloc)?;
            Ok(Value::Str(text))
        }
        Literal::Bool(b) => Ok(Value::Bool(*b)),
        Literal::Empty => Ok(Value::Map(Table::new(alloc))),
    }
}
