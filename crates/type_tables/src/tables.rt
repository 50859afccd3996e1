//! All that a service declares, found by name.

ghost use Rattle.std.specs.Prelude.{◌≡◌, ◌<◌, ◌^◌, IfOk, IfSome, length};
ghost use Rattle.std.specs.Option.{option_map};
ghost use Rattle.wave_base.specs.Shapes.{declared_fields, is_child_class};
ghost use Rattle.mace_ast.specs.Counts.{IsFew};
ghost use Rattle.mace_ast.specs.Decls.{service_tree};
ghost use Rattle.value_ops.specs.Rows.{first_builtin};
ghost use Rattle.type_rules.specs.Here.{rows_of};
ghost use Rattle.type_rules.specs.Known as known;
ghost use Rattle.type_tables.specs.Indexed.{AreAbove};
ghost use Rattle.type_tables.specs.Rows.{IsRow};
ghost use Rattle.type_tables.specs.inner.Gathering.{IsGathered, known_in};

use crate::gather::Gathered;
use crate::operators::Operators;
use mace_ast::Service;
use name_table::Names;
use std::alloc::Global;
use std::marker::Model;
use type_rules::{Known, Signature};
use wave_base::{Class, FieldInfo, Kind, OutOfMemory, Seq, Shape, Txt, Version};

/// What a service declares, with tables by which names are found.
#[derive(Drop)]
pub struct Tables {
    known: Known,
    operators: Operators,
    classes: Names,
    events: Names,
    /// The methods of each class.
    methods: Vec<Names>,
}

impl Model for Tables {
    ghost use Rattle.type_rules.specs.declared.known.Known.{Known};
    ghost use Rattle.type_tables.specs.Indexed.{IsIndexed};

    ghost Value = { Known };

    ghost view = { λ t. t.known };

    ghost invariant = { λ t. IsIndexed t.known t.classes t.events t.methods.items };
}

impl Tables {
    /// The tables of all that a service declares.
    pub fn of(alloc: Global, service: &Service) -> Result<Tables, OutOfMemory>
        requires { IsFew (service_tree service.now) }
        ensures known { IfOk result (λ t. t ≡ known.known_of (service_tree service.now)) }
        ensures few_classes { IfOk result (λ t. length t.shape.classes < 2 ^ 16) }
        ensures few_events { IfOk result (λ t. length t.shape.events < 2 ^ 16) }
    {
        let gathered = Gathered::of(alloc, service)?;
        Ok(Tables::new(gathered))
    }

    fn new(gathered: Gathered) -> Tables
        requires { IsGathered gathered }
        ensures { result ≡ known_in gathered }
    {
        let Gathered {
            version,
            classes,
            above,
            methods,
            events,
            class_names,
            event_names,
            method_names,
        } = gathered;
        let shape = Shape {
            classes: Seq::from_vec(classes),
            events: Seq::from_vec(events),
        };
        let known = Known {
            version,
            shape,
            above: Seq::from_vec(above),
            methods: Seq::from_vec(methods),
        };
        Tables {
            known,
            operators: Operators::new(),
            classes: class_names,
            events: event_names,
            methods: method_names,
        }
    }

    /// The shape of the service.
    pub fn into_shape(self) -> Shape
        ensures { result ≡ self.shape }
    {
        let Tables {
            known,
            operators: _,
            classes: _,
            events: _,
            methods: _,
        } = self;
        let Known {
            version: _,
            shape,
            above: _,
            methods: _,
        } = known;
        shape
    }

    /// The operators.
    pub fn operators(&self) -> &Operators {
        &self.operators
    }

    /// The row of the builtin of a name.
    pub fn builtin(&self, name: &Txt) -> Option<u16>
        ensures found { result ≡ first_builtin (rows_of self.now) name.now }
        ensures within { IfSome result IsRow }
    {
        match self.known.version {
            Version::First => self.operators.builtin(name.bytes()),
            Version::Second => self.operators.builtin_2(name.bytes()),
        }
    }

    /// The number of the class of a name.
    pub fn class(&self, name: &Txt) -> Option<u16>
        ensures { result ≡ known.class_named self.now name.now }
    {
        self.classes.first(name.bytes())
    }

    /// The number of the event of a name.
    pub fn event(&self, name: &Txt) -> Option<u16>
        ensures { result ≡ known.event_named self.now name.now }
    {
        self.events.first(name.bytes())
    }

    /// The number of a class's method of a name, among all methods.
    pub fn method(&self, class: u16, name: &Txt) -> Option<u16>
        ensures found { result ≡ known.method_named self.now class name.now }
        ensures within { IfSome result (λ m. m < length self.now.methods) }
    {
        match self.methods.get(class as usize) {
            None => None,
            Some(methods) => methods.first(name.bytes()),
        }
    }

    /// The number of a class's field of a name, and its kind. A class may have any number of fields before it is judged.
    pub fn field(&self, class: u16, name: &Txt) -> Option<(usize, Kind)>
        ensures found { result ≡ option_map (λ f. (f, known.field_kind self.now class f)) (known.field_named self.now class name.now) }
        ensures within { IfSome result (λ f. f.0 < length (declared_fields self.now.shape class)) }
    {
        for (i, field) in self.fields(class).iter().enumerate() {
            if field.name == *name {
                return Some((i, field.kind));
            }
        }
        None
    }

    fn fields(&self, class: u16) -> &[FieldInfo]
        ensures { result.now ≡ declared_fields self.now.shape class }
    {
        match self.known.shape.classes.get(class as usize) {
            None => &[],
            Some(class) => class.fields.as_slice(),
        }
    }

    /// The level of a class above another, the root's being 0. A class that lies in another comes behind it.
    pub fn level(&self, class: u16, ancestor: u16) -> Option<u16>
        ensures found { result ≡ known.level_of self.now class ancestor }
        ensures behind { IfSome result (λ l. ancestor < class) }
    {
        for (i, above) in self.above(class).iter().enumerate() {
            if *above == ancestor {
                return Some(i as u16);
            }
        }
        None
    }

    /// The classes that a class lies in, the root first.
    pub fn above(&self, class: u16) -> &[u16]
        ensures above { result.now ≡ known.above_of self.now class }
        ensures earlier { AreAbove class result.now }
    {
        match self.known.above.get(class as usize) {
            None => &[],
            Some(above) => above.as_slice(),
        }
    }

    /// Whether a class is a child class of another.
    pub fn is_child(&self, class: u16, child: u16) -> bool
        ensures { result ≡ is_child_class self.now.shape class child }
    {
        self.known.shape.is_child(Class(class), Class(child))
    }

    /// The number of methods.
    pub fn method_count(&self) -> usize
        ensures { result ≡ length self.now.methods }
    {
        self.known.methods.len()
    }

    /// What a call of a method has to know.
    pub fn signature(&self, method: u16) -> &Signature
        requires { method < length self.now.methods }
        ensures { result.now ≡ known.signature_at self.now method }
    {
        &self.known.methods.as_slice()[method as usize]
    }

    /// The kinds of an event's parameters.
    pub fn event_params(&self, event: u16) -> &[Kind]
        ensures { result.now ≡ known.event_params self.now event }
    {
        match self.known.shape.events.get(event as usize) {
            None => &[],
            Some(event) => event.params.as_slice(),
        }
    }
}
