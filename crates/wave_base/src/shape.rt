//! The declarations of a service that paths, scripts and texts are read by.

ghost use Rattle.std.specs.Prelude.{◌≡◌, IfOk};

use crate::copied::Copied;
use crate::memory::OutOfMemory;
use crate::path::Class;
use crate::seq::Seq;
use crate::text::Txt;
use crate::value::{Kind, Value};
use std::alloc::Global;

/// A field of a class, with the value that it begins with.
#[derive(PartialEq, Eq, Debug, Drop)]
pub struct FieldInfo {
    /// Its name.
    pub name: Txt,
    /// The kind of its values.
    pub kind: Kind,
    /// What it begins with.
    pub initial: Value,
}

/// A class of contexts. The root's has no parent.
#[derive(PartialEq, Eq, Debug, Drop)]
pub struct ClassInfo {
    /// Its name; the service's for the root.
    pub name: Txt,
    /// The class whose contexts its contexts lie in; none for the root.
    pub parent: Option<Class>,
    /// Its fields, in text order.
    pub fields: Seq<FieldInfo>,
}

/// An event of a service.
#[derive(PartialEq, Eq, Debug, Drop)]
pub struct EventInfo {
    /// Its name.
    pub name: Txt,
    /// The kinds of its parameters, in order.
    pub params: Seq<Kind>,
    /// The kind that it replies with, if any.
    pub reply: Option<Kind>,
}

/// What a service declares: its classes, the root first and the others in text order, and its events.
#[derive(PartialEq, Eq, Debug, Drop)]
pub struct Shape {
    /// The classes, the root first and the others in text order.
    pub classes: Seq<ClassInfo>,
    /// The events, in text order.
    pub events: Seq<EventInfo>,
}

impl FieldInfo {
    /// A field equal to this one.
    pub fn copy(&self, alloc: Global) -> Result<FieldInfo, OutOfMemory>
        ensures { IfOk result (λ f. f ≡ self.now) }
    {
        Ok(FieldInfo {
            name: self.name.copy(alloc)?,
            kind: self.kind,
            initial: self.initial.copy(alloc)?,
        })
    }
}

impl ClassInfo {
    /// A class equal to this one.
    pub fn copy(&self, alloc: Global) -> Result<ClassInfo, OutOfMemory>
        ensures { IfOk result (λ c. c ≡ self.now) }
    {
        Ok(ClassInfo {
            name: self.name.copy(alloc)?,
            parent: self.parent,
            fields: self.fields.copy(alloc)?,
        })
    }
}

impl EventInfo {
    /// An event equal to this one.
    pub fn copy(&self, alloc: Global) -> Result<EventInfo, OutOfMemory>
        ensures { IfOk result (λ e. e ≡ self.now) }
    {
        Ok(EventInfo {
            name: self.name.copy(alloc)?,
            params: self.params.copy(alloc)?,
            reply: self.reply,
        })
    }
}

impl Shape {
    ghost use Rattle.wave_base.specs.Shapes.{class_name, is_child_class, parent_class};

    /// The name of a class, or no bytes where the shape has no such class.
    pub fn class_name(&self, class: Class) -> &[u8]
        ensures { result.now ≡ class_name self.now class.0 }
    {
        match self.classes.as_slice().get(usize::from(class.0)) {
            Some(info) => info.name.bytes(),
            None => &[],
        }
    }

    /// The class that a class stands in; none for the root's, and where the shape has no such class.
    pub fn parent(&self, class: Class) -> Option<Class>
        ensures { result ≡ parent_class self.now class.0 }
    {
        match self.classes.as_slice().get(usize::from(class.0)) {
            Some(info) => info.parent,
            None => None,
        }
    }

    /// Whether a class stands in this class.
    pub fn is_child(&self, class: Class, child: Class) -> bool
        ensures { result ≡ is_child_class self.now class.0 child.0 }
    {
        match self.parent(child) {
            Some(parent) => parent.0 == class.0,
            None => false,
        }
    }

    /// A shape equal to this one.
    pub fn copy(&self, alloc: Global) -> Result<Shape, OutOfMemory>
        ensures { IfOk result (λ s. s ≡ self.now) }
    {
        Ok(Shape {
            classes: self.classes.copy(alloc)?,
            events: self.events.copy(alloc)?,
        })
    }
}

impl Copied for FieldInfo {
    fn copied(&self, alloc: Global) -> Result<FieldInfo, OutOfMemory> {
        self.copy(alloc)
    }
}

impl Copied for ClassInfo {
    fn copied(&self, alloc: Global) -> Result<ClassInfo, OutOfMemory> {
        self.copy(alloc)
    }
}

impl Copied for EventInfo {
    fn copied(&self, alloc: Global) -> Result<EventInfo, OutOfMemory> {
        self.copy(alloc)
    }
}
