//! Classes below a class, by their names.

ghost use Rattle.std.specs.Prelude.{◌≡◌, ◌<◌, ◌^◌, length, IfOk, IfSome, OnOk};
ghost use Rattle.wave_base.specs.Shapes.{IsShape};
ghost use Rattle.name_table.specs.Numbers.{TellFirst};
ghost use Rattle.path_text.specs.Paths.{is_child, child_class};
ghost use Rattle.path_text.specs.inner.Children.{AreBelow, with_child};

use name_table::Names;
use std::alloc::Global;
use std::marker::Model;
use wave_base::{Class, ClassInfo, OutOfMemory, Shape};

/// Where the child classes of a class are found by their names.
pub trait ChildClasses {
    ghost use Rattle.std.specs.Prelude.{◌≡◌};
    ghost use Rattle.wave_base.specs.declared.shape.Shape.{Shape};
    ghost use Rattle.path_text.specs.Paths.{child_class};

    /// The shape that has the classes.
    ghost shape: { Self → Shape };

    /// The class of that name that stands in a class.
    fn child_class(&self, class: Class, name: &[u8]) -> Option<usize>
        ensures { result ≡ child_class (shape self.now) class.0 name.now };
}

fn is_child(class: Class, name: &[u8], info: &ClassInfo) -> bool
    ensures { result ≡ is_child class.0 name.now info.now }
{
    match info.parent {
        Some(parent) => parent == class && info.name.bytes() == name,
        None => false,
    }
}

/// A shape alone goes through its classes.
impl ChildClasses for Shape {
    ghost shape = { λ s. s };

    fn child_class(&self, class: Class, name: &[u8]) -> Option<usize> {
        let classes = self.classes.as_slice();
        classes.iter().position(|info| is_child(class, name, info))
    }
}

/// A shape with tables of its classes by name: a child class is found by one look-up.
#[derive(Drop)]
pub struct ClassNames<'s> {
    shape: &'s Shape,
    /// The numbers of each class's child classes.
    children: Vec<Names>,
}

impl<'s> Model for ClassNames<'s> {
    ghost use Rattle.wave_base.specs.declared.shape.Shape.{Shape};
    ghost use Rattle.name_table.specs.Numbers.{TellFirst};
    ghost use Rattle.path_text.specs.Paths.{is_child};

    ghost Value = { Shape };

    ghost view = { λ names. names.shape.now };

    ghost invariant = { λ names. TellFirst is_child names.shape.now.classes names.children.items };
}

impl<'s> ClassNames<'s> {
    /// The tables of a shape.
    pub fn of(alloc: Global, shape: &'s Shape) -> Result<ClassNames<'s>, OutOfMemory>
        requires { IsShape shape.now }
        ensures { IfOk result (λ names. names ≡ shape.now) }
    {
        let children = children_of(alloc, shape.classes.as_slice())?;
        Ok(ClassNames { shape, children })
    }

    /// The shape.
    pub fn shape(&self) -> &'s Shape
        ensures { result.now ≡ self.now }
    {
        self.shape
    }
}

impl<'s> ChildClasses for ClassNames<'s> {
    ghost shape = { λ s. s };

    fn child_class(&self, class: Class, name: &[u8]) -> Option<usize> {
        let names = self.children.get(class.0 as usize)?;
        let child = names.first(name)?;
        Some(child as usize)
    }
}

// The child classes of each of these classes.
fn children_of(alloc: Global, classes: &[ClassInfo]) -> Result<Vec<Names>, OutOfMemory>
    requires below { AreBelow classes.now }
    requires few { length classes.now < 2 ^ 16 }
    ensures { IfOk result (λ children. TellFirst is_child classes.now children.items) }
{
    let mut children = Vec::new(alloc);
    for (i, info) in classes.iter().enumerate() {
        children.push(Names::new(alloc))?;
        note_child(alloc, &mut children, info, i as u16)?;
    }
    Ok(children)
}

// Notes the number of a class for its parent.
fn note_child(
    alloc: Global,
    children: &mut Vec<Names>,
    info: &ClassInfo,
    number: u16,
) -> Result<(), OutOfMemory>
    requires { IfSome info.now.parent (λ p. p.0 < length children.old.items) }
    ensures { OnOk result (children.new.items ≡ with_child children.old.items info.now number) }
{
    let Some(parent) = info.parent else {
        return Ok(());
    };
    let names = &mut children[parent.0 as usize];
    names.note(alloc, info.name.bytes(), number)?;
    Ok(())
}
