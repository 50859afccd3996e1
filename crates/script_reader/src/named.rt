//! A shape in which names are looked up.

ghost use Rattle.std.specs.Prelude.{◌≡◌, ◌<◌, ◌^◌, true, length, position, slice_get, IfOk};
ghost use Rattle.std.specs.List.{list_all};
ghost use Rattle.wave_base.specs.Shapes.{IsShape};
ghost use Rattle.name_table.specs.Numbers.{TellsFirst};
ghost use Rattle.path_text.specs.Paths.{path_of};
ghost use Rattle.path_text.specs.Steps.{is_step};
ghost use Rattle.script_reader.specs.Judged.{has_name, params_in};

use name_table::Names;
use path_text::{ClassNames, Written, resolve_steps};
use std::alloc::Global;
use std::marker::Model;
use wave_base::{EventInfo, Kind, OutOfMemory, Path, Shape};

/// A shape with tables of its names: an event or a child class is found by one look-up.
#[derive(Drop)]
pub(crate) struct NamedShape<'s> {
    /// The numbers of the events.
    events: Names,
    /// The shape, and its child classes.
    classes: ClassNames<'s>,
}

impl<'s> Model for NamedShape<'s> {
    ghost use Rattle.wave_base.specs.declared.shape.Shape.{Shape};
    ghost use Rattle.name_table.specs.Numbers.{TellsFirst};
    ghost use Rattle.script_reader.specs.Judged.{has_name};

    ghost Value = { Shape };

    ghost view = { λ named. named.classes };

    ghost invariant = { λ named. TellsFirst has_name named.classes.events named.events };
}

impl<'s> NamedShape<'s> {
    /// The tables of a shape.
    pub(crate) fn of(alloc: Global, shape: &'s Shape) -> Result<NamedShape<'s>, OutOfMemory>
        requires { IsShape shape.now }
        ensures { IfOk result (λ named. named ≡ shape.now) }
    {
        let events = event_names(alloc, shape.events.as_slice())?;
        let classes = ClassNames::of(alloc, shape)?;
        Ok(NamedShape { events, classes })
    }

    /// The event of that name.
    pub(crate) fn event(&self, name: &[u8]) -> Option<u16>
        ensures { result ≡ position (has_name name.now) self.now.events }
    {
        self.events.first(name)
    }

    /// The kinds of an event's parameters.
    pub(crate) fn params(&self, event: u16) -> &[Kind]
        ensures { result.now ≡ params_in (slice_get self.now.events event) }
    {
        match self.classes.shape().events.get(usize::from(event)) {
            Some(info) => info.params.as_slice(),
            None => &[],
        }
    }

    /// The path with these steps.
    pub(crate) fn path(&self, steps: &[Written]) -> Option<Path>
        requires shape { IsShape self.now }
        requires form { list_all is_step steps.now ≡ true }
        ensures { result ≡ path_of self.now steps.now }
    {
        resolve_steps(&self.classes, steps)
    }
}

// The numbers of events by their names.
fn event_names(alloc: Global, events: &[EventInfo]) -> Result<Names, OutOfMemory>
    requires { length events.now < 2 ^ 16 }
    ensures { IfOk result (TellsFirst has_name events.now) }
{
    let mut names = Names::new(alloc);
    for (i, info) in events.iter().enumerate() {
        names.note(alloc, info.name.bytes(), i as u16)?;
    }
    Ok(names)
}
