//! Where a run begins.

ghost use Rattle.std.specs.Prelude.{◌≡◌, ◌<◌, length, IfOk};
ghost use Rattle.wave_base.specs.Starts.{first_start};

use crate::finished::Place;
use crate::memory::OutOfMemory;
use crate::numbers::{Host, Ticket};
use crate::path::{Class, Path};
use crate::record::Record;
use crate::seq::Seq;
use crate::shape::Shape;
use crate::shot::Shot;
use std::alloc::Global;

/// What a run begins with: a tree with a host for each of its contexts, and the next ticket.
#[derive(PartialEq, Eq, Debug, Drop)]
pub struct Start {
    /// The contexts with their fields, in path order.
    pub shots: Seq<Shot>,
    /// Their hosts, in path order.
    pub places: Seq<Place>,
    /// The ticket that is given first.
    pub next: Ticket,
}

impl Start {
    /// The root alone with its initial values, on host 0, and ticket 1.
    pub fn first(alloc: Global, shape: &Shape) -> Result<Start, OutOfMemory>
        requires { 0 < length shape.now.classes }
        ensures { IfOk result (λ s. s ≡ first_start shape.now) }
    {
        let Record {
            fields,
            children: _,
        } = Record::initial(alloc, shape, Class(0))?;
        let path = Path::root();
        let host = Host(0);
        Ok(Start {
            shots: Seq::from_vec(vec![in alloc; Shot { path, fields }]?),
            places: Seq::from_vec(vec![in alloc; Place { path, host }]?),
            next: Ticket(1),
        })
    }
}
