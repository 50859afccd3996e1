//! Numbers that are not to be mixed up: tickets, hosts, workers.

use crate::copied::Copied;
use crate::memory::OutOfMemory;
use std::alloc::Global;

/// The number of an event in the order of the whole run, from 1.
#[derive(Clone, Copy, Debug, PartialEq, Eq, PartialOrd, Ord)]
pub struct Ticket(pub u32);

/// A logical host, from 0.
#[derive(Clone, Copy, Debug, PartialEq, Eq, PartialOrd, Ord)]
pub struct Host(pub u8);

/// A worker, from 0.
#[derive(Clone, Copy, Debug, PartialEq, Eq, PartialOrd, Ord)]
pub struct Worker(pub u8);

impl Copied for Ticket {
    fn copied(&self, _alloc: Global) -> Result<Ticket, OutOfMemory> {
        Ok(*self)
    }
}
