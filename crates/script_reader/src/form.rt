//! The forms of script lines, before a shape is asked.

use crate::bytes::Bytes;
use crate::quote::Quote;
use path_text::Written;
use wave_base::Seq;

/// An argument as it is written.
#[derive(Debug, Drop)]
pub enum Literal<'t> {
    /// An optional `-` and digits.
    Number(Bytes<'t>),
    /// `true` or `false`.
    Truth(bool),
    /// A text in quotes.
    Text(Quote),
}

/// A script line as it is written.
#[derive(Debug, Drop)]
pub enum Form<'t> {
    /// The digits of the number of hosts.
    Hosts(Bytes<'t>),
    /// The name of an event, and its arguments.
    Request(Bytes<'t>, Seq<Literal<'t>>),
    /// The steps of a path, and the digits of a host.
    Move(Seq<Written>, Bytes<'t>),
    /// A list of all contexts.
    Snapshot,
    /// The end of a batch.
    Settle,
}
