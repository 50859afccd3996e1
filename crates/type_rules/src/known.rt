//! What the rules of types ask about what a service declares.

use wave_base::{Kind, Seq, Shape, Txt, Version};

/// What a call of a method has to know: the class it belongs to, and the kinds that it takes and gives.
#[derive(Debug, Drop, PartialEq, Eq)]
pub struct Signature {
    /// The number of the class that it belongs to.
    pub class: u16,
    /// Its name.
    pub name: Txt,
    /// The kinds of its parameters, in order.
    pub params: Seq<Kind>,
    /// The kind that it returns, if any.
    pub result: Option<Kind>,
}

/// What a service declares, each list in text order: the classes and events of its shape; for each class those that
/// it lies in, the root first; and the methods. And the version of the language that it is written in.
#[derive(Debug, Drop, PartialEq, Eq)]
pub struct Known {
    /// The version of the language.
    pub version: Version,
    /// The classes and the events.
    pub shape: Shape,
    /// For each class the numbers of those that it lies in, the root's first.
    pub above: Seq<Seq<u16>>,
    /// The methods, by which calls name them.
    pub methods: Seq<Signature>,
}
