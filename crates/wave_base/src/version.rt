//! The versions of the language.

/// A version of the language.
#[derive(Clone, Copy, Debug, PartialEq, Eq)]
pub enum Version {
    /// The first, of a service without a number.
    First,
    /// The second, of a service with the number 2.
    Second,
}
