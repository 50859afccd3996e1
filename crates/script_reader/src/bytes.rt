//! Bytes of a line, where they stand.

ghost use Rattle.std.specs.Prelude.{◌≡◌};

use std::marker::Model;

/// Bytes of a line, which are looked at where they stand.
#[derive(Debug, Drop)]
pub struct Bytes<'t> {
    bytes: &'t [u8],
}

impl<'t> Model for Bytes<'t> {
    ghost use Rattle.std.specs.Prelude.{List, ℕ};

    ghost Value = { List ℕ };

    ghost view = { λ b. b.bytes.now };
}

impl<'t> Bytes<'t> {
    /// These bytes.
    pub(crate) fn of(bytes: &'t [u8]) -> Bytes<'t>
        ensures { result ≡ bytes.now }
    {
        Bytes { bytes }
    }

    /// The bytes as a slice.
    pub(crate) fn as_slice(&self) -> &'t [u8]
        ensures { result.now ≡ self.now }
    {
        self.bytes
    }
}
