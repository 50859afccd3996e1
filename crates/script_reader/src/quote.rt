//! A text in quotes that may be longer than a value can be.

ghost use Rattle.std.specs.Prelude.{◌≡◌, All, IfOk};
ghost use Rattle.wave_base.specs.Text.{IsPrintable};

use std::alloc::Global;
use std::marker::Model;
use wave_base::OutOfMemory;

/// What stands between two quotes: printable bytes, however many.
#[derive(Debug, Drop)]
pub struct Quote {
    bytes: Vec<u8>,
}

impl Model for Quote {
    ghost use Rattle.std.specs.Prelude.{List, ℕ, All};
    ghost use Rattle.wave_base.specs.Text.{IsPrintable};

    ghost Value = { List ℕ };

    ghost view = { λ q. q.bytes.items };

    ghost invariant = { λ q. All IsPrintable q.bytes.items };
}

impl Quote {
    /// These bytes, all of which can be printed.
    pub fn new(bytes: Vec<u8>) -> Quote
        requires { All IsPrintable bytes.items }
        ensures { result ≡ bytes.items }
    {
        Quote { bytes }
    }

    /// Its bytes.
    pub fn bytes(&self) -> &[u8]
        ensures bytes { result.now ≡ self.now }
        ensures printable { All IsPrintable result.now }
    {
        self.bytes.as_slice()
    }

    /// A quote with the same bytes.
    pub fn copy(&self, alloc: Global) -> Result<Quote, OutOfMemory>
        ensures { IfOk result (λ q. q ≡ self.now) }
    {
        let bytes = Vec::from_slice(alloc, self.bytes())?;
        Ok(Quote::new(bytes))
    }
}
