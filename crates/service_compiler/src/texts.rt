//! The texts of a program, numbered.

ghost use Rattle.std.specs.Prelude.{◌≡◌, ◌<◌, ◌^◌, [], length, IfOk, OnOk, OnErr};
ghost use Rattle.code_scheme.specs.Texts.{with_text, place_of_text};

use indexmap::IndexSet;
use std::alloc::Global;
use std::marker::Model;
use wave_base::{OutOfMemory, Seq, Txt};

/// The texts of a program, each once, in the order of their first uses.
#[derive(Drop)]
pub struct Texts {
    set: IndexSet<Vec<u8>>,
}

impl Model for Texts {
    ghost use Rattle.std.specs.Prelude.{List, ℕ};
    ghost use Rattle.service_compiler.specs.Kept.{texts_of, AreTexts};

    ghost Value = { List (List ℕ) };

    ghost view = { λ t. texts_of t.set.keys };

    ghost invariant = { λ t. AreTexts t.set.keys };
}

impl Texts {
    /// No texts.
    pub fn new(alloc: Global) -> Texts
        ensures { result ≡ [] }
    {
        Texts {
            set: IndexSet::new(alloc),
        }
    }

    /// Notes a use of a text. Where memory is wanting the texts stay.
    pub fn note(&mut self, alloc: Global, text: &Txt) -> Result<(), OutOfMemory>
        ensures noted { OnOk result (self.new ≡ with_text self.old text.now) }
        ensures kept { OnErr result (self.new ≡ self.old) }
    {
        let bytes = Vec::from_slice(alloc, text.bytes())?;
        self.set.insert(bytes)?;
        Ok(())
    }

    /// The number of a text, or how many there are where it isn't among them.
    pub fn place(&self, text: &[u8]) -> u32
        requires { length self.now < 2 ^ 32 }
        ensures { result ≡ place_of_text self.now text.now }
    {
        match self.set.get_index_of(text) {
            Some(place) => place as u32,
            None => self.set.len() as u32,
        }
    }

    /// The texts in their order.
    pub fn to_seq(&self, alloc: Global) -> Result<Seq<Txt>, OutOfMemory>
        ensures { IfOk result (λ s. s ≡ self.now) }
    {
        let mut texts = Vec::new(alloc);
        for bytes in self.set.as_slice() {
            texts.push(Txt::from_bytes(alloc, bytes.as_slice())?)?;
        }
        Ok(Seq::from_vec(texts))
    }
}
