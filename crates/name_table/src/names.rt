//! Numbers by name.

ghost use Rattle.std.specs.Prelude.{◌≡◌, [], OnOk, OnErr};
ghost use Rattle.name_table.specs.Numbers.{first_number, numbers_with};

use indexmap::IndexMap;
use std::alloc::Global;
use std::marker::Model;
use wave_base::OutOfMemory;

/// Numbers by name. Of several numbers for one name the first counts.
#[derive(Drop)]
pub struct Names {
    numbers: IndexMap<Vec<u8>, u16>,
}

impl Model for Names {
    ghost use Rattle.std.specs.Prelude.{List, ℕ};
    ghost use Rattle.name_table.specs.Numbers.{pairs_of};

    ghost Value = { List (List ℕ × ℕ) };

    ghost view = { λ n. pairs_of n.numbers.entries };
}

impl Names {
    /// No names.
    pub fn new(alloc: Global) -> Names
        ensures { result ≡ [] }
    {
        Names {
            numbers: IndexMap::new(alloc),
        }
    }

    /// The number of a name.
    pub fn first(&self, name: &[u8]) -> Option<u16>
        ensures { result ≡ first_number self.now name.now }
    {
        self.numbers.get(name).copied()
    }

    /// Notes a number for a name. Where memory is wanting, nothing has changed.
    pub fn note(&mut self, alloc: Global, name: &[u8], number: u16) -> Result<(), OutOfMemory>
        ensures ok { OnOk result (self.new ≡ numbers_with self.old name.now number) }
        ensures err { OnErr result (self.new ≡ self.old) }
    {
        if self.first(name).is_none() {
            let name = Vec::from_slice(alloc, name)?;
            self.numbers.insert(name, number)?;
        }
        Ok(())
    }
}
