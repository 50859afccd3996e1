//! A law of stores: the contract of a function that does nothing.

ghost use Rattle.std.specs.Prelude.{ℕ};
ghost use Rattle.host_map.specs.Stores.{Stores, IsAt, column_of};
ghost use Rattle.wave_base.specs.declared.path.Path.{Path};

/// What a store has of a context is what a column of the theory has at a host, so that what is said of all such columns is said
/// of one at least.
pub fn stores_stand()
    ensures { (s : Stores) (p : Path) (host : ℕ) → IsAt s p (column_of s p) host }
{}
