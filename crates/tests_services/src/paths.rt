//! Paths of halls, which are of class 1 and stand in the root, and of stalls, of class 2 in a hall.

ghost use Rattle.std.specs.Prelude.{◌≡◌, ◌∷◌, []};

use wave_base::{Class, Path, Step};

/// The hall of a key.
pub fn hall(key: i64) -> Path
    ensures { result ≡ record { class = record { 0 = 1 }; key = key } ∷ [] }
{
    let class = Class(1);
    Path::root().child(Step { class, key })
}

/// The stall of a key, in the hall of another.
pub fn stall(above: i64, key: i64) -> Path
    ensures { result ≡ record { class = record { 0 = 1 }; key = above } ∷ record { class = record { 0 = 2 }; key = key } ∷ [] }
{
    let class = Class(2);
    hall(above).child(Step { class, key })
}
