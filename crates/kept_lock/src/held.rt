// A value on the heap.
ghost use Rattle.std.specs.Prelude.{◌≡◌, IfOk, IfErr};

use std::alloc::Global;
use std::marker::Model;
use wave_base::OutOfMemory;

/// A box that contracts see as its value. It moves as a pointer, however large the value is.
#[derive(Drop)]
pub struct Held<V> {
    pub(crate) boxed: Box<V>,
}

impl<V> Model for Held<V> {
    ghost Value = { V };

    ghost coded = { V.code };

    ghost view = { λ h. h.boxed.value };
}

impl<V> Held<V> {
    /// The value in a box of its own. Where there is no memory it comes back.
    pub(crate) fn new(alloc: Global, value: V) -> Result<Held<V>, (V, OutOfMemory)>
        ensures held { IfOk result (λ h. h ≡ value) }
        ensures back { IfErr result (λ e. e.0 ≡ value) }
    {
        match Box::new(alloc, value) {
            Ok(boxed) => Ok(Held { boxed }),
            Err(refused) => Err(OutOfMemory::of_refused(refused)),
        }
    }

    /// The value.
    pub(crate) fn get(&self) -> &V
        ensures { result.now ≡ self.now }
    {
        &self.boxed
    }

    /// The value, without its box.
    pub(crate) fn into_inner(self) -> V
        ensures { result ≡ self }
    {
        let Held { boxed } = self;
        Box::into_inner(boxed)
    }
}
