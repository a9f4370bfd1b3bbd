// A box of the C library's heap as its pointer.
ghost use Rattle.std.specs.Prelude.{◌≡◌};
ghost use Rattle.std.specs.Box.Ownership.{box_owns};
ghost use Rattle.modem_c.specs.Held.{chunk};

use std::alloc::Global;
use std::marker::Model;

/// What a box holds, and its pointer. It has to be boxed again, else it is never freed.
pub(crate) struct Unboxed<T> {
    /// Where it lies.
    pub(crate) at: *mut T,
    pub(crate) ghost value: { T },
}

impl<T> Model for Unboxed<T> {
    ghost also_owns = { λ it. box_owns chunk T.row it.at it.value };
}

impl<T: Drop> Unboxed<T> {
    /// The box, taken apart.
    pub(crate) fn of(value: Box<T>) -> Unboxed<T>
        ensures { result.value ≡ value.value }
    {
        let (at, _heap) = Box::into_raw_with_allocator(value);
        Unboxed { at }
    }

    /// The box again.
    pub(crate) fn into_box(self, heap: Global) -> Box<T>
        ensures { result.value ≡ self.value }
    {
        let Unboxed { at } = self;
        unsafe { Box::from_raw(heap, at) }
    }
}
