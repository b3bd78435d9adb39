//! A box taken apart, so that its pointer can be kept in memory that C sees.

ghost use Rattle.std.specs.Prelude.{◌≡◌};

use std::alloc::Allocator;
use std::marker::Model;

/// The pointer and the allocator of a box. Together they own what the box owned.
pub struct Unboxed<T, A: Allocator> {
    pub pointer: *mut T,
    pub alloc: A,
    pub ghost held: { T },
}

impl<T, A: Allocator> Model for Unboxed<T, A> {
    ghost use Rattle.std_alloc.specs.Box.Ownership.{box_owns};

    ghost also_owns = { λ u. box_owns (A.dealloc_token u.alloc) T.row u.pointer u.held };
}

impl<T: Drop, A: Allocator> Unboxed<T, A> {
    /// Takes a box apart.
    pub fn of(inside: Box<T, A>) -> Unboxed<T, A>
        ensures { result.held ≡ inside.value }
    {
        let (pointer, alloc) = Box::into_raw_with_allocator(inside);
        Unboxed { pointer, alloc }
    }

    /// Puts the box together again.
    pub fn into_box(self) -> Box<T, A>
        ensures { result.value ≡ self.held }
    {
        let Unboxed { pointer, alloc } = self;
        unsafe { Box::from_raw(alloc, pointer) }
    }
}
