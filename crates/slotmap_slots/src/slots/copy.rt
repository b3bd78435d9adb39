//! Copies.

ghost use Rattle.slotmap_core.specs.Words.{true, IfOk, ClonesEqual, IsContent, IsCopy, IsCloneBy};

use super::Slots;
use crate::layout::CopyLayout;
use std::alloc::AllocError;
use std::marker::PhantomData;

impl<P: Clone, L: CopyLayout<P>> Slots<P, L> {
    /// Returns a copy, with clones of the payloads. Fails if memory runs out or the clone of a payload
    /// fails.
    pub fn copy(&self) -> Result<Self, AllocError>
        ensures clones { IfOk result (IsCloneBy P.is_clone self.now) }
        ensures copies_if_clones_equal { IfOk result (λ copy. ClonesEqual P.is_clone → IsCopy self.now copy) }
        ensures valid { IfOk result (IsContent true) }
    {
        Ok(Slots {
            layout: self.layout.copy()?,
            first_vacant: self.first_vacant,
            used_count: self.used_count,
            aside_count: self.aside_count,
            payloads: PhantomData,
        })
    }
}
