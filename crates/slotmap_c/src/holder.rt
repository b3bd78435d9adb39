//! What all handles have in common: a value behind a pointer, or none.

ghost use Rattle.std.specs.Prelude.{◌≡◌, Option, None, Some, is_some, not, true, MatchOption};
ghost use Rattle.std.specs.Borrow.{sem};
ghost use Rattle.std.specs.Coded.{coded_option};
ghost use Rattle.slotmap_c.specs.Held.{keeps};

use crate::unboxed::Unboxed;
use std::alloc::Global;
use std::marker::Model;
use std::{mem, ptr};

/// A handle as the library reads it, of any type of value: open, with a value, or closed.
///
/// It can't be dropped: an open one would leak its value.
#[repr(C)]
pub(crate) struct Holder<M> {
    // The value of an open holder, or null.
    at: *mut M,
    pub(crate) ghost held: { Option M } by { coded_option M.code },
}

impl<M> Model for Holder<M> {
    ghost also_owns = { λ h. keeps M.row h.at h.held };
}

impl<M> Holder<M> {
    ghost use Rattle.slotmap_c.specs.Holding.{LendsHeld};

    fn closed() -> Holder<M>
        ensures { result.held ≡ None }
    {
        Holder {
            at: ptr::null_mut(),
        }
    }

    /// Returns whether the holder is closed.
    #[inline(always)]
    pub(crate) fn is_closed(&mut self) -> bool
        ensures { (result ≡ not (is_some self.old.held)) × (self.new ≡ self.old) }
    {
        self.at.is_null()
    }

    /// Lends the value of an open holder.
    #[inline(always)]
    pub(crate) fn inside(&mut self) -> &mut M
        requires { is_some self.old.held ≡ true }
        ensures* writes_back { sem 𝓛 (LendsHeld M.row self.entry result) }
        ensures value { self.old.held ≡ Some result.now }
    {
        unsafe { &mut *self.at }
    }

    // Lets a closed holder go.
    fn end(self)
        requires { self.held ≡ None }
    {
        let Holder { at: _ } = self;
    }

    fn of_unboxed(inside: Unboxed<M, Global>) -> Holder<M>
        ensures { result.held ≡ Some inside.held }
    {
        let Unboxed { pointer, alloc: _ } = inside;
        Holder { at: pointer }
    }

    fn into_unboxed(self, alloc: Global) -> Option<Unboxed<M, Global>>
        ensures { MatchOption result (self.held ≡ None) (λ unboxed. self.held ≡ Some unboxed.held) }
    {
        let Holder { at } = self;
        if at.is_null() {
            return None;
        }
        Some(Unboxed { pointer: at, alloc })
    }
}

impl<M: Drop> Holder<M> {
    /// Takes the value out of the holder, which is closed then.
    #[inline(always)]
    pub(crate) fn take(&mut self, alloc: Global) -> Option<Box<M, Global>>
        ensures value { MatchOption result (self.old.held ≡ None) (λ inside. self.old.held ≡ Some inside.value) }
        ensures held { self.new.held ≡ None }
    {
        match mem::replace(self, Holder::closed()).into_unboxed(alloc) {
            Some(unboxed) => Some(unboxed.into_box()),
            None => None,
        }
    }

    /// Puts a value into the closed holder.
    #[inline(always)]
    pub(crate) fn put(&mut self, inside: Box<M, Global>)
        requires { self.old.held ≡ None }
        ensures { self.new.held ≡ Some inside.value }
    {
        mem::replace(self, Holder::of_unboxed(Unboxed::of(inside))).end();
    }
}
