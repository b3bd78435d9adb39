//! The handle of a side table: a table behind a pointer, or none.

ghost use Rattle.std.specs.Prelude.{◌≡◌, ℕ, Bool, not, true, false, IfSome, IfNone};
ghost use Rattle.std.specs.Borrow.{sem};
ghost use Rattle.std.specs.Coded.{coded_ℕ, coded_bool};
ghost use Rattle.slotmap_secondary.specs.Content.{SideContent, side_code};
ghost use Rattle.slotmap_c.specs.Held.{holds};
ghost use Rattle.slotmap_c.specs.Side.{Side as SideRow, no_side};

use crate::holder::Holder;
use slotmap_core::keys::DefaultKey;
use slotmap_secondary::SecondaryMap;
use std::alloc::Global;
use std::marker::Model;

pub(crate) type Side = SecondaryMap<DefaultKey, u64>;

/// A handle: open, with a side table, or closed. A closed one shows an empty table.
///
/// It can't be dropped: an open one would leak its table.
#[repr(C)]
pub struct SideHandle {
    // The table of an open handle, or null.
    at: *mut u8,
    pub ghost is_open: { Bool } by { coded_bool },
    pub ghost side: { SideContent ℕ } by { side_code coded_ℕ },
}

impl Model for SideHandle {
    ghost also_owns = { λ h. holds SideRow no_side h.at h.is_open h.side };
}

unsafe impl Send for SideHandle {}

impl SideHandle {
    ghost use Rattle.slotmap_c.specs.Lending.{LendsSide, LendsSideHolder, side_handle_of};

    // Lends the handle as a holder.
    #[inline(always)]
    fn holder(&mut self) -> &mut Holder<Side>
        ensures* writes_back { sem 𝓛 (LendsSideHolder self.entry result) }
        ensures value { side_handle_of result.now ≡ self.old }
    {
        unsafe { &mut *(self as *mut SideHandle as *mut Holder<Side>) }
    }

    /// Returns whether the handle is closed.
    #[inline(always)]
    pub(crate) fn is_closed(&mut self) -> bool
        ensures { (result ≡ not self.old.is_open) × (self.new ≡ self.old) × (result ≡ true → self.old.side ≡ no_side) }
    {
        self.holder().is_closed()
    }

    /// Lends the table of an open handle.
    #[inline(always)]
    pub(crate) fn inside(&mut self) -> &mut Side
        requires { self.old.is_open ≡ true }
        ensures* writes_back { sem 𝓛 (LendsSide self.entry result) }
        ensures value { result.now ≡ self.old.side }
    {
        self.holder().inside()
    }

    /// Takes the table out of the handle, which is closed then.
    #[inline(always)]
    pub(crate) fn take(&mut self, alloc: Global) -> Option<Box<Side, Global>>
        ensures some { IfSome result (λ inside. (self.old.is_open ≡ true) × (inside.value ≡ self.old.side)) }
        ensures none { IfNone result ((self.old.is_open ≡ false) × (self.old.side ≡ no_side)) }
        ensures open { self.new.is_open ≡ false }
        ensures side { self.new.side ≡ no_side }
    {
        self.holder().take(alloc)
    }

    /// Puts a table into the closed handle.
    #[inline(always)]
    pub(crate) fn put(&mut self, inside: Box<Side, Global>)
        requires { self.old.is_open ≡ false }
        ensures open { self.new.is_open ≡ true }
        ensures side { self.new.side ≡ inside.value }
    {
        self.holder().put(inside);
    }
}
