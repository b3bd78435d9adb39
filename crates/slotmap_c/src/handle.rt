//! A handle: a map behind a pointer, or none.

ghost use Rattle.std.specs.Prelude.{◌≡◌, ℕ, Bool, not, true, false, IfSome, IfNone};
ghost use Rattle.std.specs.Borrow.{sem};
ghost use Rattle.std.specs.Coded.{coded_ℕ, coded_bool};
ghost use Rattle.slotmap_core.specs.Words.{Content, content_code};
ghost use Rattle.slotmap_c.specs.Held.{Map as MapRow, holds, nothing};

use crate::holder::Holder;
use slotmap_basic::SlotMap;
use slotmap_core::keys::DefaultKey;
use std::alloc::Global;
use std::marker::Model;

pub(crate) type Map = SlotMap<DefaultKey, u64>;

/// A handle: open, with a map, or closed. A closed one shows an empty map.
///
/// It can't be dropped: an open one would leak its map.
#[repr(C)]
pub struct Handle {
    // The map of an open handle, or null.
    at: *mut u8,
    pub ghost is_open: { Bool } by { coded_bool },
    pub ghost map: { Content ℕ } by { content_code coded_ℕ },
}

impl Model for Handle {
    ghost also_owns = { λ h. holds MapRow nothing h.at h.is_open h.map };
}

unsafe impl Send for Handle {}

impl Handle {
    ghost use Rattle.slotmap_c.specs.Lending.{LendsMap, LendsMapHolder, map_handle_of};

    // Lends the handle as a holder.
    #[inline(always)]
    fn holder(&mut self) -> &mut Holder<Map>
        ensures* writes_back { sem 𝓛 (LendsMapHolder self.entry result) }
        ensures value { map_handle_of result.now ≡ self.old }
    {
        unsafe { &mut *(self as *mut Handle as *mut Holder<Map>) }
    }

    /// Returns whether the handle is closed.
    #[inline(always)]
    pub(crate) fn is_closed(&mut self) -> bool
        ensures { (result ≡ not self.old.is_open) × (self.new ≡ self.old) × (result ≡ true → self.old.map ≡ nothing) }
    {
        self.holder().is_closed()
    }

    /// Lends the map of an open handle.
    #[inline(always)]
    pub(crate) fn inside(&mut self) -> &mut Map
        requires { self.old.is_open ≡ true }
        ensures* writes_back { sem 𝓛 (LendsMap self.entry result) }
        ensures value { result.now ≡ self.old.map }
    {
        self.holder().inside()
    }

    /// Takes the map out of the handle, which is closed then.
    #[inline(always)]
    pub(crate) fn take(&mut self, alloc: Global) -> Option<Box<Map, Global>>
        ensures some { IfSome result (λ inside. (self.old.is_open ≡ true) × (inside.value ≡ self.old.map)) }
        ensures none { IfNone result ((self.old.is_open ≡ false) × (self.old.map ≡ nothing)) }
        ensures open { self.new.is_open ≡ false }
        ensures map { self.new.map ≡ nothing }
    {
        self.holder().take(alloc)
    }

    /// Puts a map into the closed handle.
    #[inline(always)]
    pub(crate) fn put(&mut self, inside: Box<Map, Global>)
        requires { self.old.is_open ≡ false }
        ensures open { self.new.is_open ≡ true }
        ensures map { self.new.map ≡ inside.value }
    {
        self.holder().put(inside);
    }
}
