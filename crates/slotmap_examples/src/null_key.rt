//! A null key: it marks the end of a chain of keys, in place of an `Option`.

ghost use Rattle.std.specs.Prelude.{◌≡◌, IfOk, Some};
ghost use Rattle.std.specs.FinMap as map;
ghost use Rattle.slotmap.specs.Words.{null_key};

use slotmap::{InsertError, Key, NodeKey, SlotMap};

/// A page: how long it is, and the next page, if the key is not null.
#[derive(Clone, Copy, Debug)]
pub struct Page {
    pub length: u32,
    pub next: NodeKey,
}

/// Adds a last page.
pub fn add_last(
    pages: &mut SlotMap<NodeKey, Page>,
    length: u32,
) -> Result<NodeKey, InsertError<Page>>
    ensures { IfOk result (λ key. map.get pages.new.live key ≡ Some (record { length = length; next = null_key })) }
{
    let next = NodeKey::null();
    pages.insert(Page { length, next })
}
