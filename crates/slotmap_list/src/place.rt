//! Places in a list, and how the index of an element is put there.

ghost use Rattle.std.specs.Prelude.{◌≡◌, ◌<◌, length};
ghost use Rattle.slotmap_links.specs.Lists.{IsFree, list_of, with_list};
ghost use Rattle.slotmap_list.specs.ListPlaces.{has_place, put_number};

use slotmap::{Key, KeyData};
use slotmap_links::Links;

// A side of an element.
#[derive(Drop)]
pub(crate) enum Side {
    Before,
    After,
}

// A place in a list: at an end, or on a side of an element.
#[derive(Drop)]
pub(crate) enum Place {
    Front,
    Back,
    Beside(Side, KeyData),
}

// The cursor with these data.
pub(crate) fn cursor_of<K: Key>(key: KeyData) -> K
    ensures { K.data_of result ≡ key }
{
    // By what `idx` ensures, they are those of a key.
    let _ = key.idx();
    K::from(key)
}

// Puts an index that isn't in the list into a place of it.
#[inline(always)]
pub(crate) fn put_index(links: &mut Links, place: Place, index: u32)
    requires owner { 0 < length links.old.lists }
    requires free { IsFree links.old index }
    requires place { has_place place (list_of links.old 0) }
    ensures { links.new ≡ with_list links.old 0 (put_number place index (list_of links.old 0)) }
{
    match place {
        Place::Front => links.put_first(0, index),
        Place::Back => links.put_last(0, index),
        Place::Beside(side, at) => match side {
            Side::Before => links.put_before(0, at.idx(), index),
            Side::After => links.put_behind(0, at.idx(), index),
        },
    }
}
