//! Places in a list, and how the index of an element is put there.

ghost use Rattle.std.specs.Prelude.{◌≡◌, ◌<◌, length};
ghost use Rattle.slotmap_links.specs.Lists.{IsFree, list_of, with_list};
ghost use Rattle.slotmap_lists.specs.Places.{index_put, spot_in};
ghost use Rattle.slotmap_lists.specs.Kept.{home_of};

use slotmap::KeyData;
use slotmap_links::Links;

// A place in a list: at an end, or beside the element of a cursor.
#[derive(Drop)]
pub(crate) enum Place {
    Front,
    Back,
    Before(KeyData),
    After(KeyData),
}

// Puts an index that is in no list into a place of a list.
#[inline(always)]
pub(crate) fn put_index(links: &mut Links, list: u32, place: Place, index: u32)
    requires list { list < length links.old.lists }
    requires free { IsFree links.old index }
    requires place { spot_in place (list_of links.old list) }
    ensures { links.new ≡ with_list links.old list (index_put place index (list_of links.old list)) }
{
    match place {
        Place::Front => links.put_first(list, index),
        Place::Back => links.put_last(list, index),
        Place::Before(other) => links.put_before(list, other.idx(), index),
        Place::After(other) => links.put_behind(list, other.idx(), index),
    }
}

// The number of the list that an index is in.
#[inline(always)]
pub(crate) fn home_at(homes: &[u32], index: u32) -> u32
    requires { index < length homes.now }
    ensures { result ≡ home_of homes.now index }
{
    homes[index as usize]
}
