//! A doubly linked list whose elements have cursors that stay valid.
//!
//! Each element of a [`StableList`] has a [`Cursor`]. It stays valid until the element is removed,
//! whatever is inserted or removed elsewhere, and wherever the element moves. What is proved of it:
//!
//! - A clause sees the list as its cursors with their values, from front to back. Each call's
//!   contract gives the resulting list.
//! - The cursor of a removed element is never used again for another element, unless `clone_from` makes
//!   the list a copy of another.
//! - A call with a cursor that isn't in the list changes nothing. An insert returns its value then.
//! - An element that is moved keeps its cursor, and the capacity stays.
//! - Where there is room, no added element is refused for memory, and the capacity stays. No removal
//!   loses room or changes the capacity.
//! - An iterator yields the elements from front to back, or from back to front.
//!
//! A call takes constant time, with these exceptions:
//!
//! - `to_vec`, `retain`, `clear` and dropping a `Drain` take time linear in the elements that are there.
//!   `extend` and `from_iter` take it in the values added, and `append` in the other list's elements.
//! - `clone`, `with_capacity` and `with_capacity_and_key` take time linear in the capacity, and so do
//!   `reserve` and `append` where they have to make room.
//! - A push or an insert may have to grow the vectors of the list, and takes constant time on average.
//!
//! The values lie in a map. Their order lies apart from them, in 8 bytes a slot: links of 4 bytes
//! by the index of the slot.
//!
//! ```
//! let mut list = StableList::new(alloc)?;
//! let one = list.push_back(1)?;
//! let three = list.push_back(3)?;
//! list.insert_after(one, 2)?;
//! assert_eq!(rt; list.to_vec(alloc)?.as_slice(), [1, 2, 3].as_slice());
//!
//! list.move_to_front(three);
//! list.remove(one);
//! assert_eq!(rt; list.to_vec(alloc)?.as_slice(), [3, 2].as_slice());
//! assert_eq!(rt; list.get(one), None);
//! ```
#![tactic(auto, using(slotmap::proofs::Callers::keys))]

ghost use Rattle.std.specs.Prelude.{◌≡◌, ◌<◌, ◌≤◌, ◌^◌, ◌∷◌, [], Some, None, true, IfOk, IfErr, IsTrue, ◌↔◌};
ghost use Rattle.std.specs.Prelude.{is_some, length, option_copied, option_map, map as list_map};
ghost use Rattle.std.specs.FinMap as map;
ghost use Rattle.slotmap.specs.Words.{Key as KeyOf, IsNew, IsSpent, RefusesCapacity};
ghost use Rattle.slotmap_list.specs.Kept.{key_there};
ghost use Rattle.slotmap_list.specs.Sequence.{value_of, first_or, last_or, key_after, key_before, IsOnce};

use slotmap::{Key, ReserveError};
use slotmap_bounded::BoundedMap;
use slotmap_links::Links;
use std::alloc::{AllocError, Global};
use std::marker::Model;
use std::ops::Index;
use thiserror::Error;

mod add;
mod beside;
mod clone;
mod cursor;
mod debug;
mod drain;
mod extend;
mod into_iter;
mod iter;
mod moves;
mod place;
mod rest;
mod retain;
mod room;
mod take;
mod values;

pub use cursor::Cursor;
pub use drain::Drain;
pub use into_iter::IntoIter;
pub use iter::Iter;
pub use rest::IterFrom;
pub use values::{Cursors, Values};

/// A list whose elements have cursors of the key type `K`.
///
/// A clause sees `elements`, the list of the cursors with their values, from front to back, and
/// `cursors`, by which it says that a cursor is never used again. `memory` is how much it counts as
/// reserved. A test shows that a call that keeps it asks for none.
pub struct StableList<K, T> {
    // The values, each under the cursor of its element.
    values: BoundedMap<K, T>,
    // The list of owner 0 has the indices of the cursors, from front to back.
    links: Links,
}

impl<K, T: Drop> Drop for StableList<K, T> {
    fn drop(self) {
        let StableList {
            values: _values,
            links: _links,
        } = self;
    }
}

impl<K, T> Model for StableList<K, T> {
    ghost use Rattle.slotmap_list.specs.Sequence.{Sequence, sequence_code};

    ghost Value = { Sequence T };

    ghost coded = { sequence_code T.code };

    ghost use Rattle.slotmap_links.specs.Lists.{list_of};
    ghost use Rattle.slotmap.specs.Words.{without_values};
    ghost use Rattle.slotmap_list.specs.Kept.{elements_at, IsKept};

    ghost view = { λ l. record { elements = elements_at l.values.live (list_of l.links 0); cursors = without_values l.values; links = l.links.capacity } };

    ghost invariant = { λ l. IsKept l.values l.links };
}

/// An element was not added at an end. The error holds its value.
#[derive(Debug, Drop, Error)]
pub enum PushError<T> {
    /// The elements and the retired slots are as many as a map can hold, 4294967294.
    #[error("the list is full")]
    Full(T),
    /// An allocation failed.
    #[error("out of memory")]
    Memory(T),
}

/// An element was not added beside a cursor. The error holds its value.
#[derive(Debug, Drop, Error)]
pub enum PlaceError<T> {
    /// The cursor isn't in the list.
    #[error("the cursor isn't in the list")]
    Gone(T),
    /// The elements and the retired slots are as many as a map can hold, 4294967294.
    #[error("the list is full")]
    Full(T),
    /// An allocation failed.
    #[error("out of memory")]
    Memory(T),
}

// Makes links for the numbers below `members`, with one list, which is empty.
fn one_list(alloc: Global, members: usize) -> Result<Links, AllocError>
    requires { members < 2 ^ 32 }
    ensures lists { IfOk result (λ links. links.lists ≡ [] ∷ []) }
    ensures members { IfOk result (λ links. links.members ≡ members) }
{
    let mut links = Links::new(alloc);
    links.cover_owners(1)?;
    links.cover_members(members)?;
    Ok(links)
}

// The live key with an index, if there is one.
fn key_at<K: Key, T: Drop>(values: &BoundedMap<K, T>, index: Option<u32>) -> Option<K>
    ensures { option_map K.data_of result ≡ key_there values.now.live index }
{
    // By what `len` ensures, no two live keys have one index.
    let _ = values.len();
    values.key_at(index?)
}

impl<T: Drop> StableList<Cursor, T> {
    /// Makes an empty list, whose elements have cursors of type `Cursor`.
    ///
    /// It fails only if memory runs out.
    ///
    /// ```
    /// let list: StableList<Cursor, u64> = StableList::new(alloc)?;
    /// assert!(rt; list.is_empty());
    /// ```
    pub fn new(alloc: Global) -> Result<Self, ReserveError>
        ensures empty { IfOk result (λ list. list.elements ≡ []) }
        ensures cursors { IfOk result (λ list. IsNew list.cursors) }
        ensures err { IfErr result (λ error. error ≡ ReserveError.Memory) }
    {
        StableList::with_key(alloc)
    }

    /// Makes an empty list with room for `capacity` elements, whose cursors are of type `Cursor`.
    ///
    /// Adding the next `capacity` elements can't fail, except with `Gone`. The call fails with
    /// `TooGreat` if `capacity` is over 4294967294, and with `Memory` if memory runs out. It takes
    /// time linear in `capacity`.
    ///
    /// ```
    /// let mut list: StableList<Cursor, u64> = StableList::with_capacity(alloc, 2)?;
    /// assert!(rt; list.is_empty());
    /// assert!(rt; list.capacity() >= 2);
    /// ```
    pub fn with_capacity(alloc: Global, capacity: usize) -> Result<Self, ReserveError>
        ensures empty { IfOk result (λ list. list.elements ≡ []) }
        ensures cursors { IfOk result (λ list. IsNew list.cursors) }
        ensures room { IfOk result (λ list. capacity ≤ list.cursors.room) }
        ensures err { IfErr result (RefusesCapacity capacity) }
    {
        StableList::with_capacity_and_key(alloc, capacity)
    }
}

impl<K: Key, T: Drop> StableList<K, T> {
    /// Makes an empty list, with any type of cursors.
    ///
    /// It fails only if memory runs out.
    ///
    /// ```
    /// let list: StableList<NodeKey, u64> = StableList::with_key(alloc)?;
    /// assert!(rt; list.is_empty());
    /// ```
    pub fn with_key(alloc: Global) -> Result<Self, ReserveError>
        ensures empty { IfOk result (λ list. list.elements ≡ []) }
        ensures cursors { IfOk result (λ list. IsNew list.cursors) }
        ensures err { IfErr result (λ error. error ≡ ReserveError.Memory) }
    {
        StableList::with_capacity_and_key(alloc, 0)
    }

    /// Makes an empty list with room for `capacity` elements, with any type of cursors.
    ///
    /// Adding the next `capacity` elements can't fail, except with `Gone`. The call fails with
    /// `TooGreat` if `capacity` is over 4294967294, and with `Memory` if memory runs out. It takes
    /// time linear in `capacity`.
    ///
    /// ```
    /// let list: StableList<NodeKey, u64> = StableList::with_capacity_and_key(alloc, 2)?;
    /// assert!(rt; list.capacity() >= 2);
    /// ```
    pub fn with_capacity_and_key(alloc: Global, capacity: usize) -> Result<Self, ReserveError>
        ensures empty { IfOk result (λ list. list.elements ≡ []) }
        ensures cursors { IfOk result (λ list. IsNew list.cursors) }
        ensures room { IfOk result (λ list. capacity ≤ list.cursors.room) }
        ensures err { IfErr result (RefusesCapacity capacity) }
    {
        let values = BoundedMap::with_capacity(alloc, capacity)?;
        let Ok(links) = one_list(alloc, capacity + 1) else {
            return Err(ReserveError::Memory);
        };
        Ok(StableList { values, links })
    }

    /// Returns whether a cursor is in the list, in constant time.
    ///
    /// ```
    /// let mut list = StableList::new(alloc)?;
    /// let one = list.push_back(1)?;
    /// assert!(rt; list.contains(one));
    /// list.remove(one);
    /// assert!(rt; !list.contains(one));
    /// ```
    pub fn contains(&self, cursor: K) -> bool
        ensures value { result ≡ is_some (value_of (K.data_of cursor) self.now.elements) }
        ensures live { result ≡ map.contains_key self.now.cursors.live (K.data_of cursor) }
    {
        self.values.contains_key(cursor)
    }

    /// Returns the number of elements, in constant time. No cursor occurs twice.
    ///
    /// ```
    /// let mut list = StableList::new(alloc)?;
    /// let one = list.push_back(1)?;
    /// assert_eq!(rt; list.len(), 1);
    /// list.remove(one);
    /// assert_eq!(rt; list.len(), 0);
    /// ```
    pub fn len(&self) -> usize
        ensures value { result ≡ length self.now.elements }
        ensures once { IsOnce self.now.elements }
        ensures live { result ≡ map.len self.now.cursors.live }
        ensures same_keys { (k : KeyOf) → map.contains_key self.now.cursors.live k ≡ is_some (value_of k self.now.elements) }
    {
        self.links.len(0)
    }

    /// Returns whether the list has no element, in constant time.
    ///
    /// ```
    /// let mut list = StableList::new(alloc)?;
    /// assert!(rt; list.is_empty());
    /// list.push_back(1)?;
    /// assert!(rt; !list.is_empty());
    /// ```
    pub fn is_empty(&self) -> bool
        ensures { IsTrue result ↔ (length self.now.elements ≡ 0) }
    {
        self.len() == 0
    }

    /// Returns the cursor of the element at the front, or `None` if the list is empty.
    ///
    /// ```
    /// let mut list = StableList::new(alloc)?;
    /// let one = list.push_back(1)?;
    /// list.push_back(2)?;
    /// assert_eq!(rt; list.first(), Some(one));
    /// list.clear();
    /// assert_eq!(rt; list.first(), None);
    /// ```
    pub fn first(&self) -> Option<K>
        ensures { option_map K.data_of result ≡ first_or self.now.elements None }
    {
        key_at(&self.values, self.links.first(0))
    }

    /// Returns the cursor of the element at the back, or `None` if the list is empty.
    ///
    /// ```
    /// let mut list = StableList::new(alloc)?;
    /// let one = list.push_back(1)?;
    /// let two = list.push_back(2)?;
    /// assert_eq!(rt; list.last(), Some(two));
    /// list.remove(two);
    /// assert_eq!(rt; list.last(), Some(one));
    /// ```
    pub fn last(&self) -> Option<K>
        ensures { option_map K.data_of result ≡ last_or self.now.elements None }
    {
        key_at(&self.values, self.links.last(0))
    }

    /// Returns the value of a cursor, or `None` if it isn't in the list.
    ///
    /// ```
    /// let mut list = StableList::new(alloc)?;
    /// let one = list.push_back(1)?;
    /// assert_eq!(rt; list.get(one), Some(&1));
    /// list.remove(one);
    /// assert_eq!(rt; list.get(one), None);
    /// ```
    pub fn get(&self, cursor: K) -> Option<&T>
        ensures value { option_copied result ≡ value_of (K.data_of cursor) self.now.elements }
        ensures gone { IsSpent self.now.cursors (K.data_of cursor) → result ≡ None }
    {
        self.values.get(cursor)
    }

    /// Returns the cursor after this one, or `None` at the back and for a cursor that isn't in the
    /// list.
    ///
    /// ```
    /// let mut list = StableList::new(alloc)?;
    /// let one = list.push_back(1)?;
    /// let two = list.push_back(2)?;
    /// assert_eq!(rt; list.next(one), Some(two));
    /// assert_eq!(rt; list.next(two), None);
    /// ```
    pub fn next(&self, cursor: K) -> Option<K>
        ensures { option_map K.data_of result ≡ key_after (K.data_of cursor) self.now.elements }
    {
        self.after(cursor)
    }

    /// Returns the cursor before this one, or `None` at the front and for a cursor that isn't in the
    /// list.
    ///
    /// ```
    /// let mut list = StableList::new(alloc)?;
    /// let one = list.push_back(1)?;
    /// let two = list.push_back(2)?;
    /// assert_eq!(rt; list.prev(two), Some(one));
    /// assert_eq!(rt; list.prev(one), None);
    /// ```
    pub fn prev(&self, cursor: K) -> Option<K>
        ensures { option_map K.data_of result ≡ key_before None (K.data_of cursor) self.now.elements }
    {
        if !self.values.contains_key(cursor) {
            return None;
        }
        key_at(&self.values, self.links.prev(cursor.data().idx()))
    }

    // The cursor after this one.
    fn after(&self, cursor: K) -> Option<K>
        ensures value { option_map K.data_of result ≡ key_after (K.data_of cursor) self.now.elements }
        ensures once { IsOnce self.now.elements }
    {
        if !self.values.contains_key(cursor) {
            return None;
        }
        key_at(&self.values, self.links.next(cursor.data().idx()))
    }

    /// Returns an iterator over the elements with their cursors, from front to back. It can be
    /// reversed, and yields from both ends.
    ///
    /// It is made in constant time, and each step takes constant time.
    ///
    /// ```
    /// let mut list = StableList::new(alloc)?;
    /// let one = list.push_back(1)?;
    /// let two = list.push_back(2)?;
    /// let mut elements = list.iter();
    /// assert_eq!(rt; elements.next_back(), Some((two, &2)));
    /// assert_eq!(rt; elements.next(), Some((one, &1)));
    /// assert_eq!(rt; elements.next(), None);
    /// ```
    pub fn iter(&self) -> Iter<'_, K, T>
        ensures elements { result ≡ self.now.elements }
        ensures once { IsOnce result }
    {
        Iter {
            values: &self.values,
            indices: self.links.iter(0),
        }
    }

    /// Returns the values from front to back, in time linear in their number. It fails only if memory
    /// runs out.
    ///
    /// ```
    /// let mut list = StableList::new(alloc)?;
    /// list.push_back(1)?;
    /// list.push_front(2)?;
    /// assert_eq!(rt; list.to_vec(alloc)?.as_slice(), [2, 1].as_slice());
    /// ```
    pub fn to_vec(&self, alloc: Global) -> Result<Vec<T>, AllocError>
    where
        T: Copy,
        ensures { IfOk result (λ values. values.items ≡ list_map (λ e. e.1) self.now.elements) }
    {
        let mut values = Vec::new(alloc);
        for (_, value) in self {
            values.push(*value)?;
        }
        Ok(values)
    }
}

/// `list[cursor]` is the value of a cursor. The caller proves that it is in the list.
impl<K: Key, T: Drop> Index<K> for StableList<K, T> {
    type Output = T;

    ghost can_index = { λ list cursor. is_some (value_of (K.data_of cursor) list.elements) ≡ true };

    ghost index_gives = { λ list cursor value. value_of (K.data_of cursor) list.elements ≡ Some value };

    fn index(&self, cursor: K) -> &T {
        let Some(value) = self.get(cursor) else {
            unreachable!()
        };
        value
    }
}
