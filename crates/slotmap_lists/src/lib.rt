//! Several doubly linked lists in one map. An element moves to another list under its cursor.
//!
//! Each element of a [`StableLists`] is in one of its lists, and has a [`Cursor`]. The cursor stays
//! valid until the element is removed, whatever is inserted or removed elsewhere, and wherever the
//! element moves. The lists are numbered from 0. What is proved of them:
//!
//! - A clause sees each list as its cursors with their values, from front to back. Each call's
//!   contract gives the resulting lists.
//! - Each element is in exactly one list, and there once.
//! - An element that moves to another list, or to another place of its own, keeps its cursor and its
//!   value. No move can fail for want of memory, and the capacity stays.
//! - The cursor of a removed element is never used again for another element, unless `clone_from`
//!   makes the lists a copy of others.
//! - A call that adds, removes or moves an element leaves all other values as they were, and all lists
//!   but those that the element leaves or comes to. The number of lists stays.
//! - A call with a cursor that is in no list, or with the number of a list that isn't there, changes
//!   nothing. An insert or a push returns its value then.
//! - Where there is room, no added element is refused for memory, and the capacity stays. No removal
//!   loses room or changes the capacity.
//!
//! A call takes constant time, with these exceptions:
//!
//! - Making the lists and `clone` take time linear in their number and in the capacity.
//! - `clear_list` takes time linear in the elements of the list, and `append` in those that move.
//! - `reserve` takes time linear in the capacity where it has to make room.
//! - A push or an insert may have to grow the vectors, and takes constant time on average.
//!
//! The values lie in a map. The order of the lists lies apart from them, in 12 bytes a slot: links of
//! 4 bytes by the index of the slot, and the number of the list. So a move reads and writes no value.
//!
//! Here is a cache with two segments. What is new stands in the first, and what was used again in the
//! second:
//!
//! ```
//! let mut cache = StableLists::new(alloc, 2)?;
//! let one = cache.push_front(0, 1)?;
//! cache.push_front(0, 2)?;
//! assert!(rt; cache.move_to_front(one, 1));
//! assert_eq!(rt; cache.list_of(one), Some(1));
//! assert_eq!(rt; cache.get(one), Some(&1));
//! assert_eq!(rt; (cache.list_len(0), cache.list_len(1)), (1, 1));
//! ```
#![tactic(auto, using(slotmap::proofs::Callers::keys))]

ghost use Rattle.std.specs.Prelude.{◌≡◌, ◌≢◌, ℕ, ◌<◌, ◌≤◌, ◌^◌, ◌∷◌, [], Some, None, true, IfOk, IfErr, OnOk, IfSome, IsTrue, ◌↔◌, max};
ghost use Rattle.std.specs.Prelude.{is_some, length, option_copied, option_map, replicate};
ghost use Rattle.std.specs.FinMap as map;
ghost use Rattle.slotmap.specs.Words.{Key as KeyOf, IsLive, IsNew, IsSpent, RefusesCapacity};
ghost use Rattle.slotmap_links.specs.Lists.{with_capacity, with_members, with_owners};
ghost use Rattle.slotmap_list.specs.Kept.{key_there};
ghost use Rattle.slotmap_list.specs.Sequence.{value_of, first_or, last_or, key_after, key_before, IsOnce};
ghost use Rattle.slotmap_lists.specs.Sequences.{elements_of, all_elements, value_under, list_with, number_with};

use slotmap::{Key, ReserveError};
use slotmap_bounded::BoundedMap;
use slotmap_links::Links;
use std::alloc::{AllocError, Global};
use std::marker::Model;
use std::ops::Index;
use thiserror::Error;

mod add;
mod beside;
mod clone;
mod debug;
mod emptying;
mod iter;
mod moves;
mod place;
mod room;
mod take;

pub use iter::Iter;
use place::home_at;
pub use slotmap_list::{Cursor, PlaceError};

// How many lists there are at most.
const MOST: usize = 4294967294;

/// Several lists, whose elements have cursors of the key type `K`.
///
/// A clause sees `lists`, for each number the list of the cursors with their values, from front to
/// back, and `cursors`, by which it says that a cursor is never used again. `memory` is how much
/// they count as reserved. A test shows that a call that keeps it asks for none.
pub struct StableLists<K, T> {
    // The values, each under the cursor of its element.
    values: BoundedMap<K, T>,
    // The list of each owner has the indices of the cursors of one list, from front to back.
    links: Links,
    // By the index of each cursor, the number of the list that it is in.
    homes: Vec<u32>,
}

impl<K, T: Drop> Drop for StableLists<K, T> {
    fn drop(self) {
        let StableLists {
            values: _values,
            links: _links,
            homes: _homes,
        } = self;
    }
}

impl<K, T> Model for StableLists<K, T> {
    ghost use Rattle.slotmap_lists.specs.Sequences.{Sequences, sequences_code};

    ghost Value = { Sequences T };

    ghost coded = { sequences_code T.code };

    ghost use Rattle.slotmap.specs.Words.{without_values};
    ghost use Rattle.slotmap_lists.specs.Kept.{AreListed, lists_at};
    ghost use Rattle.std.specs.Prelude.{vec_capacity};

    ghost view = { λ l. record { lists = lists_at l.values.live l.links; cursors = without_values l.values; links = (vec_capacity l.homes, l.links.capacity) } };

    ghost invariant = { λ l. AreListed l.values l.homes.items l.links };
}

/// An element was not added at an end of a list. The error holds its value.
#[derive(Debug, Drop, Error)]
pub enum AddError<T> {
    /// There is no list with this number.
    #[error("there is no such list")]
    NoList(T),
    /// The elements and the retired slots are as many as a map can hold, 4294967294.
    #[error("the lists are full")]
    Full(T),
    /// An allocation failed.
    #[error("out of memory")]
    Memory(T),
}

// Makes so many lists, all empty, and links for the numbers below `members`.
fn empty_lists(alloc: Global, lists: usize, members: usize) -> Result<Links, AllocError>
    requires { members < 2 ^ 32 }
    ensures { IfOk result (λ links. links ≡ with_capacity (with_members (with_owners (record { lists = []; members = 0; capacity = (0, 0) }) lists) members) links.capacity) }
{
    let mut links = Links::new(alloc);
    links.cover_owners(lists)?;
    links.cover_members(members)?;
    Ok(links)
}

// Makes homes for the numbers below `members`.
fn first_homes(alloc: Global, members: usize) -> Result<Vec<u32>, AllocError>
    ensures { IfOk result (λ homes. length homes.items ≡ members) }
{
    let mut homes = Vec::new(alloc);
    homes.resize(members, 0)?;
    Ok(homes)
}

// The live key with an index, if there is one.
fn key_at<K: Key, T: Drop>(values: &BoundedMap<K, T>, index: Option<u32>) -> Option<K>
    ensures value { option_map K.data_of result ≡ key_there values.now.live index }
    ensures live { IfSome result (λ key. IsLive values.now (K.data_of key)) }
{
    // By what `len` ensures, no two live keys have one index.
    let _ = values.len();
    values.key_at(index?)
}

impl<T: Drop> StableLists<Cursor, T> {
    /// Makes so many empty lists, whose elements have cursors of type `Cursor`.
    ///
    /// It fails with `TooGreat` if `lists` is over 4294967294, and with `Memory` if memory runs out. It
    /// takes time linear in `lists`.
    ///
    /// ```
    /// let lists: StableLists<Cursor, u64> = StableLists::new(alloc, 2)?;
    /// assert_eq!(rt; (lists.lists(), lists.len()), (2, 0));
    /// ```
    pub fn new(alloc: Global, lists: usize) -> Result<Self, ReserveError>
        ensures empty { IfOk result (λ made. made.lists ≡ replicate lists []) }
        ensures cursors { IfOk result (λ made. IsNew made.cursors) }
        ensures err { IfErr result (RefusesCapacity lists) }
    {
        StableLists::with_key(alloc, lists)
    }

    /// Makes so many empty lists with room for `capacity` elements in all, whose cursors are of type
    /// `Cursor`.
    ///
    /// Adding the next `capacity` elements can't fail, except with `NoList` or `Gone`. The call fails
    /// with `TooGreat` if `lists` or `capacity` is over 4294967294, and with `Memory` if memory runs out.
    /// It takes time linear in both.
    ///
    /// ```
    /// let lists: StableLists<Cursor, u64> = StableLists::with_capacity(alloc, 2, 8)?;
    /// assert_eq!(rt; lists.lists(), 2);
    /// ```
    pub fn with_capacity(alloc: Global, lists: usize, capacity: usize) -> Result<Self, ReserveError>
        ensures empty { IfOk result (λ made. made.lists ≡ replicate lists []) }
        ensures cursors { IfOk result (λ made. IsNew made.cursors) }
        ensures room { IfOk result (λ made. capacity ≤ made.cursors.room) }
        ensures err { IfErr result (RefusesCapacity (max lists capacity)) }
    {
        StableLists::with_capacity_and_key(alloc, lists, capacity)
    }
}

impl<K: Key, T: Drop> StableLists<K, T> {
    /// Makes so many empty lists, with any type of cursors.
    ///
    /// It fails with `TooGreat` if `lists` is over 4294967294, and with `Memory` if memory runs out. It
    /// takes time linear in `lists`.
    ///
    /// ```
    /// let lists: StableLists<NodeKey, u64> = StableLists::with_key(alloc, 2)?;
    /// assert!(rt; lists.is_empty());
    /// ```
    pub fn with_key(alloc: Global, lists: usize) -> Result<Self, ReserveError>
        ensures empty { IfOk result (λ made. made.lists ≡ replicate lists []) }
        ensures cursors { IfOk result (λ made. IsNew made.cursors) }
        ensures err { IfErr result (RefusesCapacity lists) }
    {
        StableLists::with_capacity_and_key(alloc, lists, 0)
    }

    /// Makes so many empty lists with room for `capacity` elements in all, with any type of cursors.
    ///
    /// Adding the next `capacity` elements can't fail, except with `NoList` or `Gone`. The call fails
    /// with `TooGreat` if `lists` or `capacity` is over 4294967294, and with `Memory` if memory runs out.
    /// It takes time linear in both.
    ///
    /// ```
    /// let lists: StableLists<NodeKey, u64> = StableLists::with_capacity_and_key(alloc, 2, 8)?;
    /// assert_eq!(rt; (lists.list_len(0), lists.list_len(1)), (0, 0));
    /// ```
    pub fn with_capacity_and_key(
        alloc: Global,
        lists: usize,
        capacity: usize,
    ) -> Result<Self, ReserveError>
        ensures empty { IfOk result (λ made. made.lists ≡ replicate lists []) }
        ensures cursors { IfOk result (λ made. IsNew made.cursors) }
        ensures room { IfOk result (λ made. capacity ≤ made.cursors.room) }
        ensures err { IfErr result (RefusesCapacity (max lists capacity)) }
    {
        if lists > MOST {
            return Err(ReserveError::TooGreat);
        }
        let values = BoundedMap::with_capacity(alloc, capacity)?;
        let Ok(links) = empty_lists(alloc, lists, capacity + 1) else {
            return Err(ReserveError::Memory);
        };
        let Ok(homes) = first_homes(alloc, capacity + 1) else {
            return Err(ReserveError::Memory);
        };
        Ok(StableLists {
            values,
            links,
            homes,
        })
    }

    /// Returns the number of lists, in constant time. They have the numbers below it.
    ///
    /// ```
    /// let lists: StableLists<Cursor, u64> = StableLists::new(alloc, 3)?;
    /// assert_eq!(rt; lists.lists(), 3);
    /// ```
    pub fn lists(&self) -> usize
        ensures value { result ≡ length self.now.lists }
        ensures limit { result < 2 ^ 32 }
    {
        self.links.owners()
    }

    /// Returns the number of elements in all lists, in constant time. Each is in one list, and there
    /// once.
    ///
    /// ```
    /// let mut lists = StableLists::new(alloc, 2)?;
    /// lists.push_back(0, 1)?;
    /// lists.push_back(1, 2)?;
    /// assert_eq!(rt; lists.len(), 2);
    /// ```
    pub fn len(&self) -> usize
        ensures value { result ≡ length (all_elements self.now.lists) }
        ensures once { IsOnce (all_elements self.now.lists) }
        ensures live { result ≡ map.len self.now.cursors.live }
        ensures same_keys { (k : KeyOf) → map.contains_key self.now.cursors.live k ≡ is_some (value_under k self.now.lists) }
    {
        self.values.len()
    }

    /// Returns whether no list has an element, in constant time.
    ///
    /// ```
    /// let mut lists = StableLists::new(alloc, 2)?;
    /// assert!(rt; lists.is_empty());
    /// lists.push_back(1, 2)?;
    /// assert!(rt; !lists.is_empty());
    /// ```
    pub fn is_empty(&self) -> bool
        ensures { IsTrue result ↔ (length (all_elements self.now.lists) ≡ 0) }
    {
        self.len() == 0
    }

    /// Returns the number of elements of a list, in constant time; of one that isn't there, 0.
    ///
    /// ```
    /// let mut lists = StableLists::new(alloc, 2)?;
    /// lists.push_back(1, 2)?;
    /// assert_eq!(rt; (lists.list_len(0), lists.list_len(1), lists.list_len(2)), (0, 1, 0));
    /// ```
    pub fn list_len(&self, list: usize) -> usize
        ensures { result ≡ length (elements_of list self.now.lists) }
    {
        if list >= self.lists() {
            return 0;
        }
        self.links.len(list as u32)
    }

    /// Returns whether a cursor is in a list, in constant time.
    ///
    /// ```
    /// let mut lists = StableLists::new(alloc, 1)?;
    /// let one = lists.push_back(0, 1)?;
    /// assert!(rt; lists.contains(one));
    /// lists.remove(one);
    /// assert!(rt; !lists.contains(one));
    /// ```
    pub fn contains(&self, cursor: K) -> bool
        ensures value { result ≡ is_some (value_under (K.data_of cursor) self.now.lists) }
        ensures live { result ≡ map.contains_key self.now.cursors.live (K.data_of cursor) }
    {
        self.values.contains_key(cursor)
    }

    /// Returns the number of the list that a cursor is in, or `None` if it is in none. Constant time.
    ///
    /// ```
    /// let mut lists = StableLists::new(alloc, 2)?;
    /// let one = lists.push_back(0, 1)?;
    /// lists.move_to_back(one, 1);
    /// assert_eq!(rt; lists.list_of(one), Some(1));
    /// lists.remove(one);
    /// assert_eq!(rt; lists.list_of(one), None);
    /// ```
    pub fn list_of(&self, cursor: K) -> Option<usize>
        ensures { result ≡ number_with (K.data_of cursor) self.now.lists }
    {
        if !self.contains(cursor) {
            return None;
        }
        Some(self.home(cursor) as usize)
    }

    // The number of the list that a live cursor is in.
    #[inline(always)]
    fn home(&self, cursor: K) -> u32
        requires { is_some (value_under (K.data_of cursor) self.now.lists) ≡ true }
        ensures value { number_with (K.data_of cursor) self.now.lists ≡ Some result }
        ensures below { result < length self.now.lists }
        ensures here { is_some (value_of (K.data_of cursor) (elements_of result self.now.lists)) ≡ true }
        ensures alone { (q : ℕ) → q ≢ result → value_of (K.data_of cursor) (elements_of q self.now.lists) ≡ None }
    {
        home_at(&self.homes, cursor.data().idx())
    }

    /// Returns the value of a cursor, or `None` if it is in no list. Constant time.
    ///
    /// ```
    /// let mut lists = StableLists::new(alloc, 1)?;
    /// let one = lists.push_back(0, 1)?;
    /// assert_eq!(rt; lists.get(one), Some(&1));
    /// lists.remove(one);
    /// assert_eq!(rt; lists.get(one), None);
    /// ```
    pub fn get(&self, cursor: K) -> Option<&T>
        ensures value { option_copied result ≡ value_under (K.data_of cursor) self.now.lists }
        ensures gone { IsSpent self.now.cursors (K.data_of cursor) → result ≡ None }
    {
        self.values.get(cursor)
    }

    /// Returns the cursor at the front of a list, or `None` if it is empty or isn't there. Constant
    /// time.
    ///
    /// ```
    /// let mut lists = StableLists::new(alloc, 2)?;
    /// let one = lists.push_back(1, 1)?;
    /// lists.push_back(1, 2)?;
    /// assert_eq!(rt; (lists.first(0), lists.first(1)), (None, Some(one)));
    /// ```
    pub fn first(&self, list: usize) -> Option<K>
        ensures value { option_map K.data_of result ≡ first_or (elements_of list self.now.lists) None }
        ensures stands { IfSome result (λ key. is_some (value_under (K.data_of key) self.now.lists) ≡ true) }
        ensures in_list { IfSome result (λ key. number_with (K.data_of key) self.now.lists ≡ Some list) }
    {
        if list >= self.lists() {
            return None;
        }
        key_at(&self.values, self.links.first(list as u32))
    }

    /// Returns the cursor at the back of a list, or `None` if it is empty or isn't there. Constant time.
    ///
    /// ```
    /// let mut lists = StableLists::new(alloc, 2)?;
    /// lists.push_back(1, 1)?;
    /// let two = lists.push_back(1, 2)?;
    /// assert_eq!(rt; (lists.last(0), lists.last(1)), (None, Some(two)));
    /// ```
    pub fn last(&self, list: usize) -> Option<K>
        ensures value { option_map K.data_of result ≡ last_or (elements_of list self.now.lists) None }
        ensures stands { IfSome result (λ key. is_some (value_under (K.data_of key) self.now.lists) ≡ true) }
        ensures in_list { IfSome result (λ key. number_with (K.data_of key) self.now.lists ≡ Some list) }
    {
        if list >= self.lists() {
            return None;
        }
        key_at(&self.values, self.links.last(list as u32))
    }

    /// Returns the cursor after this one in its list, or `None` at the back and for a cursor that is in
    /// no list. Constant time.
    ///
    /// ```
    /// let mut lists = StableLists::new(alloc, 2)?;
    /// let one = lists.push_back(1, 1)?;
    /// let two = lists.push_back(1, 2)?;
    /// assert_eq!(rt; (lists.next(one), lists.next(two)), (Some(two), None));
    /// ```
    pub fn next(&self, cursor: K) -> Option<K>
        ensures value { option_map K.data_of result ≡ key_after (K.data_of cursor) (list_with (K.data_of cursor) self.now.lists) }
        ensures stands { IfSome result (λ key. is_some (value_under (K.data_of key) self.now.lists) ≡ true) }
        ensures in_list { IfSome result (λ key. number_with (K.data_of key) self.now.lists ≡ number_with (K.data_of cursor) self.now.lists) }
    {
        if !self.values.contains_key(cursor) {
            return None;
        }
        key_at(&self.values, self.links.next(cursor.data().idx()))
    }

    /// Returns the cursor before this one in its list, or `None` at the front and for a cursor that is
    /// in no list. Constant time.
    ///
    /// ```
    /// let mut lists = StableLists::new(alloc, 2)?;
    /// let one = lists.push_back(1, 1)?;
    /// let two = lists.push_back(1, 2)?;
    /// assert_eq!(rt; (lists.prev(one), lists.prev(two)), (None, Some(one)));
    /// ```
    pub fn prev(&self, cursor: K) -> Option<K>
        ensures value { option_map K.data_of result ≡ key_before None (K.data_of cursor) (list_with (K.data_of cursor) self.now.lists) }
        ensures stands { IfSome result (λ key. is_some (value_under (K.data_of key) self.now.lists) ≡ true) }
        ensures in_list { IfSome result (λ key. number_with (K.data_of key) self.now.lists ≡ number_with (K.data_of cursor) self.now.lists) }
    {
        if !self.values.contains_key(cursor) {
            return None;
        }
        key_at(&self.values, self.links.prev(cursor.data().idx()))
    }
}

/// `lists[cursor]` is the value of a cursor. The caller proves that it is in a list.
impl<K: Key, T: Drop> Index<K> for StableLists<K, T> {
    type Output = T;

    ghost can_index = { λ lists cursor. is_some (value_under (K.data_of cursor) lists.lists) ≡ true };

    ghost index_gives = { λ lists cursor value. value_under (K.data_of cursor) lists.lists ≡ Some value };

    fn index(&self, cursor: K) -> &T {
        let Some(value) = self.get(cursor) else {
            unreachable!()
        };
        value
    }
}
