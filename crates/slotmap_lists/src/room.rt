//! Room for elements: how much there is, and more of it.

ghost use Rattle.std.specs.Prelude.{◌≡◌, ℕ, ◌+◌, ◌<◌, ◌≤◌, ◌^◌, true, IsOk, OnErr, OnOk, IfErr, length, vec_capacity};
ghost use Rattle.std.specs.FinMap as map;
ghost use Rattle.slotmap.specs.Words.{IsContent, Keeps, KeepsSpent, MakesRoom, RefusesCapacity, used};
ghost use Rattle.slotmap_bounded.specs.Bounded.{bound};
ghost use Rattle.slotmap_lists.specs.Kept.{home_of};

use crate::{MOST, StableLists};
use slotmap::{Key, ReserveError};
use slotmap_links::Links;
use std::alloc::AllocError;

// Makes homes for the numbers below `needed`.
fn cover_homes(homes: &mut Vec<u32>, needed: usize) -> Result<(), AllocError>
    ensures covers { OnOk result (needed ≤ length homes.new.items) }
    ensures same { (i : ℕ) → home_of homes.new.items i ≡ home_of homes.old.items i }
    ensures more { length homes.old.items ≤ length homes.new.items }
{
    if needed <= homes.len() {
        return Ok(());
    }
    homes.resize(needed, 0)
}

// Lets the numbers below `needed` be in a list. Where links have to be added, at least 64 are, as long
// as there may be so many. So lists that grow from nothing to 64 elements add links once.
fn cover(links: &mut Links, homes: &mut Vec<u32>, needed: usize) -> Result<(), AllocError>
    requires needed { needed < 2 ^ 32 }
    requires long { links.old.members ≤ length homes.old.items }
    ensures covers { OnOk result (needed ≤ links.new.members) }
    ensures lists { links.new.lists ≡ links.old.lists }
    ensures more { links.old.members ≤ links.new.members }
    ensures same { (i : ℕ) → home_of homes.new.items i ≡ home_of homes.old.items i }
    ensures long { links.new.members ≤ length homes.new.items }
    ensures had_room { needed ≤ links.old.members → IsOk result }
    ensures in_place { needed ≤ links.old.members → links.new ≡ links.old }
    ensures homes_in_place { needed ≤ links.old.members → vec_capacity homes.new ≡ vec_capacity homes.old }
{
    let members = links.members();
    if needed <= members {
        return Ok(());
    }
    let more = needed.max((members + 64).min(MOST));
    cover_homes(homes, more)?;
    links.cover_members(more)
}

impl<K: Key, T: Drop> StableLists<K, T> {
    /// Reserves room for `additional` more elements, in whichever lists.
    ///
    /// Adding the next `additional` elements can't fail, except with `NoList` or `Gone`, and the
    /// capacity stays then. If there is room for them already, the call succeeds and changes nothing,
    /// in constant time. Else it takes time linear in the capacity. The errors are these; either leaves
    /// the lists as they were:
    ///
    /// - `TooGreat`: more than 4294967294 elements would be there, counting those whose slots are
    ///   retired.
    /// - `Memory`: memory runs out.
    ///
    /// ```
    /// let mut lists = StableLists::new(alloc, 2)?;
    /// lists.reserve(2)?;
    /// let capacity = lists.capacity();
    /// lists.push_back(0, 1)?;
    /// lists.push_back(1, 2)?;
    /// assert_eq!(rt; lists.capacity(), capacity);
    /// ```
    #[inline(never)]
    pub fn reserve(&mut self, additional: usize) -> Result<(), ReserveError>
        ensures makes_room { MakesRoom true self.old.cursors additional (IsOk result) self.new.cursors }
        ensures room { OnOk result (additional ≤ self.new.cursors.room) }
        ensures had_room { additional ≤ self.old.cursors.room → IsOk result }
        ensures reuses { additional ≤ map.len self.old.cursors.next → IsOk result }
        ensures err { IfErr result (RefusesCapacity (used self.old.cursors + additional)) }
        ensures in_place { additional ≤ self.old.cursors.room → self.new ≡ self.old }
        ensures unchanged { OnErr result (self.new.cursors ≡ record self.old.cursors { capacity = self.new.cursors.capacity }) }
        ensures lists { self.new.lists ≡ self.old.lists }
        ensures keeps { Keeps self.old.cursors self.new.cursors }
        ensures gone { KeepsSpent self.old.cursors self.new.cursors }
    {
        let capacity = self.values.capacity_for(additional)?;
        if cover(&mut self.links, &mut self.homes, capacity + 1).is_err() {
            return Err(ReserveError::Memory);
        }
        self.values.reserve(additional)
    }

    /// Returns how many elements there can be before more room is made, in constant time. It counts
    /// the slots that are retired.
    ///
    /// ```
    /// let mut lists = StableLists::with_capacity(alloc, 2, 8)?;
    /// let capacity = lists.capacity();
    /// assert!(rt; capacity >= 8);
    /// lists.push_back(1, 1)?;
    /// assert_eq!(rt; lists.capacity(), capacity);
    /// ```
    pub fn capacity(&self) -> usize
        ensures value { result ≡ bound self.now.cursors }
        ensures exact { result ≡ used self.now.cursors + self.now.cursors.room }
        ensures valid { IsContent true self.now.cursors }
    {
        self.values.capacity()
    }
}
