//! Guards of the calls that both secondary maps have, and that no trait of the library has.
#![tactic(auto, using(slotmap_core::proofs::ForCallers::SecondaryCallers::secondary))]

ghost use Rattle.std.specs.FinMap as map;
ghost use Rattle.std.specs.Prelude.{◌≡◌, ◌↔◌, Some, None, IfOk, IfSome, IfNone, OnOk, OnSome, IsSome, IsTrue, true, false};
ghost use Rattle.slotmap_core.specs.Words.{Key as KeyOf, get, contains_key, entry, bind, remove, is_null, no_entry, occupied, IsCloneOf, AreEqual};

use slotmap_core::keys::Key;
use slotmap_core::secondary::{NoEntry, Secondary};
use slotmap_secondary::{Entry as SideEntry, SecondaryMap};
use slotmap_sparse::{Entry as SparseEntry, SparseSecondaryMap};
use std::alloc::AllocError;
use std::mem;

/// One call each of a secondary map, or one of it and one of the entry that it returns.
pub trait SideCalls<K: Key, V: Drop>: Secondary<K, V> + Sized {
    /// The key's value is read; also with no look-up.
    /// Refuses `index_reads_another_key`, `get_unchecked_reads_another_place`,
    /// `get_unchecked_reads_another_key`: `value` of `get_unchecked`, and `can_index` and `index_gives`.
    fn value_of_the_key_is_read(&self, key: K, checked: bool) -> &V
        requires { contains_key (Self.pairs self.now) (K.data_of key) ≡ true }
        ensures { get (Self.pairs self.now) (K.data_of key) ≡ Some result.now };

    /// What is written under a key is found, and changes nothing else. Where the key has no value,
    /// nothing changes.
    /// Refuses `get_mut_lends_where_no_key_stands`, `get_mut_lends_another_key`: `writes_back` and `value`
    /// of `get_mut`.
    fn get_mut_lends_the_value(&mut self, key: K, value: V)
        ensures written { contains_key (Self.pairs self.old) (K.data_of key) ≡ true → Self.pairs self.new ≡ bind (Self.pairs self.old) (K.data_of key) value }
        ensures absent { get (Self.pairs self.old) (K.data_of key) ≡ None → self.new ≡ self.old };

    /// The value that the key has is lent, and what is written there is found, and changes nothing else;
    /// also with no look-up.
    /// Refuses `index_mut_lends_another_key`: `value` and `writes_back` of `index_mut`, and `value` and
    /// `writes_back` of `get_unchecked_mut`.
    fn lent_place_is_that_of_the_key(&mut self, key: K, value: V, checked: bool) -> V
        requires { contains_key (Self.pairs self.old) (K.data_of key) ≡ true }
        ensures shown { get (Self.pairs self.old) (K.data_of key) ≡ Some result }
        ensures written { Self.pairs self.new ≡ bind (Self.pairs self.old) (K.data_of key) value };

    /// A copy has the same keys, each with a clone of its value; also by the trait `Clone`, as a derived
    /// `Clone` makes one.
    /// Refuses `clone_gives_version_3_in_place_of_1`, `clone_counts_nothing`, `clone_sets_a_version_back`,
    /// `derived_clone_is_empty`: `clones` of `clone`, and `is_clone`.
    fn copy(&self, derived: bool) -> Result<Self, AllocError>
    where
        V: Clone,
        ensures { IfOk result (λ copy. (key : KeyOf) → IsCloneOf V.is_clone (get (Self.pairs self.now) key) (get (Self.pairs copy) key)) };

    /// The map has the keys of the other, each with a clone of its value.
    /// Refuses `clone_from_drops_the_copy`: `clones` of `clone_from`.
    fn copied_from(&mut self, source: &Self) -> Result<(), AllocError>
    where
        V: Clone,
        ensures { OnOk result ((key : KeyOf) → IsCloneOf V.is_clone (get (Self.pairs source.now) key) (get (Self.pairs self.new) key)) };

    /// Two maps are equal exactly where they have the same keys with equal values.
    /// Refuses `eq_ignores_versions`, `eq_says_the_contrary`: `which` of `eq`.
    fn equal_maps_have_the_same_keys(&self, other: &Self) -> bool
    where
        V: PartialEq,
        ensures { IsTrue result ↔ AreEqual V.eq (Self.pairs self.now) (Self.pairs other.now) };

    /// A drain yields a key with its value, and nothing only where the map is empty. One that is dropped
    /// early removes every key.
    /// Refuses `drain_leaves_a_pair`, `drain_leaves_the_rest`, `drain_begins_with_the_last_pair`,
    /// `drain_gives_another_version`: `next_gives` of `Drain`, `ends` of its drop, and `map`,
    /// `same_reference` and `ready` of `drain`.
    fn early_dropped_drain_leaves_no_key(&mut self) -> Option<(K, V)>
        ensures some { IfSome result (λ pair. get (Self.pairs self.old) (K.data_of pair.0) ≡ Some pair.1) }
        ensures none { IfNone result (Self.pairs self.old ≡ map.empty) }
        ensures empty { Self.pairs self.new ≡ map.empty };

    /// Guards of `entry`: whether it returns `None`, and what is removed of an occupied entry.
    fn entry_outcomes(&mut self, key: K) -> (bool, Option<V>)
        // The null key has no entry, nor has a key that is older than the one at its index: the call
        // returns `None`, and only then.
        // Refuses `entry_of_the_null_key_is_vacant`, `entry_refuses_newer_keys`,
        // `entry_answers_none_for_want_of_memory`: `which` and `err` of `entry`.
        ensures older_and_null_keys_have_no_entry { IsTrue result.0 ↔ (entry (Self.pairs self.old) (K.data_of key) ≡ no_entry) }
        // The entry is that of the key.
        // Holds by `which` and `ok` of `entry`.
        ensures entry_is_that_of_the_key { OnSome result.1 (Self.pairs self.new ≡ remove (Self.pairs self.old) (K.data_of key)) };

    /// Guards of `try_entry`: whether it says `Older`, and whether the entry is occupied.
    fn try_entry_outcomes(&mut self, key: K) -> (bool, bool)
        // The call fails with `Older` of these keys, and only of these.
        // Refuses `try_entry_says_memory_for_an_older_key`: `which` and `err` of `try_entry`.
        ensures try_entry_refuses_older_and_null_keys { IsTrue result.0 ↔ (entry (Self.pairs self.old) (K.data_of key) ≡ no_entry) }
        // A key that has a value has an occupied entry, and no other key has one.
        // Holds by `which` of `try_entry`.
        ensures key_with_a_value_has_an_occupied_entry { IsTrue result.1 ↔ ((value : V) × (entry (Self.pairs self.old) (K.data_of key) ≡ occupied value)) };

    /// The entry shows its key; also one that is taken apart.
    /// Holds by `ok` of `try_entry`, and `ensures` of `key` of `Entry`, of `VacantEntry` and of
    /// `OccupiedEntry`.
    fn entry_shows_its_key(&mut self, key: K, apart: bool) -> K
        ensures { K.data_of result ≡ K.data_of key };

    /// An occupied entry's key and value are returned, and the key is found no longer. Nothing else
    /// changes.
    /// Refuses `remove_entry_answers_another_key`: `ok` of `try_entry`, `key`, `value` and `removes` of
    /// `remove_entry`, and `value` and `removes` of `remove` of `OccupiedEntry`.
    fn remove_entry_takes_the_pair(&mut self, key: K, whole: bool) -> Option<(K, V)>
        ensures pair { IfSome result (λ pair. (K.data_of pair.0 ≡ K.data_of key) × (get (Self.pairs self.old) (K.data_of key) ≡ Some pair.1)) }
        ensures removed { OnSome result (Self.pairs self.new ≡ remove (Self.pairs self.old) (K.data_of key)) }
        ensures there { contains_key (Self.pairs self.old) (K.data_of key) ≡ true → is_null (K.data_of key) ≡ false → IsSome result };

    /// An insert into an occupied entry returns the old value. What the entry lends for good is the value
    /// of its key, and what is written there is found under it.
    /// Holds by `ok` of `try_entry`, `value` and `writes_back` of `into_mut`, and `old` of `insert` of
    /// `OccupiedEntry`.
    fn occupied_entry_hands_its_value_on(&mut self, key: K, value: V, lends: bool) -> Option<V>
        ensures shown { IfSome result (λ before. get (Self.pairs self.old) (K.data_of key) ≡ Some before) }
        ensures written { lends ≡ true → contains_key (Self.pairs self.old) (K.data_of key) ≡ true → is_null (K.data_of key) ≡ false →
            Self.pairs self.new ≡ bind (Self.pairs self.old) (K.data_of key) value };

    /// An occupied entry keeps its value, and asks for no memory, however a new one would be made. What is
    /// written there is found under its key. A key with no entry changes nothing.
    /// Holds by `ok` and `unchanged` of `try_entry`, and `callable`, `value`, `err` and `writes_back` of
    /// `or_insert`, of `or_insert_with` and of `or_default`.
    fn occupied_entry_keeps_its_value<F: FnOnce() -> V + Drop>(
        &mut self,
        key: K,
        value: V,
        f: F,
        last: V,
        way: u8,
    ) -> Option<V>
    where
        V: Default,
        requires { F.pre f }
        ensures kept { (standing : V) → entry (Self.pairs self.old) (K.data_of key) ≡ occupied standing → result ≡ Some standing }
        ensures written { (standing : V) → entry (Self.pairs self.old) (K.data_of key) ≡ occupied standing → Self.pairs self.new ≡ bind (Self.pairs self.old) (K.data_of key) last }
        ensures refused { entry (Self.pairs self.old) (K.data_of key) ≡ no_entry → self.new ≡ self.old };
}

impl<K: Key, V: Drop> SideCalls<K, V> for SecondaryMap<K, V> {
    fn value_of_the_key_is_read(&self, key: K, checked: bool) -> &V {
        if checked {
            &self[key]
        } else {
            self.get_unchecked(key)
        }
    }

    fn get_mut_lends_the_value(&mut self, key: K, value: V) {
        if let Some(place) = self.get_mut(key) {
            *place = value;
        }
    }

    fn lent_place_is_that_of_the_key(&mut self, key: K, value: V, checked: bool) -> V {
        if checked {
            mem::replace(&mut self[key], value)
        } else {
            mem::replace(self.get_unchecked_mut(key), value)
        }
    }

    fn copy(&self, derived: bool) -> Result<Self, AllocError>
    where
        V: Clone,
    {
        if derived {
            Clone::clone(self)
        } else {
            self.clone()
        }
    }

    fn copied_from(&mut self, source: &Self) -> Result<(), AllocError>
    where
        V: Clone,
    {
        self.clone_from(source)
    }

    fn equal_maps_have_the_same_keys(&self, other: &Self) -> bool
    where
        V: PartialEq,
    {
        self == other
    }

    fn early_dropped_drain_leaves_no_key(&mut self) -> Option<(K, V)> {
        self.drain().next()
    }

    fn entry_outcomes(&mut self, key: K) -> (bool, Option<V>) {
        match self.entry(key) {
            Ok(None) => (true, None),
            Ok(Some(SideEntry::Occupied(found))) => (false, Some(found.remove())),
            _ => (false, None),
        }
    }

    fn try_entry_outcomes(&mut self, key: K) -> (bool, bool) {
        match self.try_entry(key) {
            Ok(SideEntry::Occupied(_)) => (false, true),
            Ok(SideEntry::Vacant(_)) => (false, false),
            Err(NoEntry::Older) => (true, false),
            Err(NoEntry::Memory) => (false, false),
        }
    }

    fn entry_shows_its_key(&mut self, key: K, apart: bool) -> K {
        match self.try_entry(key) {
            Ok(found) if !apart => found.key(),
            Ok(SideEntry::Occupied(found)) => found.key(),
            Ok(SideEntry::Vacant(found)) => found.key(),
            Err(_) => key,
        }
    }

    fn remove_entry_takes_the_pair(&mut self, key: K, whole: bool) -> Option<(K, V)> {
        match self.try_entry(key) {
            Ok(SideEntry::Occupied(found)) if whole => Some(found.remove_entry()),
            Ok(SideEntry::Occupied(found)) => Some((key, found.remove())),
            _ => None,
        }
    }

    fn occupied_entry_hands_its_value_on(&mut self, key: K, value: V, lends: bool) -> Option<V> {
        match self.try_entry(key) {
            Ok(SideEntry::Occupied(mut found)) if !lends => Some(found.insert(value)),
            Ok(SideEntry::Occupied(found)) => Some(mem::replace(found.into_mut(), value)),
            _ => None,
        }
    }

    fn occupied_entry_keeps_its_value<F: FnOnce() -> V + Drop>(
        &mut self,
        key: K,
        value: V,
        f: F,
        last: V,
        way: u8,
    ) -> Option<V>
    where
        V: Default,
    {
        match self.try_entry(key) {
            Ok(found) => Some(match way {
                0 => mem::replace(found.or_insert(value), last),
                1 => mem::replace(found.or_insert_with(f), last),
                _ => mem::replace(found.or_default(), last),
            }),
            Err(_) => None,
        }
    }
}

impl<K: Key, V: Drop> SideCalls<K, V> for SparseSecondaryMap<K, V> {
    fn value_of_the_key_is_read(&self, key: K, checked: bool) -> &V {
        if checked {
            &self[key]
        } else {
            self.get_unchecked(key)
        }
    }

    fn get_mut_lends_the_value(&mut self, key: K, value: V) {
        if let Some(place) = self.get_mut(key) {
            *place = value;
        }
    }

    fn lent_place_is_that_of_the_key(&mut self, key: K, value: V, checked: bool) -> V {
        if checked {
            mem::replace(&mut self[key], value)
        } else {
            mem::replace(self.get_unchecked_mut(key), value)
        }
    }

    fn copy(&self, derived: bool) -> Result<Self, AllocError>
    where
        V: Clone,
    {
        if derived {
            Clone::clone(self)
        } else {
            self.clone()
        }
    }

    fn copied_from(&mut self, source: &Self) -> Result<(), AllocError>
    where
        V: Clone,
    {
        self.clone_from(source)
    }

    fn equal_maps_have_the_same_keys(&self, other: &Self) -> bool
    where
        V: PartialEq,
    {
        self == other
    }

    fn early_dropped_drain_leaves_no_key(&mut self) -> Option<(K, V)> {
        self.drain().next()
    }

    fn entry_outcomes(&mut self, key: K) -> (bool, Option<V>) {
        match self.entry(key) {
            Ok(None) => (true, None),
            Ok(Some(SparseEntry::Occupied(found))) => (false, Some(found.remove())),
            _ => (false, None),
        }
    }

    fn try_entry_outcomes(&mut self, key: K) -> (bool, bool) {
        match self.try_entry(key) {
            Ok(SparseEntry::Occupied(_)) => (false, true),
            Ok(SparseEntry::Vacant(_)) => (false, false),
            Err(NoEntry::Older) => (true, false),
            Err(NoEntry::Memory) => (false, false),
        }
    }

    fn entry_shows_its_key(&mut self, key: K, apart: bool) -> K {
        match self.try_entry(key) {
            Ok(found) if !apart => found.key(),
            Ok(SparseEntry::Occupied(found)) => found.key(),
            Ok(SparseEntry::Vacant(found)) => found.key(),
            Err(_) => key,
        }
    }

    fn remove_entry_takes_the_pair(&mut self, key: K, whole: bool) -> Option<(K, V)> {
        match self.try_entry(key) {
            Ok(SparseEntry::Occupied(found)) if whole => Some(found.remove_entry()),
            Ok(SparseEntry::Occupied(found)) => Some((key, found.remove())),
            _ => None,
        }
    }

    fn occupied_entry_hands_its_value_on(&mut self, key: K, value: V, lends: bool) -> Option<V> {
        match self.try_entry(key) {
            Ok(SparseEntry::Occupied(mut found)) if !lends => Some(found.insert(value)),
            Ok(SparseEntry::Occupied(found)) => Some(mem::replace(found.into_mut(), value)),
            _ => None,
        }
    }

    fn occupied_entry_keeps_its_value<F: FnOnce() -> V + Drop>(
        &mut self,
        key: K,
        value: V,
        f: F,
        last: V,
        way: u8,
    ) -> Option<V>
    where
        V: Default,
    {
        let Ok(found) = self.try_entry(key) else {
            return None;
        };
        match way {
            0 => match found.or_insert(value) {
                Ok(place) => Some(mem::replace(place, last)),
                Err(_) => None,
            },
            1 => match found.or_insert_with(f) {
                Ok(place) => Some(mem::replace(place, last)),
                Err(_) => None,
            },
            _ => match found.or_default() {
                Ok(place) => Some(mem::replace(place, last)),
                Err(_) => None,
            },
        }
    }
}
