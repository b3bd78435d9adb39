//! Guards of the calls that each primary map has, and that no trait of the library has.
#![tactic(auto, using(slotmap_core::proofs::ForCallers::Callers::keys))]

ghost use Rattle.std.specs.FinMap as map;
ghost use Rattle.std.specs.Prelude.{◌≡◌, Some, None, IfOk, IfSome, IfNone, OnOk, Err, [], ℕ};
ghost use Rattle.slotmap_core.specs.Words.{Key as KeyOf, IsLive, places, IsCloneOf, ClonesEqual};
ghost use Rattle.slotmap_core.specs.declared.errors.SlotsError.TheVariants.{FirstNotEmpty};

use slotmap_basic::SlotMap;
use slotmap_core::errors::SlotsError;
use slotmap_core::keys::Key;
use slotmap_core::primary::Primary;
use slotmap_core::serial::SlotRecord;
use slotmap_dense::DenseSlotMap;
use slotmap_hop::HopSlotMap;
use std::alloc::{AllocError, Global};

/// One call each of a primary map.
pub trait Calls<K: Key, V: Drop>: Primary<K, V> {
    /// A live key's value is read.
    /// Refuses `index_reads_another_key`: `can_index` and `index_gives`.
    fn index_reads_the_value(&self, key: K) -> &V
        requires { IsLive (Self.content self.now) (K.data_of key) }
        ensures { map.get (Self.content self.now).live (K.data_of key) ≡ Some result.now };

    /// What is written under a live key is found, and changes nothing else. Where the key isn't live,
    /// nothing changes.
    /// Refuses `get_mut_finds_nothing`, `get_mut_lends_where_no_key_is_live`: `writes_back` and `value` of
    /// `get_mut`.
    fn get_mut_lends_the_value(&mut self, key: K, value: V)
        ensures written { IsLive (Self.content self.old) (K.data_of key) → (Self.content self.new).live ≡ map.insert (Self.content self.old).live (K.data_of key) value }
        ensures absent { map.get (Self.content self.old).live (K.data_of key) ≡ None → self.new ≡ self.old };

    /// What is written under a live key is found, and changes nothing else; also with no look-up.
    /// Holds by the premises, and `writes_back` of `index_mut` and `writes_back` of `get_unchecked_mut`.
    fn lent_place_is_that_of_the_key(&mut self, key: K, value: V, checked: bool)
        requires { IsLive (Self.content self.old) (K.data_of key) }
        ensures written { (Self.content self.new).live ≡ map.insert (Self.content self.old).live (K.data_of key) value }
        ensures rest { (Self.content self.new).next ≡ (Self.content self.old).next };

    /// Guards of `clone`, and of a copy by the trait `Clone`, as a derived `Clone` makes one.
    fn copy(&self, derived: bool) -> Result<Self, AllocError>
    where
        V: Clone,
        // A copy has the same live keys, each with a clone of its value.
        // Refuses `clone_detaches_the_first_key`, `copy_puts_values_under_other_keys`,
        // `clone_gives_the_next_version`, `clone_gives_the_values_in_reverse`,
        // `clone_by_the_trait_holds_nothing`, `derived_clone_is_empty`: `clones` of `clone`, and
        // `is_clone`.
        ensures copy_has_a_clone_of_each_value { IfOk result (λ copy. (key : KeyOf) → IsCloneOf V.is_clone (map.get (Self.content self.now).live key) (map.get (Self.content copy).live key)) }
        // The same keys are detached, the same slots are vacant and retired, and both maps return the same
        // new keys.
        // Refuses `copy_forgets_a_detached_key`, `clone_counts_no_vacant_slot`,
        // `clone_makes_a_retired_slot_vacant`.
        ensures copy_has_the_same_slots { IfOk result (λ copy. ((Self.content copy).detached ≡ (Self.content self.now).detached)
            × ((Self.content copy).next ≡ (Self.content self.now).next) × ((Self.content copy).retired ≡ (Self.content self.now).retired)) }
        ensures copy_returns_the_same_new_keys { IfOk result (λ copy. ((Self.content copy).offer ≡ (Self.content self.now).offer)
            × ((Self.content copy).stack ≡ (Self.content self.now).stack)) };

    /// The map has the live keys of the other, each with a clone of its value.
    /// Refuses `clone_from_copies_itself`, `clone_from_does_nothing`: `clones` of `clone_from`.
    fn copied_from(&mut self, source: &Self) -> Result<(), AllocError>
    where
        V: Clone,
        ensures { OnOk result ((key : KeyOf) → IsCloneOf V.is_clone (map.get (Self.content source.now).live key) (map.get (Self.content self.new).live key)) };

    /// A drain yields a live key with its value, and nothing only where no key is live. One that is
    /// dropped early removes every key. Detached keys, slots and capacity stay.
    /// Refuses `drain_leaves_the_rest`, `drain_answers_another_key`, `drain_reserves_at_each_step`,
    /// `drain_reserves_at_its_end`: `next_gives` of `Drain`, `ends` of its drop, and `map`,
    /// `same_reference` and `ready` of `drain`.
    fn early_dropped_drain_leaves_no_key(&mut self) -> Option<(K, V)>
        ensures some { IfSome result (λ pair. map.get (Self.content self.old).live (K.data_of pair.0) ≡ Some pair.1) }
        ensures none { IfNone result ((Self.content self.old).live ≡ map.empty) }
        ensures empty { (Self.content self.new).live ≡ map.empty }
        ensures capacity { (Self.content self.new).capacity ≡ (Self.content self.old).capacity }
        ensures detached { (Self.content self.new).detached ≡ (Self.content self.old).detached }
        ensures slots { places (Self.content self.new) ≡ places (Self.content self.old) };

    /// The first pair is a live key with its value, and there is none only where no key is live.
    /// Refuses `iter_gives_null_keys`, `iter_gives_another_key`, `iterator_gives_another_version`:
    /// `next_gives`, and `in_order` of `iter`.
    fn iter_yields_a_live_key_with_its_value(&self) -> Option<(K, &V)>
        ensures some { IfSome result (λ pair. map.get (Self.content self.now).live (K.data_of pair.0) ≡ Some pair.1.now) }
        ensures none { IfNone result (map.len (Self.content self.now).live ≡ 0) };

    /// A map that is read from the list of another has its keys, each with a clone of its value. Where
    /// clones equal their values, it has the same values, as many slots, and the vacant slots have the
    /// same next versions.
    /// Refuses `to_slots_leaves_the_last_slot_out`, `to_slots_writes_the_first_value_everywhere`,
    /// `to_slots_writes_odd_versions_alone`, `to_slots_writes_the_slots_in_reverse`: `contents` and
    /// `writes_if_clones_equal` of `to_slots`, and `reads` of `from_slots`.
    fn read_again(&self, alloc: Global) -> Option<Self>
    where
        V: Clone,
        ensures clones { IfSome result (λ read. (key : KeyOf) → IsCloneOf V.is_clone (map.get (Self.content self.now).live key) (map.get (Self.content read).live key)) }
        ensures values { ClonesEqual V.is_clone → IfSome result (λ read. (Self.content read).live ≡ (Self.content self.now).live) }
        ensures slots { ClonesEqual V.is_clone → IfSome result (λ read. places (Self.content read) ≡ places (Self.content self.now)) }
        ensures next { ClonesEqual V.is_clone → IfSome result (λ read. (index version : ℕ) →
            map.get (Self.content self.now).next index ≡ Some version → map.get (Self.content read).next index ≡ Some version) };

    /// A list without slots is refused, since it lacks the first one.
    /// Refuses `from_slots_accepts_every_list`: `accepted` and `err` of `from_slots`.
    fn read(alloc: Global, list: Vec<SlotRecord<V>>) -> Result<Self, SlotsError>
        ensures { list.items ≡ [] → result ≡ Err FirstNotEmpty };
}

impl<K: Key, V: Drop> Calls<K, V> for SlotMap<K, V> {
    fn index_reads_the_value(&self, key: K) -> &V {
        &self[key]
    }

    fn get_mut_lends_the_value(&mut self, key: K, value: V) {
        if let Some(place) = self.get_mut(key) {
            *place = value;
        }
    }

    fn lent_place_is_that_of_the_key(&mut self, key: K, value: V, checked: bool) {
        if checked {
            self[key] = value;
        } else {
            *self.get_unchecked_mut(key) = value;
        }
    }

    fn copy(&self, derived: bool) -> Result<Self, AllocError>
    where
        V: Clone,
    {
        if derived {
            Clone::clone(self)
        } else {
            self.clone()
        }
    }

    fn copied_from(&mut self, source: &Self) -> Result<(), AllocError>
    where
        V: Clone,
    {
        self.clone_from(source)
    }

    fn early_dropped_drain_leaves_no_key(&mut self) -> Option<(K, V)> {
        self.drain().next()
    }

    fn iter_yields_a_live_key_with_its_value(&self) -> Option<(K, &V)> {
        self.iter().next()
    }

    fn read_again(&self, alloc: Global) -> Option<Self>
    where
        V: Clone,
    {
        let Ok(list) = self.to_slots() else {
            return None;
        };
        let Ok(read) = SlotMap::from_slots(alloc, list) else {
            return None;
        };
        Some(read)
    }

    fn read(alloc: Global, list: Vec<SlotRecord<V>>) -> Result<Self, SlotsError>
        ensures { list.items ≡ [] → result ≡ Err FirstNotEmpty }
    {
        SlotMap::from_slots(alloc, list)
    }
}

impl<K: Key, V: Drop> Calls<K, V> for DenseSlotMap<K, V> {
    fn index_reads_the_value(&self, key: K) -> &V {
        &self[key]
    }

    fn get_mut_lends_the_value(&mut self, key: K, value: V) {
        if let Some(place) = self.get_mut(key) {
            *place = value;
        }
    }

    fn lent_place_is_that_of_the_key(&mut self, key: K, value: V, checked: bool) {
        if checked {
            self[key] = value;
        } else {
            *self.get_unchecked_mut(key) = value;
        }
    }

    fn copy(&self, derived: bool) -> Result<Self, AllocError>
    where
        V: Clone,
    {
        if derived {
            Clone::clone(self)
        } else {
            self.clone()
        }
    }

    fn copied_from(&mut self, source: &Self) -> Result<(), AllocError>
    where
        V: Clone,
    {
        self.clone_from(source)
    }

    fn early_dropped_drain_leaves_no_key(&mut self) -> Option<(K, V)> {
        self.drain().next()
    }

    fn iter_yields_a_live_key_with_its_value(&self) -> Option<(K, &V)> {
        self.iter().next()
    }

    fn read_again(&self, alloc: Global) -> Option<Self>
    where
        V: Clone,
    {
        let Ok(list) = self.to_slots() else {
            return None;
        };
        let Ok(read) = DenseSlotMap::from_slots(alloc, list) else {
            return None;
        };
        Some(read)
    }

    fn read(alloc: Global, list: Vec<SlotRecord<V>>) -> Result<Self, SlotsError>
        ensures { list.items ≡ [] → result ≡ Err FirstNotEmpty }
    {
        DenseSlotMap::from_slots(alloc, list)
    }
}

impl<K: Key, V: Drop> Calls<K, V> for HopSlotMap<K, V> {
    fn index_reads_the_value(&self, key: K) -> &V {
        &self[key]
    }

    fn get_mut_lends_the_value(&mut self, key: K, value: V) {
        if let Some(place) = self.get_mut(key) {
            *place = value;
        }
    }

    fn lent_place_is_that_of_the_key(&mut self, key: K, value: V, checked: bool) {
        if checked {
            self[key] = value;
        } else {
            *self.get_unchecked_mut(key) = value;
        }
    }

    fn copy(&self, derived: bool) -> Result<Self, AllocError>
    where
        V: Clone,
    {
        if derived {
            Clone::clone(self)
        } else {
            self.clone()
        }
    }

    fn copied_from(&mut self, source: &Self) -> Result<(), AllocError>
    where
        V: Clone,
    {
        self.clone_from(source)
    }

    fn early_dropped_drain_leaves_no_key(&mut self) -> Option<(K, V)> {
        self.drain().next()
    }

    fn iter_yields_a_live_key_with_its_value(&self) -> Option<(K, &V)> {
        self.iter().next()
    }

    fn read_again(&self, alloc: Global) -> Option<Self>
    where
        V: Clone,
    {
        let Ok(list) = self.to_slots() else {
            return None;
        };
        let Ok(read) = HopSlotMap::from_slots(alloc, list) else {
            return None;
        };
        Some(read)
    }

    fn read(alloc: Global, list: Vec<SlotRecord<V>>) -> Result<Self, SlotsError>
        ensures { list.items ≡ [] → result ≡ Err FirstNotEmpty }
    {
        HopSlotMap::from_slots(alloc, list)
    }
}
