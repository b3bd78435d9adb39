//! A map inside a struct, whose method returns a mutable reference into it.

ghost use Rattle.std.specs.Prelude.{◌≡◌, ◌≢◌, IfOk, OnErr, None, option_copied};
ghost use Rattle.std.specs.Borrow.{sem};
ghost use Rattle.std.specs.Option.{option_copied_mut};
ghost use Rattle.std.specs.FinMap as map;
ghost use Rattle.slotmap.specs.Words.{Key as KeyOf};

use slotmap::{DefaultKey, InsertError, ReserveError, SlotMap};
use std::alloc::Global;
use std::marker::Model;

/// Values that are registered under handles. A contract sees them as a map.
#[derive(Drop)]
pub struct Registry<T> {
    entries: SlotMap<DefaultKey, T>,
}

impl<T> Model for Registry<T> {
    ghost use Rattle.std.specs.FinMap as map;
    ghost use Rattle.slotmap.specs.Words.{key_cmp, coded_key};

    ghost Value = { map.FinMap key_cmp T };

    ghost coded = { map.code coded_key T.code };

    ghost view = { λ registry. registry.entries.live };
}

impl<T: Drop> Registry<T> {
    ghost use Rattle.slotmap_examples.specs.Registry.{lends_entry};

    /// A registry with no entry.
    pub fn new(alloc: Global) -> Result<Self, ReserveError>
        ensures { IfOk result (λ made. made ≡ map.empty) }
    {
        let entries = SlotMap::new(alloc)?;
        Ok(Registry { entries })
    }

    /// A value under a new handle.
    pub fn add(&mut self, value: T) -> Result<DefaultKey, InsertError<T>>
        ensures fresh { IfOk result (λ key. map.get self.old key ≡ None) }
        ensures adds { IfOk result (λ key. self.new ≡ map.insert self.old key value) }
        ensures unchanged { OnErr result (self.new ≡ self.old) }
    {
        self.entries.insert(value)
    }

    /// The value of a handle.
    pub fn get(&self, key: DefaultKey) -> Option<&T>
        ensures { option_copied result ≡ map.get self.now key }
    {
        self.entries.get(key)
    }

    /// A mutable reference to the value of a handle.
    pub fn get_mut(&mut self, key: DefaultKey) -> Option<&mut T>
        ensures* writes_back { sem 𝓛 (lends_entry T.row self.entry key result) }
        ensures value { option_copied_mut result ≡ map.get self.old key }
    {
        self.entries.get_mut(key)
    }

    /// Takes a value out; its handle finds nothing from then on.
    pub fn remove(&mut self, key: DefaultKey) -> Option<T>
        ensures value { result ≡ map.get self.old key }
        ensures removes { self.new ≡ map.remove self.old key }
    {
        self.entries.remove(key)
    }
}

/// Adds one to the number of a handle, and returns whether there is one.
pub fn count(numbers: &mut Registry<u64>, key: DefaultKey) -> bool
    ensures which { result ≡ map.contains_key numbers.old key }
    ensures others { (q : KeyOf) → q ≢ key → map.get numbers.new q ≡ map.get numbers.old q }
{
    match numbers.get_mut(key) {
        Some(number) => {
            *number = number.wrapping_add(1);
            true
        }
        None => false,
    }
}
